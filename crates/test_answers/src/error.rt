//! Why a row can't be asked.
use crate::page::Page;
use std::alloc::{AllocError, AllocFailed};
use tokei_folders::Fault;
use tokei_stats::CountError;

/// Why a row can't be asked. All but `Memory` is told of the row, which then doesn't hold. It owns
/// nothing, so that each exit of a function that asks has nothing to let go for it.
#[derive(Clone, Copy)]
pub enum RowError {
    /// An allocation failed: the program ends.
    Memory,
    /// The row hasn't a member that it needs.
    Missing(&'static str),
    /// A member is of another kind than it has to be.
    Kind(&'static str, &'static str),
    /// A table in a member has a member that isn't known.
    Unknown(&'static str),
    /// Another cause, in words.
    Words(&'static str),
    /// Another cause, which the answers tell already.
    Told,
}

impl RowError {
    /// Adds a line that tells it. A page is no text where memory ran out.
    pub fn tell(self, told: &mut Page) {
        match self {
            RowError::Memory => told.cut(),
            RowError::Missing(member) => told.put_all(&["  the member ", member, " is missing\n"]),
            RowError::Kind(member, kind) => {
                told.put_all(&["  the member ", member, " isn't ", kind, "\n"]);
            }
            RowError::Unknown(member) => told.put_all(&[
                "  a table in the member ",
                member,
                " has a member that isn't known\n",
            ]),
            RowError::Words(words) => told.put_all(&["  ", words, "\n"]),
            RowError::Told => {}
        }
    }
}

impl From<AllocError> for RowError {
    fn from(_refused: AllocError) -> RowError {
        RowError::Memory
    }
}

impl<T: Drop> From<AllocFailed<T>> for RowError {
    fn from(_refused: AllocFailed<T>) -> RowError {
        RowError::Memory
    }
}

impl From<Fault> for RowError {
    fn from(refused: Fault) -> RowError {
        match refused {
            Fault::Memory => RowError::Memory,
            Fault::Refused => RowError::Words("the places aren't those of a tree of files"),
        }
    }
}

impl From<CountError> for RowError {
    fn from(refused: CountError) -> RowError {
        match refused {
            CountError::Memory => RowError::Memory,
            CountError::Overflow => RowError::Words("a sum passes the greatest usize"),
        }
    }
}
