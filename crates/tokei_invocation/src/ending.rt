//! How a run of the program ends where it doesn't do what was asked.
ghost use Rattle.std.specs.Prelude.{◌≡◌, ◌++◌, IfOk, string_bytes};
ghost use Rattle.tokei_invocation.specs.Messages.{IsMessage, line_of, words_of};

use std::alloc::{AllocError, AllocFailed, Global};
use std::error::Error;
use std::fmt;

/// Why nothing is counted, or why the count isn't shown.
#[derive(Debug, Drop)]
pub enum Ending {
    /// The command line is refused. The text is for standard error.
    Refused(String),
    /// The file of the table can't be read: its place, why, and what to do.
    NoTable(String),
    /// The table is refused: its place, and why, with the language and the member that go wrong
    /// where those can be told.
    Table(String),
    /// The earlier results of this name are refused.
    Input(String),
    /// The earlier results of this name have more bytes than may be read.
    TooLong(String),
    /// Standard input had a fault.
    Unreadable,
    /// Standard input had a fault, in the system's words.
    UnreadableBy(String),
    /// Nothing stands at this root.
    Missing(String),
    /// An allocation failed.
    Memory,
    /// Memory didn't suffice for the content of this place.
    NoRoom(String),
    /// A sum passes the greatest `usize`.
    Overflow,
    /// A writer had a fault.
    Write,
    /// A writer had a fault, in the system's words.
    Unwritten(String),
}

impl Ending {
    ghost use Rattle.std.specs.Prelude.{◌≡◌, ◌≢◌};
    ghost use Rattle.tokei_invocation.specs.Statuses.{status_of};

    /// The exit status: 2 where the command line is refused, else 1.
    pub fn status(&self) -> u8
        ensures is { result ≡ status_of self.now }
        ensures failed { result ≢ 0 }
    {
        match self {
            Ending::Refused(_) => 2,
            _ => 1,
        }
    }

    /// The words of an ending: what stands before the text that it carries, that text, and what
    /// stands behind it.
    fn words(&self) -> (&str, &str, &str)
        ensures { result.0.now ++ (result.1.now ++ result.2.now) ≡ words_of self.now }
    {
        match self {
            Ending::Refused(text) => ("", text.as_str(), ""),
            Ending::NoTable(text) => ("the table of languages can't be read: ", text.as_str(), ""),
            Ending::Table(text) => ("the table of languages is refused: ", text.as_str(), ""),
            Ending::Input(name) => ("failed to parse input file: ", name.as_str(), ""),
            Ending::TooLong(name) => (
                "earlier results have more than 4,294,967,296 bytes: ",
                name.as_str(),
                "",
            ),
            Ending::Unreadable => ("earlier results can't be read", "", ""),
            Ending::UnreadableBy(text) => ("earlier results can't be read: ", text.as_str(), ""),
            Ending::Missing(root) => ("'", root.as_str(), "' not found."),
            Ending::Memory => ("out of memory", "", ""),
            Ending::NoRoom(place) => ("out of memory: ", place.as_str(), ""),
            Ending::Overflow => ("a sum passes the greatest usize", "", ""),
            Ending::Write => ("the output can't be written", "", ""),
            Ending::Unwritten(text) => ("the output can't be written: ", text.as_str(), ""),
        }
    }

    /// The line that says on standard error how the run ended: its words behind `Error: `, and a
    /// newline. It fails where memory runs out.
    #[tactic(auto, using(crate::proofs::Causes::line_is_message))]
    pub fn line(&self, alloc: Global) -> Result<String, AllocError>
        ensures message { IfOk result (λ line. IsMessage (string_bytes line)) }
        ensures told { IfOk result (λ line. string_bytes line ≡ line_of self.now) }
    {
        let cause = format!(in alloc; "{}", self)?;
        format!(in alloc; "Error: {cause}\n")
    }
}

impl fmt::Display for Ending {
    ghost use Rattle.std.specs.Prelude.{Some};

    ghost output = { λ ending. Some (words_of ending) };

    fn fmt<W: fmt::Write>(&self, f: &mut fmt::Formatter<W>) -> fmt::Result {
        let (before, text, behind) = self.words();
        write!(f, "{before}{text}{behind}")
    }
}

impl Error for Ending {}

impl From<AllocError> for Ending {
    ghost use Rattle.std.specs.Prelude.{◌≡◌};
    ghost use Rattle.tokei_invocation.specs.declared.ending.Ending.TheVariants.{Memory};

    ghost from_gives = { λ _ e. e ≡ Memory };

    fn from(_refused: AllocError) -> Ending {
        Ending::Memory
    }
}

impl<T: Drop> From<AllocFailed<T>> for Ending {
    ghost use Rattle.std.specs.Prelude.{◌≡◌};
    ghost use Rattle.tokei_invocation.specs.declared.ending.Ending.TheVariants.{Memory};

    ghost from_gives = { λ _ e. e ≡ Memory };

    fn from(_refused: AllocFailed<T>) -> Ending {
        Ending::Memory
    }
}
