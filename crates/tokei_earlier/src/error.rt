//! Why earlier results were refused.
use std::alloc::{AllocError, AllocFailed};
use thiserror::Error;

/// Why earlier results were refused. Of the causes up to `NamedTwice` that apply the first one is
/// answered; `Memory` comes beside them.
#[derive(Clone, Copy, Debug, PartialEq, Eq, Error)]
pub enum InputError {
    /// The text is empty.
    #[error("earlier results are empty")]
    Empty,
    /// The text isn't JSON, or isn't UTF-8.
    #[error("earlier results aren't JSON")]
    NotJson,
    /// The JSON value isn't a document of languages, or holds a number that isn't a whole one of 64
    /// bits.
    #[error("earlier results have another layout")]
    Layout,
    /// A name is neither key nor name of a language.
    #[error("earlier results name an unknown language")]
    UnknownLanguage,
    /// A language stands in one object by its key and by its name.
    #[error("earlier results name a language twice")]
    NamedTwice,
    /// An allocation failed.
    #[error("out of memory")]
    Memory,
    /// The reader had a fault, or didn't end within 4,294,967,296 reads.
    #[error("earlier results can't be read")]
    Unreadable,
    /// The reader has more than 4,294,967,296 bytes.
    #[error("the input has more than 4,294,967,296 bytes")]
    TooLong,
    /// A sum passes the greatest `usize`.
    #[error("a sum passes the greatest usize")]
    Overflow,
}

impl From<AllocError> for InputError {
    ghost use Rattle.std.specs.Prelude.{◌≡◌};
    ghost use Rattle.tokei_earlier.specs.declared.error.InputError.TheVariants.{Memory};

    ghost from_gives = { λ _ e. e ≡ Memory };

    fn from(_refused: AllocError) -> InputError {
        InputError::Memory
    }
}

impl<T: Drop> From<AllocFailed<T>> for InputError {
    ghost use Rattle.std.specs.Prelude.{◌≡◌};
    ghost use Rattle.tokei_earlier.specs.declared.error.InputError.TheVariants.{Memory};

    ghost from_gives = { λ _ e. e ≡ Memory };

    fn from(_refused: AllocFailed<T>) -> InputError {
        InputError::Memory
    }
}
