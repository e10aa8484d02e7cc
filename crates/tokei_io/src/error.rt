//! Why an output ended.
ghost use Rattle.std.specs.Prelude.{◌≡◌};

use std::alloc::{AllocError, AllocFailed};
use thiserror::Error;
use tokei_stats::CountError;

/// Why an output ended before it was whole. What was written until then is left as it is.
#[derive(Clone, Copy, Debug, PartialEq, Eq, Error)]
pub enum OutputError {
    /// An allocation failed.
    #[error("out of memory")]
    Memory,
    /// A sum passes the greatest `usize`.
    #[error("a sum passes the greatest usize")]
    Overflow,
    /// The writer had a fault.
    #[error("the output can't be written")]
    Write,
}

impl From<AllocError> for OutputError {
    ghost use Rattle.tokei_io.specs.declared.error.OutputError.TheVariants.{Memory};

    ghost from_gives = { λ _ e. e ≡ Memory };

    fn from(_refused: AllocError) -> OutputError {
        OutputError::Memory
    }
}

impl<T: Drop> From<AllocFailed<T>> for OutputError {
    ghost use Rattle.tokei_io.specs.declared.error.OutputError.TheVariants.{Memory};

    ghost from_gives = { λ _ e. e ≡ Memory };

    fn from(_refused: AllocFailed<T>) -> OutputError {
        OutputError::Memory
    }
}

impl From<CountError> for OutputError {
    ghost use Rattle.tokei_io.specs.Errors.{error_of_count};

    ghost from_gives = { λ refused e. e ≡ error_of_count refused };

    fn from(refused: CountError) -> OutputError {
        match refused {
            CountError::Memory => OutputError::Memory,
            CountError::Overflow => OutputError::Overflow,
        }
    }
}
