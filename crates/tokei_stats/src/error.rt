//! Why statistics were refused.
ghost use Rattle.std.specs.Prelude.{◌≡◌};

use std::alloc::{AllocError, AllocFailed};
use thiserror::Error;

/// Why statistics were refused.
#[derive(Clone, Copy, Debug, PartialEq, Eq, Error)]
pub enum CountError {
    /// An allocation failed.
    #[error("out of memory")]
    Memory,
    /// A sum passes the greatest `usize`.
    #[error("a sum passes the greatest usize")]
    Overflow,
}

impl From<AllocError> for CountError {
    ghost use Rattle.tokei_stats.specs.declared.error.CountError.TheVariants.{Memory};

    ghost from_gives = { λ _ e. e ≡ Memory };

    fn from(_refused: AllocError) -> CountError {
        CountError::Memory
    }
}

impl<T: Drop> From<AllocFailed<T>> for CountError {
    ghost use Rattle.tokei_stats.specs.declared.error.CountError.TheVariants.{Memory};

    ghost from_gives = { λ _ e. e ≡ Memory };

    fn from(_refused: AllocFailed<T>) -> CountError {
        CountError::Memory
    }
}
