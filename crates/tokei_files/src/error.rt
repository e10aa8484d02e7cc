//! Why a file has no report.
use std::alloc::AllocError;
use thiserror::Error;
use tokei_folders::Fault;
use tokei_stats::CountError;

/// Why a file has no report.
#[derive(Clone, Copy, Debug, PartialEq, Eq, Error)]
pub enum ParseFault {
    /// The file is missing, is no file, or can't be read.
    #[error("the file can't be read")]
    Refused,
    /// An allocation failed, by the allocator or in a call on folders.
    #[error("out of memory")]
    Memory,
    /// A count of the file passes the greatest `usize`.
    #[error("a sum passes the greatest usize")]
    Overflow,
}

impl From<CountError> for ParseFault {
    ghost use Rattle.std.specs.Prelude.{◌≡◌};
    ghost use Rattle.tokei_files.specs.Faults.{fault_of_count};

    ghost from_gives = { λ e fault. fault ≡ fault_of_count e };

    fn from(error: CountError) -> ParseFault {
        match error {
            CountError::Memory => ParseFault::Memory,
            CountError::Overflow => ParseFault::Overflow,
        }
    }
}

impl From<Fault> for ParseFault {
    ghost use Rattle.std.specs.Prelude.{◌≡◌};
    ghost use Rattle.tokei_files.specs.Faults.{fault_of_folders};

    ghost from_gives = { λ e fault. fault ≡ fault_of_folders e };

    fn from(fault: Fault) -> ParseFault {
        match fault {
            Fault::Refused => ParseFault::Refused,
            Fault::Memory => ParseFault::Memory,
        }
    }
}

impl From<AllocError> for ParseFault {
    ghost use Rattle.std.specs.Prelude.{◌≡◌};
    ghost use Rattle.tokei_files.specs.declared.error.ParseFault.TheVariants.{Memory};

    ghost from_gives = { λ _ fault. fault ≡ Memory };

    fn from(_refused: AllocError) -> ParseFault {
        ParseFault::Memory
    }
}
