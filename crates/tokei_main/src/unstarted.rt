//! Why the program isn't run.
use std::alloc::AllocError;
use std::io;

/// Why the program isn't run.
#[derive(Drop)]
pub enum Unstarted {
    /// The command line is refused. The text is for standard error.
    Refused(String),
    /// Memory ran out, or the system failed.
    Failed(io::Error),
}

impl From<AllocError> for Unstarted {
    fn from(refused: AllocError) -> Unstarted {
        Unstarted::Failed(io::Error::from(refused))
    }
}

impl From<io::Error> for Unstarted {
    fn from(error: io::Error) -> Unstarted {
        Unstarted::Failed(error)
    }
}
