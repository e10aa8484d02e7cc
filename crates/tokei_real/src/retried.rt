//! Calls that are made again where a signal interrupted them.
ghost use Rattle.std.specs.Prelude.{◌≡◌, ◌≢◌, IfErr};
ghost use Rattle.std.specs.Io.{ReadsAtMost};
ghost use Rattle.std.specs.Io.KnownBytes.{ReadConsumes};
ghost use Rattle.std.specs.IoError.{error_kind};

use crate::limited::MAX_READS;
use std::io;
use std::io::{Error, ErrorKind, Read};

/// Returns what a call answers, which is made again as often as a signal interrupts it, up to
/// `MAX_READS` times; then it has failed.
macro_rules! retried {
    ($call:expr) => {{
        for _ in 0..$crate::limited::MAX_READS {
            match $call {
                Err(e) if e.kind() == std::io::ErrorKind::Interrupted => {}
                answer => return answer,
            }
        }
        Err(std::io::Error::from(std::io::ErrorKind::Other))
    }};
}

pub(crate) use retried;

/// A reader that gives what another one gives; a read that a signal interrupts is made again, up to
/// `MAX_READS` times.
#[derive(Drop)]
pub struct RetriedReader<R> {
    pub inner: R,
}

impl<R> RetriedReader<R> {
    /// The reader, of which all is left that the other one has left.
    pub fn new(inner: R) -> RetriedReader<R>
        ensures { result.inner ≡ inner }
    {
        RetriedReader { inner }
    }
}

impl<R: Read> Read for RetriedReader<R> {
    ghost remaining = { λ s. R.remaining s.inner };

    #[tactic(auto, using(crate::proofs::Retrying::kept_reads, crate::proofs::Retrying::kept_on))]
    fn read(&mut self, buffer: &mut [u8]) -> io::Result<usize>
        ensures bound { ReadsAtMost result buffer.new }
        ensures bytes { ReadConsumes (R.remaining self.old.inner) (R.remaining self.new.inner)
            result buffer.new }
        ensures retried { IfErr result (λ e. error_kind e ≢ ErrorKind.Interrupted) }
    {
        for _ in 0..MAX_READS {
            match self.inner.read(buffer) {
                Ok(n) => return Ok(n),
                Err(e) if e.kind() == ErrorKind::Interrupted => {}
                Err(e) => return Err(e),
            }
        }
        Err(Error::from(ErrorKind::Other))
    }
}
