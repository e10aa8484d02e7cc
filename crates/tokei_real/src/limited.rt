//! A reader that fails after a number of reads.
ghost use Rattle.std.specs.Prelude.{◌≡◌};

use std::io;
use std::io::{Error, ErrorKind, Read};

/// The most reads of one file.
pub(crate) const MAX_READS: u64 = 4_294_967_296;

/// A reader that gives what another one gives, in `MAX_READS` reads at most; a further read is a
/// fault.
#[derive(Drop)]
pub(crate) struct Limited<R> {
    pub inner: R,
    left: u64,
}

impl<R> Limited<R> {
    /// The reader, with all its reads left.
    pub(crate) fn new(inner: R) -> Limited<R>
        ensures { result.inner ≡ inner }
    {
        Limited {
            inner,
            left: MAX_READS,
        }
    }
}

impl<R: Read> Read for Limited<R> {
    ghost remaining = { λ s. R.remaining s.inner };

    fn read(&mut self, buffer: &mut [u8]) -> io::Result<usize> {
        if self.left == 0 {
            return Err(Error::from(ErrorKind::Other));
        }
        self.left -= 1;
        self.inner.read(buffer)
    }
}
