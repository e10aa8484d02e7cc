//! Readers and writers of the standard library as sources and sinks.
ghost use Rattle.std.specs.Prelude.{◌≡◌, ◌<◌};

use crate::sink::Sink;
use crate::source::Source;
use std::alloc::{AllocError, Global};
use std::io;
use std::io::{Read, Write};

/// A reader or a writer with a count of its faults, which stays at the greatest `u64`.
#[derive(Drop)]
pub struct Counted<T> {
    /// The reader or the writer.
    pub inner: T,
    /// How many calls were faults.
    pub faults: u64,
    /// The last fault.
    last: Option<io::Error>,
}

impl<T> Counted<T> {
    /// The reader or the writer, with no fault yet.
    pub fn new(inner: T) -> Counted<T>
        ensures inner { result.inner ≡ inner }
        ensures none { result.faults ≡ 0 }
    {
        Counted {
            inner,
            faults: 0,
            last: None,
        }
    }
}

/// The words of a fault, where there was one.
fn words(alloc: Global, last: &Option<io::Error>) -> Result<String, AllocError> {
    match last {
        Some(error) => format!(in alloc; "{error}"),
        None => Ok(String::new(alloc)),
    }
}

impl<W: Write> Sink for Counted<W> {
    ghost contents = { λ c. W.contents c.inner };

    ghost faults = { λ c. c.faults };

    fn put(&mut self, bytes: &[u8]) -> io::Result<()> {
        match self.inner.write_all(bytes) {
            Ok(()) => Ok(()),
            Err(error) => {
                self.faults = self.faults.saturating_add(1);
                self.last = Some(error);
                Err(error)
            }
        }
    }

    fn cause(&self, alloc: Global) -> Result<String, AllocError> {
        words(alloc, &self.last)
    }
}

impl<R: Read> Source for Counted<R> {
    ghost remaining = { λ c. R.remaining c.inner };

    ghost faults = { λ c. c.faults };

    fn pull(&mut self, buffer: &mut [u8]) -> io::Result<usize> {
        match self.inner.read(buffer) {
            Ok(length) => Ok(length),
            Err(error) => {
                self.faults = self.faults.saturating_add(1);
                self.last = Some(error);
                Err(error)
            }
        }
    }

    fn cause(&self, alloc: Global) -> Result<String, AllocError> {
        words(alloc, &self.last)
    }
}
