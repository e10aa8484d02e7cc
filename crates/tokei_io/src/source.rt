//! What a program reads from.
ghost use Rattle.std.specs.Prelude.{◌≡◌, ◌<◌, ℕ, List, Option};
ghost use Rattle.std.specs.Io.{ReadsAtMost};
ghost use Rattle.std.specs.Io.KnownBytes.{ReadConsumes};
ghost use Rattle.tokei_io.specs.Faults.{faults_after};

use std::alloc::{AllocError, Global};
use std::io;

/// Gives bytes, in pieces, and counts its faults.
pub trait Source {
    /// The bytes that are left, where the source tells them.
    ghost remaining: { Self → Option (List ℕ) };

    /// How many calls were faults; the number stays at the greatest `u64`.
    ghost faults: { Self → ℕ };

    /// Takes bytes off the source into the front of the buffer, and answers how many; 0 means that
    /// the source has ended, or that the buffer has no room. A fault takes none.
    fn pull(&mut self, buffer: &mut [u8]) -> io::Result<usize>
        ensures bound { ReadsAtMost result buffer.new }
        ensures bytes { ReadConsumes (remaining self.old) (remaining self.new) result buffer.new }
        ensures counts { faults self.old < u64.MAX
            → faults self.new ≡ faults_after result (faults self.old) };

    /// Why the last fault came, in the system's words; empty where the source has no words for it.
    /// It is for messages alone: nothing is promised of it.
    fn cause(&self, alloc: Global) -> Result<String, AllocError> {
        Ok(String::new(alloc))
    }
}

impl<S: Source> Source for &mut S {
    ghost remaining = { λ s. S.remaining s.now };

    ghost faults = { λ s. S.faults s.now };

    fn pull(&mut self, buffer: &mut [u8]) -> io::Result<usize> {
        Source::pull(&mut **self, buffer)
    }

    fn cause(&self, alloc: Global) -> Result<String, AllocError> {
        Source::cause(&**self, alloc)
    }
}
