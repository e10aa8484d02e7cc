//! What a program writes to.
ghost use Rattle.std.specs.Prelude.{◌≡◌, ◌<◌, ℕ, List, Option, OnOk};
ghost use Rattle.std.specs.Io.KnownBytes.{Appends};
ghost use Rattle.tokei_io.specs.Faults.{faults_after};

use std::alloc::{AllocError, Global};
use std::io;

/// Takes bytes, and counts its faults.
pub trait Sink {
    /// The bytes that the sink holds, where it tells them.
    ghost contents: { Self → Option (List ℕ) };

    /// How many calls were faults; the number stays at the greatest `u64`.
    ghost faults: { Self → ℕ };

    /// Appends all the bytes. After a fault nothing is said of what was appended.
    fn put(&mut self, bytes: &[u8]) -> io::Result<()>
        ensures bytes { OnOk result (Appends (contents self.old) (contents self.new) bytes.now) }
        ensures counts { faults self.old < u64.MAX
            → faults self.new ≡ faults_after result (faults self.old) };

    /// Why the last fault came, in the system's words; empty where the sink has no words for it. It
    /// is for messages alone: nothing is promised of it.
    fn cause(&self, alloc: Global) -> Result<String, AllocError> {
        Ok(String::new(alloc))
    }
}

impl<S: Sink> Sink for &mut S {
    ghost contents = { λ s. S.contents s.now };

    ghost faults = { λ s. S.faults s.now };

    fn put(&mut self, bytes: &[u8]) -> io::Result<()> {
        Sink::put(&mut **self, bytes)
    }

    fn cause(&self, alloc: Global) -> Result<String, AllocError> {
        Sink::cause(&**self, alloc)
    }
}
