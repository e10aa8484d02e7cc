//! A source or a sink with a single fault.
ghost use Rattle.std.specs.Prelude.{◌≡◌, ◌≢◌, ◌+◌, ◌<◌, ◌↔◌, Some, IsTrue, IsErr, OnOk, is_none};
ghost use Rattle.std.specs.Io.{ReadsAtMost};
ghost use Rattle.std.specs.Io.KnownBytes.{ReadConsumes, Appends};
ghost use Rattle.tokei_io.specs.Faults.{faults_after};
ghost use Rattle.tokei_io.specs.FailOnce.{own_faults, after_call};

use crate::sink::Sink;
use crate::source::Source;
use std::io;
use std::io::{Error, ErrorKind};

/// A source or a sink of which one call alone fails, and is counted; every other call is the inner
/// one's.
#[derive(Drop)]
pub struct FailOnce<T> {
    /// What the other calls go to.
    pub inner: T,
    /// How many calls come before the one that fails; `None` once it has failed.
    pub left: Option<u64>,
}

impl<T> FailOnce<T> {
    /// The call with this number, counted from 0, fails, and no other.
    pub fn new(inner: T, call: u64) -> FailOnce<T>
        ensures inner { result.inner ≡ inner }
        ensures call { result.left ≡ Some call }
    {
        FailOnce {
            inner,
            left: Some(call),
        }
    }

    /// Whether the call has failed.
    pub fn failed(&self) -> bool
        ensures { result ≡ is_none self.now.left }
    {
        self.left.is_none()
    }

    /// Whether this call is the one that fails.
    fn fails(&mut self) -> bool
        ensures inner { self.new.inner ≡ self.old.inner }
        ensures left { self.new.left ≡ after_call self.old.left }
        ensures answer { IsTrue result ↔ (self.old.left ≡ Some 0) }
    {
        match self.left {
            None => false,
            Some(0) => {
                self.left = None;
                true
            }
            Some(n) => {
                self.left = Some(n - 1);
                false
            }
        }
    }
}

impl<S: Source> Source for FailOnce<S> {
    ghost remaining = { λ s. S.remaining s.inner };

    ghost faults = { λ s. S.faults s.inner + own_faults s.left };

    /// The inner source's call, save one, which takes no byte and is a fault.
    fn pull(&mut self, buffer: &mut [u8]) -> io::Result<usize>
        ensures bound { ReadsAtMost result buffer.new }
        ensures bytes { ReadConsumes (S.remaining self.old.inner) (S.remaining self.new.inner)
            result buffer.new }
        ensures left { self.new.left ≡ after_call self.old.left }
        ensures fails { self.old.left ≡ Some 0 → IsErr result }
        ensures passes { self.old.left ≡ Some 0 → self.new.inner ≡ self.old.inner }
        ensures inner { self.old.left ≢ Some 0 → S.faults self.old.inner < u64.MAX
            → S.faults self.new.inner ≡ faults_after result (S.faults self.old.inner) }
        ensures counts { S.faults self.old.inner + own_faults self.old.left < u64.MAX
            → S.faults self.new.inner + own_faults self.new.left
            ≡ faults_after result (S.faults self.old.inner + own_faults self.old.left) }
    {
        if self.fails() {
            return Err(Error::from(ErrorKind::Other));
        }
        self.inner.pull(buffer)
    }
}

impl<S: Sink> Sink for FailOnce<S> {
    ghost contents = { λ s. S.contents s.inner };

    ghost faults = { λ s. S.faults s.inner + own_faults s.left };

    /// The inner sink's call, save one, which appends nothing and is a fault.
    fn put(&mut self, bytes: &[u8]) -> io::Result<()>
        ensures bytes { OnOk result
            (Appends (S.contents self.old.inner) (S.contents self.new.inner) bytes.now) }
        ensures left { self.new.left ≡ after_call self.old.left }
        ensures fails { self.old.left ≡ Some 0 → IsErr result }
        ensures passes { self.old.left ≡ Some 0 → self.new.inner ≡ self.old.inner }
        ensures inner { self.old.left ≢ Some 0 → S.faults self.old.inner < u64.MAX
            → S.faults self.new.inner ≡ faults_after result (S.faults self.old.inner) }
        ensures counts { S.faults self.old.inner + own_faults self.old.left < u64.MAX
            → S.faults self.new.inner + own_faults self.new.left
            ≡ faults_after result (S.faults self.old.inner + own_faults self.old.left) }
    {
        if self.fails() {
            return Err(Error::from(ErrorKind::Other));
        }
        self.inner.put(bytes)
    }
}
