//! Folders whose calls fail once a number of them has passed.
ghost use Rattle.std.specs.Prelude.{◌≡◌, ◌≤◌, ◌+◌, ◌-◌, ◌<◌, nat_lt, true, false};
ghost use Rattle.tokei_memory.specs.Failing.{calls_left, inside};

use std::alloc::{AllocError, Global};
use tokei_folders::{Above, Content, Fault, Folders, Kind, Listing};

/// Folders whose calls all fail out of memory once a number of calls has passed. They tell
/// the tree of the folders inside.
#[derive(Drop)]
pub struct FailingFolders<F> {
    inner: F,
    left: u64,
    refused: u64,
}

impl<F: Folders> FailingFolders<F> {
    /// Folders that pass `passes` calls and fail every later one.
    pub fn new(inner: F, passes: u64) -> FailingFolders<F>
        ensures tells { ⟦<FailingFolders<F> as Folders>⟧.tree result ≡ F.tree inner }
        ensures faults { ⟦<FailingFolders<F> as Folders>⟧.memory_faults result
            ≡ F.memory_faults inner }
        ensures inner { inside result ≡ inner }
        ensures left { calls_left result ≡ passes }
    {
        FailingFolders {
            inner,
            left: passes,
            refused: 0,
        }
    }

    /// Whether this call passes.
    fn passes(&mut self) -> bool
        ensures same { self.new.inner ≡ self.old.inner }
        ensures passed { result ≡ true → self.new.refused ≡ self.old.refused }
        ensures refused { result ≡ false → self.old.refused < u64.MAX
            → self.new.refused ≡ self.old.refused + 1 }
        ensures full { self.old.refused ≤ self.new.refused }
        ensures left { result ≡ nat_lt 0 (calls_left self.old) }
        ensures counts_down { calls_left self.new ≡ calls_left self.old - 1 }
    {
        if self.left == 0 {
            self.refused = self.refused.saturating_add(1);
            return false;
        }
        self.left -= 1;
        true
    }
}

impl<F: Folders> Folders for FailingFolders<F> {
    ghost use Rattle.tokei_folders.specs.Answers.{Tells, BytesTell, AboveTells, ListTells, LosesNone, NamesTell, StaysFull, kind_answer, read_answer, head_answer};
    ghost use Rattle.tokei_folders.specs.Tree.{node_at, names_of};
    ghost use Rattle.tokei_memory.specs.Failing.{Counts, PassesOrFails, all_faults};

    ghost tree = { λ s. F.tree s.inner };

    ghost memory_faults = { all_faults F.memory_faults };

    ghost sound = { λ s. F.sound s.inner };

    fn kind(&mut self, place: &str) -> Result<Kind, Fault>
        ensures passes { PassesOrFails F.memory_faults self.old self.new result }
        ensures told { Tells (F.tree (inside self.old))
            (λ t. kind_answer (node_at t (names_of place.now))) result }
        ensures same { F.tree (inside self.new) ≡ F.tree (inside self.old) }
        ensures counts { Counts (all_faults F.memory_faults) self.old self.new result }
        ensures full { StaysFull (all_faults F.memory_faults self.old)
            (all_faults F.memory_faults self.new) }
    {
        if !self.passes() {
            return Err(Fault::Memory);
        }
        self.inner.kind(place)
    }

    fn list(&mut self, place: &str) -> Result<Listing, Fault>
        ensures passes { PassesOrFails F.memory_faults self.old self.new result }
        ensures told { ListTells (F.tree (inside self.old)) (names_of place.now) result }
        ensures named { NamesTell (F.tree (inside self.old)) result }
        ensures lost { LosesNone (F.tree (inside self.old)) result }
        ensures same { F.tree (inside self.new) ≡ F.tree (inside self.old) }
        ensures counts { Counts (all_faults F.memory_faults) self.old self.new result }
        ensures full { StaysFull (all_faults F.memory_faults self.old)
            (all_faults F.memory_faults self.new) }
    {
        if !self.passes() {
            return Err(Fault::Memory);
        }
        self.inner.list(place)
    }

    fn read(&mut self, place: &str) -> Result<Vec<u8>, Fault>
        ensures passes { PassesOrFails F.memory_faults self.old self.new result }
        ensures told { BytesTell (F.tree (inside self.old))
            (λ t. read_answer (node_at t (names_of place.now))) result }
        ensures same { F.tree (inside self.new) ≡ F.tree (inside self.old) }
        ensures counts { Counts (all_faults F.memory_faults) self.old self.new result }
        ensures full { StaysFull (all_faults F.memory_faults self.old)
            (all_faults F.memory_faults self.new) }
    {
        if !self.passes() {
            return Err(Fault::Memory);
        }
        self.inner.read(place)
    }

    fn head(&mut self, place: &str) -> Result<Vec<u8>, Fault>
        ensures passes { PassesOrFails F.memory_faults self.old self.new result }
        ensures told { BytesTell (F.tree (inside self.old))
            (λ t. head_answer (node_at t (names_of place.now))) result }
        ensures same { F.tree (inside self.new) ≡ F.tree (inside self.old) }
        ensures counts { Counts (all_faults F.memory_faults) self.old self.new result }
        ensures full { StaysFull (all_faults F.memory_faults self.old)
            (all_faults F.memory_faults self.new) }
    {
        if !self.passes() {
            return Err(Fault::Memory);
        }
        self.inner.head(place)
    }

    fn above(&mut self, place: &str) -> Result<Vec<Above>, Fault>
        ensures passes { PassesOrFails F.memory_faults self.old self.new result }
        ensures told { AboveTells (F.tree (inside self.old)) (names_of place.now) result }
        ensures same { F.tree (inside self.new) ≡ F.tree (inside self.old) }
        ensures counts { Counts (all_faults F.memory_faults) self.old self.new result }
        ensures full { StaysFull (all_faults F.memory_faults self.old)
            (all_faults F.memory_faults self.new) }
    {
        if !self.passes() {
            return Err(Fault::Memory);
        }
        self.inner.above(place)
    }

    fn take_back(&mut self, content: Content)
        ensures passes { calls_left self.new ≡ calls_left self.old }
        ensures same { F.tree (inside self.new) ≡ F.tree (inside self.old) }
        ensures no_fault { all_faults F.memory_faults self.new
            ≡ all_faults F.memory_faults self.old }
    {
        self.inner.take_back(content);
    }

    fn cause(&self, alloc: Global) -> Result<String, AllocError> {
        self.inner.cause(alloc)
    }

    fn cause_at(&self, alloc: Global, place: &str) -> Result<String, AllocError> {
        self.inner.cause_at(alloc, place)
    }

    fn unheld(&self) -> &str {
        self.inner.unheld()
    }
}
