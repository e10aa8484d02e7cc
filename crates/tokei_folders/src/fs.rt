//! The calls on folders, and what they answer.
ghost use Rattle.std.specs.Prelude.{◌≡◌, ◌<◌, ℕ, [], IfOk, Ok, Option, string_bytes};
ghost use Rattle.tokei_folders.specs.Tree.{Tree, IsSound, node_at, names_of};
ghost use Rattle.tokei_folders.specs.Answers.{Told, Tells, BytesTell, AboveTells, ListTells, LosesNone, NamesTell, StaysFull, counted, kind_answer, node_kind, read_answer, head_answer};

use crate::content::Content;
use crate::texts::Text;
use std::alloc::{AllocError, AllocFailed, Global};

/// What stands at a place.
#[derive(Clone, Copy, Debug, PartialEq, Eq)]
pub enum Kind {
    File,
    Folder,
    /// Neither, as a link below a root, or a device.
    Other,
}

/// Why a call on folders gives no answer.
#[derive(Clone, Copy, Debug, PartialEq, Eq)]
pub enum Fault {
    /// The place is missing, of the wrong kind, or can't be read.
    Refused,
    /// Memory was refused.
    Memory,
}

impl From<AllocError> for Fault {
    ghost use Rattle.std.specs.Prelude.{◌≡◌};
    ghost use Rattle.tokei_folders.specs.declared.fs.Fault.TheVariants.{Memory};

    ghost from_gives = { λ _ e. e ≡ Memory };

    fn from(_refused: AllocError) -> Fault {
        Fault::Memory
    }
}

impl<T: Drop> From<AllocFailed<T>> for Fault {
    ghost use Rattle.std.specs.Prelude.{◌≡◌};
    ghost use Rattle.tokei_folders.specs.declared.fs.Fault.TheVariants.{Memory};

    ghost from_gives = { λ _ e. e ≡ Memory };

    fn from(_refused: AllocFailed<T>) -> Fault {
        Fault::Memory
    }
}

/// An entry of a folder.
#[derive(Drop)]
pub struct Entry {
    pub name: Text,
    pub kind: Kind,
}

/// What a folder holds.
#[derive(Drop)]
pub struct Listing {
    /// The entries in byte order of their names.
    pub entries: Vec<Entry>,
    /// The names of the entries of which it can't be told what stands there, in byte order.
    pub lost: Vec<Text>,
    /// How many names aren't UTF-8 and are passed over.
    pub unnamed: usize,
}

/// A folder above a place.
#[derive(Drop)]
pub struct Above {
    pub place: Text,
    /// The name that leads down from it.
    pub name: Text,
}

/// Folders, by the places of their entries. A value may tell its tree, which no call changes.
pub trait Folders {
    /// The tree that the value tells, where it tells one.
    ghost tree: { Self → Option Tree };

    /// How many times the value answered that it was out of memory: a count that stays at the
    /// greatest `u64`.
    ghost memory_faults: { Self → ℕ };

    /// What stands at a place, links followed.
    fn kind(&mut self, place: &str) -> Result<Kind, Fault>
        ensures told { Tells (tree self.old)
            (λ t. kind_answer (node_at t (names_of place.now))) result }
        ensures same { tree self.new ≡ tree self.old }
        ensures counts { memory_faults self.old < u64.MAX
            → memory_faults self.new ≡ counted result (memory_faults self.old) }
        ensures full { StaysFull (memory_faults self.old) (memory_faults self.new) };

    /// What stands at a place, links followed, where anything does. It is refused where that can't
    /// be told. Folders whose `kind` is refused only where nothing stands take this body.
    fn kind_if_any(&mut self, place: &str) -> Result<Option<Kind>, Fault>
        ensures told { Tells (tree self.old)
            (λ t. Ok (node_kind (node_at t (names_of place.now)))) result }
        ensures same { tree self.new ≡ tree self.old }
        ensures counts { memory_faults self.old < u64.MAX
            → memory_faults self.new ≡ counted result (memory_faults self.old) }
        ensures full { StaysFull (memory_faults self.old) (memory_faults self.new) }
    {
        match self.kind(place) {
            Ok(kind) => Ok(Some(kind)),
            Err(Fault::Refused) => Ok(None),
            Err(Fault::Memory) => Err(Fault::Memory),
        }
    }

    /// What a folder holds, no links followed.
    fn list(&mut self, place: &str) -> Result<Listing, Fault>
        ensures told { ListTells (tree self.old) (names_of place.now) result }
        ensures named { NamesTell (tree self.old) result }
        ensures lost { LosesNone (tree self.old) result }
        ensures same { tree self.new ≡ tree self.old }
        ensures counts { memory_faults self.old < u64.MAX
            → memory_faults self.new ≡ counted result (memory_faults self.old) }
        ensures full { StaysFull (memory_faults self.old) (memory_faults self.new) };

    /// The content of a file.
    fn read(&mut self, place: &str) -> Result<Vec<u8>, Fault>
        ensures told { BytesTell (tree self.old)
            (λ t. read_answer (node_at t (names_of place.now))) result }
        ensures same { tree self.new ≡ tree self.old }
        ensures counts { memory_faults self.old < u64.MAX
            → memory_faults self.new ≡ counted result (memory_faults self.old) }
        ensures full { StaysFull (memory_faults self.old) (memory_faults self.new) };

    /// The content of a file that a listing or `kind` has just told. Folders that ask the system
    /// trust that answer and don't ask anew what stands there, so a pipe that is put in the file's
    /// place meanwhile is waited for.
    fn read_listed(&mut self, place: &str) -> Result<Content, Fault>
        ensures told { Tells (tree self.old)
            (λ t. read_answer (node_at t (names_of place.now))) result }
        ensures same { tree self.new ≡ tree self.old }
        ensures counts { memory_faults self.old < u64.MAX
            → memory_faults self.new ≡ counted result (memory_faults self.old) }
        ensures full { StaysFull (memory_faults self.old) (memory_faults self.new) }
    {
        Ok(Content::from_vec(self.read(place)?))
    }

    /// Takes back a content that nobody needs any more, so that the next listed file can be read
    /// into its memory.
    fn take_back(&mut self, _content: Content)
        ensures same { tree self.new ≡ tree self.old }
        ensures no_fault { memory_faults self.new ≡ memory_faults self.old }
    {}

    /// The content of a file that a user names as a single input, as a table or earlier results.
    /// Folders that ask the system also read what a pipe or a device there gives, to its end, and
    /// wait for it as any reader would.
    fn read_named(&mut self, named: &str) -> Result<Vec<u8>, Fault>
        ensures told { BytesTell (tree self.old)
            (λ t. read_answer (node_at t (names_of named.now))) result }
        ensures same { tree self.new ≡ tree self.old }
        ensures counts { memory_faults self.old < u64.MAX
            → memory_faults self.new ≡ counted result (memory_faults self.old) }
        ensures full { StaysFull (memory_faults self.old) (memory_faults self.new) }
    {
        self.read(named)
    }

    /// The first 128 bytes of a file, or all where there are fewer.
    fn head(&mut self, place: &str) -> Result<Vec<u8>, Fault>
        ensures told { BytesTell (tree self.old)
            (λ t. head_answer (node_at t (names_of place.now))) result }
        ensures same { tree self.new ≡ tree self.old }
        ensures counts { memory_faults self.old < u64.MAX
            → memory_faults self.new ≡ counted result (memory_faults self.old) }
        ensures full { StaysFull (memory_faults self.old) (memory_faults self.new) };

    /// The folders above a place, nearest first.
    fn above(&mut self, place: &str) -> Result<Vec<Above>, Fault>
        ensures told { AboveTells (tree self.old) (names_of place.now) result }
        ensures same { tree self.new ≡ tree self.old }
        ensures counts { memory_faults self.old < u64.MAX
            → memory_faults self.new ≡ counted result (memory_faults self.old) }
        ensures full { StaysFull (memory_faults self.old) (memory_faults self.new) };

    /// Why the last call without an answer had none, in the system's words; empty where the folders
    /// have no words for it. It is for messages alone: nothing is promised of it.
    fn cause(&self, alloc: Global) -> Result<String, AllocError> {
        Ok(String::new(alloc))
    }

    /// Why the last refused call on a place was refused, in the system's words; empty where the
    /// folders have no words for it, as those with a known tree. It is for messages alone: nothing
    /// is promised of the words.
    fn cause_at(&self, alloc: Global, _place: &str) -> Result<String, AllocError>
        ensures silent { Told (tree self.now) (λ t. IfOk result (λ text. string_bytes text ≡ [])) }
    {
        Ok(String::new(alloc))
    }

    /// The place whose content memory last didn't suffice for; empty where there is none, or where
    /// not even the place could be kept. It is for messages alone: nothing is promised of it.
    fn unheld(&self) -> &str {
        ""
    }

    /// A known tree has each place once, in order.
    ghost sound: { (s : Self) → IsSound (tree s) };
}
