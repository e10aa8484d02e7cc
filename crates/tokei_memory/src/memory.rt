//! A tree of folders in memory.
ghost use Rattle.std.specs.Prelude.{◌≡◌, ◌≢◌, ◌<◌, [], ◌∷◌, true, Some, None, Err, OnOk, OnErr, IfOk, map, option_map, reverse, take};
ghost use Rattle.std.specs.List.{list_all};
ghost use Rattle.tokei_folders.specs.Answers.{AboveTells, StaysFull, above_view, bytes_of, counted, entries_of, kind_answer, list_answer, read_answer, head_answer};
ghost use Rattle.tokei_folders.specs.Tree.{is_sound, is_whole_name, names_of, node_at, folders_above};
ghost use Rattle.tokei_folders.specs.declared.fs.Fault.TheVariants.{Refused as RefusedFault, Memory as MemoryFault};
ghost use Rattle.tokei_memory.specs.Additions.{new_folder, with_folder, with_file};
ghost use Rattle.tokei_memory.specs.Refusals.{with_refusal, with_refusals};

use crate::call::Call;
use crate::told::{ToldTree, kind_of};
use std::alloc::{AllocError, Global};
use tokei_folders::names::names;
use tokei_folders::places::joined;
use tokei_folders::{Above, Entry, Fault, Folders, Items, Kind, Listing, Node, Text};

/// Folders in memory, which tell their tree. In a place names are joined by `/`, and `.` is the
/// top. They are made for tests: each call looks through all places.
#[derive(Drop)]
pub struct MemoryFolders {
    alloc: Global,
    tree: ToldTree,
    /// How many calls answered that they were out of memory.
    faults: u64,
    ghost sound: { is_sound tree ≡ true },
}

/// The first 128 bytes, or all where there are fewer.
fn first_bytes(bytes: &[u8]) -> &[u8]
    ensures { result.now ≡ take 128 bytes.entry.now }
{
    if bytes.len() < 128 {
        bytes
    } else {
        &bytes[..128]
    }
}

impl MemoryFolders {
    ghost use Rattle.tokei_memory.specs.Memory.{tree_of, faults_of};

    /// Folders that hold nothing.
    pub fn new(alloc: Global) -> MemoryFolders
        ensures tree { tree_of result ≡ new_folder [] ∷ [] }
        ensures faults { faults_of result ≡ 0 }
    {
        MemoryFolders {
            alloc,
            tree: ToldTree::new(alloc),
            faults: 0,
        }
    }

    /// Adds a folder, and those above it that are missing. It is refused where a file stands there
    /// or above. Where it fails nothing changes.
    pub fn add_folder(&mut self, place: &str) -> Result<(), Fault>
        ensures added { OnOk result (with_folder (tree_of self.old) (names_of place.now)
            ≡ Some (tree_of self.new)) }
        ensures refused { result ≡ Err RefusedFault
            → with_folder (tree_of self.old) (names_of place.now) ≡ None }
        ensures stays { OnErr result (tree_of self.new ≡ tree_of self.old) }
        ensures uncounted { faults_of self.new ≡ faults_of self.old }
    {
        let names = names(self.alloc, place)?;
        if !self.tree.takes_folder(names.as_slice()) {
            return Err(Fault::Refused);
        }
        let node = Node::Folder {
            refuses_list: false,
        };
        self.tree.add(self.alloc, names, node)?;
        Ok(())
    }

    /// Adds a file, and the folders above it that are missing. It is refused where something
    /// stands there, or a file above. Where it fails nothing changes.
    pub fn add_file(&mut self, place: &str, content: &[u8]) -> Result<(), Fault>
        ensures added { OnOk result (with_file (tree_of self.old) (names_of place.now) content.now
            ≡ Some (tree_of self.new)) }
        ensures refused { result ≡ Err RefusedFault
            → with_file (tree_of self.old) (names_of place.now) content.now ≡ None }
        ensures stays { OnErr result (tree_of self.new ≡ tree_of self.old) }
        ensures uncounted { faults_of self.new ≡ faults_of self.old }
    {
        let names = names(self.alloc, place)?;
        if !self.tree.takes_file(names.as_slice()) {
            return Err(Fault::Refused);
        }
        let node = Node::File {
            refuses_read: false,
            refuses_head: false,
            content: Items::from_vec(Vec::from_slice(self.alloc, content)?),
        };
        self.tree.add(self.alloc, names, node)?;
        Ok(())
    }

    /// Makes a place refuse a call from now on. It is refused where nothing stands there.
    pub fn refuse_call(&mut self, place: &str, call: Call) -> Result<(), Fault>
        ensures marked { OnOk result (with_refusal (tree_of self.old) (names_of place.now) call
            ≡ Some (tree_of self.new)) }
        ensures refused { result ≡ Err RefusedFault
            → with_refusal (tree_of self.old) (names_of place.now) call ≡ None }
        ensures stays { OnErr result (tree_of self.new ≡ tree_of self.old) }
        ensures uncounted { faults_of self.new ≡ faults_of self.old }
    {
        let names = names(self.alloc, place)?;
        if !self.tree.has(names.as_slice()) {
            return Err(Fault::Refused);
        }
        self.tree.refuse(names.as_slice(), call);
        Ok(())
    }

    /// Makes a place refuse to be listed and read, its head too. It is refused where nothing
    /// stands there.
    pub fn refuse(&mut self, place: &str) -> Result<(), Fault>
        ensures marked { OnOk result (with_refusals (tree_of self.old) (names_of place.now)
            ≡ Some (tree_of self.new)) }
        ensures refused { result ≡ Err RefusedFault
            → with_refusals (tree_of self.old) (names_of place.now) ≡ None }
        ensures stays { OnErr result (tree_of self.new ≡ tree_of self.old) }
        ensures uncounted { faults_of self.new ≡ faults_of self.old }
    {
        let names = names(self.alloc, place)?;
        if !self.tree.has(names.as_slice()) {
            return Err(Fault::Refused);
        }
        self.tree.refuse(names.as_slice(), Call::Head);
        self.tree.refuse(names.as_slice(), Call::Read);
        self.tree.refuse(names.as_slice(), Call::List);
        Ok(())
    }

    /// Counts an answer that is out of memory. Returns the answer.
    fn count_fault<T>(&mut self, answer: Result<T, Fault>) -> Result<T, Fault>
        ensures same { result ≡ answer }
        ensures tree { tree_of self.new ≡ tree_of self.old }
        ensures counts { faults_of self.old < u64.MAX
            → faults_of self.new ≡ counted answer (faults_of self.old) }
        ensures full { StaysFull (faults_of self.old) (faults_of self.new) }
    {
        if let Err(Fault::Memory) = &answer {
            self.faults = self.faults.saturating_add(1);
        }
        answer
    }

    /// What stands at a place.
    fn node(&self, place: &str) -> Result<Option<&Node>, AllocError>
        ensures { IfOk result (λ found. option_map (λ n. n.now) found
            ≡ node_at (tree_of self.entry.now) (names_of place.now)) }
    {
        let names = names(self.alloc, place)?;
        Ok(self.tree.node(names.as_slice()))
    }

    fn kind_answer(&self, place: &str) -> Result<Kind, Fault>
        ensures { result ≢ Err MemoryFault
            → result ≡ kind_answer (node_at (tree_of self.now) (names_of place.now)) }
    {
        match self.node(place)? {
            None => Err(Fault::Refused),
            Some(node) => Ok(kind_of(node)),
        }
    }

    #[tactic(auto, unfolding(tokei_folders::specs::Answers::list_answer))]
    fn list_answer(&self, place: &str) -> Result<Listing, Fault>
        ensures told { result ≢ Err MemoryFault
            → entries_of result ≡ list_answer (tree_of self.now) (names_of place.now) }
        ensures named { IfOk result (λ l. l.unnamed ≡ 0) }
        ensures lost { IfOk result (λ l. l.lost.items ≡ []) }
    {
        let names = names(self.alloc, place)?;
        if !self.tree.can_list(names.as_slice()) {
            return Err(Fault::Refused);
        }
        Ok(Listing {
            entries: self.tree.entries(self.alloc, names.as_slice())?.into_vec(),
            lost: Vec::new(self.alloc),
            unnamed: 0,
        })
    }

    fn read_answer(&self, place: &str) -> Result<Vec<u8>, Fault>
        ensures { result ≢ Err MemoryFault
            → bytes_of result ≡ read_answer (node_at (tree_of self.now) (names_of place.now)) }
    {
        match self.node(place)? {
            Some(
                Node::File {
                    refuses_read: false,
                    content,
                    ..
                },
            ) => { Ok(Vec::from_slice(self.alloc, content.as_slice())?) }
            _ => Err(Fault::Refused),
        }
    }

    fn head_answer(&self, place: &str) -> Result<Vec<u8>, Fault>
        ensures { result ≢ Err MemoryFault
            → bytes_of result ≡ head_answer (node_at (tree_of self.now) (names_of place.now)) }
    {
        match self.node(place)? {
            Some(
                Node::File {
                    refuses_head: false,
                    content,
                    ..
                },
            ) => { Ok(Vec::from_slice(self.alloc, first_bytes(content.as_slice()))?) }
            _ => Err(Fault::Refused),
        }
    }

    fn above_answer(&self, place: &str) -> Result<Vec<Above>, Fault>
        ensures { AboveTells (Some (tree_of self.now)) (names_of place.now) result }
    {
        let names = names(self.alloc, place)?;
        Ok(folders_over(self.alloc, names.as_slice())?.into_vec())
    }
}

/// The folders above a place below the top, nearest first.
fn folders_over(alloc: Global, names: &[Text]) -> Result<Items<Above>, AllocError>
    requires { list_all is_whole_name names.now ≡ true }
    ensures { IfOk result (λ found. map above_view (reverse found) ≡ folders_above [] names.now) }
{
    let mut found = Items::new(alloc);
    let mut place = Text::from_str(alloc, ".")?;
    for name in names {
        let next = joined(alloc, place.as_str(), name.as_str())?;
        let name = Text::from_str(alloc, name.as_str())?;
        found.push(Above { place, name })?;
        place = next;
    }
    found.reverse();
    Ok(found)
}

impl Folders for MemoryFolders {
    ghost use Rattle.std.specs.Prelude.{Some};
    ghost use Rattle.tokei_memory.specs.Memory.{tree_of, faults_of};

    ghost tree = { λ m. Some (tree_of m) };

    ghost memory_faults = { λ m. faults_of m };

    ghost sound = { λ m. m.sound };

    fn kind(&mut self, place: &str) -> Result<Kind, Fault> {
        let answer = self.kind_answer(place);
        self.count_fault(answer)
    }

    fn list(&mut self, place: &str) -> Result<Listing, Fault> {
        let answer = self.list_answer(place);
        self.count_fault(answer)
    }

    fn read(&mut self, place: &str) -> Result<Vec<u8>, Fault> {
        let answer = self.read_answer(place);
        self.count_fault(answer)
    }

    fn head(&mut self, place: &str) -> Result<Vec<u8>, Fault> {
        let answer = self.head_answer(place);
        self.count_fault(answer)
    }

    fn above(&mut self, place: &str) -> Result<Vec<Above>, Fault> {
        let answer = self.above_answer(place);
        self.count_fault(answer)
    }
}
