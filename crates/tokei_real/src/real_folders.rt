//! The folders of the system, as the walk asks them.
ghost use Rattle.std.specs.Prelude.{◌≡◌, ◌<◌, None};
ghost use Rattle.tokei_folders.specs.Answers.{counted, StaysFull};

use crate::folders_above::folders_above;
use crate::listing::listing;
use crate::reading::{content, head, listed_content, named_content};
use crate::refusals::Refusals;
use crate::status::{kind, kind_if_any};
use std::alloc::{AllocError, Global};
use std::collections::BTreeSet;
use std::io;
use std::io::ErrorKind;
use std::mem::replace;
use std::rt::Files;
use tokei_folders::{Above, Content, Fault, Folders, Kind, Listing};

/// How many bytes memory has at most that is kept for the next listed file. What a greater file
/// took is given back to the system.
const MAX_KEPT: usize = 1_048_576;

/// The folders of the system, which tell no tree. Places are paths, read from the current folder
/// on.
#[derive(Drop)]
pub struct RealFolders<R> {
    rt: R,
    memory_faults: u64,
    /// Into which the next listed file is read.
    room: Vec<u8>,
    /// Why the last call without an answer had none.
    refusal: Option<io::Error>,
    /// Why calls on places were refused.
    refusals: Refusals,
    /// The place whose content memory last didn't suffice for.
    unheld: String,
    /// Places at which nothing was when `kind_if_any` was asked, as those of ignore files above a
    /// root: the next root doesn't ask the system for them again.
    nothing: BTreeSet<String>,
}

impl<R: Files + AllocGlobal + Clone + Drop> RealFolders<R> {
    /// The folders that the handle reaches.
    pub fn new(rt: R) -> RealFolders<R>
        ensures none { result.memory_faults ≡ 0 }
    {
        let room = Vec::new(rt.alloc());
        let refusals = Refusals::new(rt.alloc());
        let unheld = String::new(rt.alloc());
        let nothing = BTreeSet::new(rt.alloc());
        RealFolders {
            rt,
            memory_faults: 0,
            room,
            refusal: None,
            refusals,
            unheld,
            nothing,
        }
    }

    /// Keeps why a call on a place has no answer, where it has none, and counts it where memory
    /// didn't suffice. Returns the answer.
    fn keep_cause<T>(&mut self, place: &str, given: io::Result<T>) -> Result<T, Fault>
        ensures counts { self.old.memory_faults < u64.MAX
            → self.new.memory_faults ≡ counted result (self.old.memory_faults) }
        ensures full { StaysFull self.old.memory_faults self.new.memory_faults }
    {
        match given {
            Ok(answer) => Ok(answer),
            Err(e) => {
                self.refusal = Some(e);
                if e.kind() != ErrorKind::OutOfMemory {
                    let alloc = self.rt.alloc();
                    self.refusals.keep(alloc, place, e);
                    return Err(Fault::Refused);
                }
                self.memory_faults = self.memory_faults.saturating_add(1);
                Err(Fault::Memory)
            }
        }
    }

    /// Keeps that nothing is at a place, where memory suffices for that.
    fn keep_nothing(&mut self, place: &str)
        ensures { self.new.memory_faults ≡ self.old.memory_faults }
    {
        if let Ok(place) = String::from_str(self.rt.alloc(), place) {
            let _kept = self.nothing.insert(place);
        }
    }

    /// The same of a call that asks for a content. Keeps the place too, where memory didn't
    /// suffice.
    fn keep_content_cause<T>(&mut self, place: &str, given: io::Result<T>) -> Result<T, Fault>
        ensures counts { self.old.memory_faults < u64.MAX
            → self.new.memory_faults ≡ counted result (self.old.memory_faults) }
        ensures full { StaysFull self.old.memory_faults self.new.memory_faults }
    {
        let answer = self.keep_cause(place, given);
        if matches!(answer, Err(Fault::Memory)) {
            // Memory for so little may be left where there was none for the content.
            self.unheld.clear();
            let _kept = self.unheld.push_str(place);
        }
        answer
    }
}

impl<R: Files + AllocGlobal + Clone + Drop> Folders for RealFolders<R> {
    ghost tree = { λ _. None };

    ghost memory_faults = { λ s. s.memory_faults };

    ghost sound = { λ _. tt };

    fn kind(&mut self, place: &str) -> Result<Kind, Fault> {
        let found = kind(&self.rt, place);
        self.keep_cause(place, found)
    }

    fn kind_if_any(&mut self, place: &str) -> Result<Option<Kind>, Fault> {
        if self.nothing.contains(place) {
            return Ok(None);
        }
        let found = kind_if_any(&self.rt, place);
        if matches!(found, Ok(None)) {
            self.keep_nothing(place);
        }
        self.keep_cause(place, found)
    }

    fn list(&mut self, place: &str) -> Result<Listing, Fault> {
        let found = listing(&self.rt, place, &mut self.refusals);
        self.keep_cause(place, found)
    }

    fn read(&mut self, place: &str) -> Result<Vec<u8>, Fault> {
        let bytes = content(&self.rt, place);
        self.keep_content_cause(place, bytes)
    }

    fn read_listed(&mut self, place: &str) -> Result<Content, Fault> {
        let room = replace(&mut self.room, Vec::new(self.rt.alloc()));
        let content = listed_content(&self.rt, place, room);
        self.keep_content_cause(place, content)
    }

    fn take_back(&mut self, content: Content)
        ensures no_fault { self.new.memory_faults ≡ self.old.memory_faults }
    {
        let room = content.into_room();
        if room.len() <= MAX_KEPT {
            self.room = room;
        }
    }

    fn read_named(&mut self, named: &str) -> Result<Vec<u8>, Fault> {
        let bytes = named_content(&self.rt, named);
        self.keep_content_cause(named, bytes)
    }

    fn head(&mut self, place: &str) -> Result<Vec<u8>, Fault> {
        let bytes = head(&self.rt, place);
        self.keep_cause(place, bytes)
    }

    fn above(&mut self, place: &str) -> Result<Vec<Above>, Fault> {
        let found = folders_above(&self.rt, place);
        self.keep_cause(place, found)
    }

    fn cause(&self, alloc: Global) -> Result<String, AllocError> {
        match &self.refusal {
            Some(refusal) => format!(in alloc; "{refusal}"),
            None => Ok(String::new(alloc)),
        }
    }

    fn cause_at(&self, alloc: Global, place: &str) -> Result<String, AllocError> {
        self.refusals.words(alloc, place)
    }

    fn unheld(&self) -> &str {
        self.unheld.as_str()
    }
}
