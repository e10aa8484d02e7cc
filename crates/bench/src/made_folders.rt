//! Folders that make their answers as they are asked, and hold none of them.
ghost use Rattle.std.specs.Prelude.{◌≡◌, ◌<◌, None};
ghost use Rattle.tokei_folders.specs.Answers.{counted, StaysFull};

use std::alloc::{AllocError, Global};
use tokei_folders::{Above, Entry, Fault, Folders, Kind, Listing, Text};

/// How many folders the root holds.
pub const FOLDERS: usize = 200;

/// Five lines of C in 64 bytes: one is blank, three are code, one is a comment.
const LINES: &[u8] = b"// adds one to the number\nint add(int a) {\n    return a + 1;\n}\n\n";

/// How often these lines stand in a file of 1 KiB.
const TIMES: usize = 16;

/// How many blank, code and comment lines a file has.
pub const LINES_OF_FILE: (usize, usize, usize) = (TIMES, 3 * TIMES, TIMES);

/// The root `.`, which holds as many folders, each with the same number of files. They tell no
/// tree.
#[derive(Drop)]
pub struct MadeFolders {
    alloc: Global,
    /// How many files each folder holds.
    files: usize,
    memory_faults: u64,
}

/// The content of each file.
fn content(alloc: Global) -> Result<Vec<u8>, AllocError> {
    let mut content = Vec::with_capacity(alloc, 1024)?;
    for _ in 0..TIMES {
        content.extend_from_slice(LINES)?;
    }
    Ok(content)
}

/// So many folders, in byte order.
fn folders(alloc: Global, count: usize) -> Result<Vec<Entry>, AllocError> {
    let mut entries = Vec::with_capacity(alloc, count)?;
    for number in 0..count {
        let name = Text::from_string(format!(in alloc; "d{number:06}")?);
        entries.push(Entry {
            name,
            kind: Kind::Folder,
        })?;
    }
    Ok(entries)
}

/// So many files, in byte order.
fn files(alloc: Global, count: usize) -> Result<Vec<Entry>, AllocError> {
    let mut entries = Vec::with_capacity(alloc, count)?;
    for number in 0..count {
        let name = Text::from_string(format!(in alloc; "f{number:06}.c")?);
        entries.push(Entry {
            name,
            kind: Kind::File,
        })?;
    }
    Ok(entries)
}

impl MadeFolders {
    /// Folders of so many files each.
    pub fn new(alloc: Global, files: usize) -> MadeFolders {
        MadeFolders {
            alloc,
            files,
            memory_faults: 0,
        }
    }

    /// What was made; out of memory is counted.
    fn answered<T>(&mut self, made: Result<T, AllocError>) -> Result<T, Fault>
        ensures counts { self.old.memory_faults < u64.MAX
            → self.new.memory_faults ≡ counted result (self.old.memory_faults) }
        ensures full { StaysFull self.old.memory_faults self.new.memory_faults }
    {
        match made {
            Ok(answer) => Ok(answer),
            Err(_refused) => {
                self.memory_faults = self.memory_faults.saturating_add(1);
                Err(Fault::Memory)
            }
        }
    }
}

impl Folders for MadeFolders {
    ghost tree = { λ _. None };

    ghost memory_faults = { λ s. s.memory_faults };

    ghost sound = { λ _. tt };

    fn kind(&mut self, place: &str) -> Result<Kind, Fault> {
        if place == "." {
            Ok(Kind::Folder)
        } else {
            Err(Fault::Refused)
        }
    }

    fn list(&mut self, place: &str) -> Result<Listing, Fault> {
        let made = if place == "." {
            folders(self.alloc, FOLDERS)
        } else {
            files(self.alloc, self.files)
        };
        let entries = self.answered(made)?;
        Ok(Listing {
            entries,
            lost: Vec::new(self.alloc),
            unnamed: 0,
        })
    }

    fn read(&mut self, _place: &str) -> Result<Vec<u8>, Fault> {
        let made = content(self.alloc);
        self.answered(made)
    }

    fn head(&mut self, place: &str) -> Result<Vec<u8>, Fault> {
        let mut head = self.read(place)?;
        head.truncate(128);
        Ok(head)
    }

    fn above(&mut self, _place: &str) -> Result<Vec<Above>, Fault> {
        Ok(Vec::new(self.alloc))
    }
}
