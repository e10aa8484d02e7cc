//! Kept files, and notes of what was passed over.
use tokei_folders::{Items, Text};

/// A file that the ignore rules keep.
#[derive(Drop)]
pub struct KeptFile {
    /// The path that is shown: the root's text and the names below it.
    pub path: Text,
    /// The place by which folders know it.
    pub place: Text,
}

/// What a note is about.
#[derive(Clone, Copy, Debug, PartialEq, Eq)]
pub enum NoteKind {
    /// A root that is missing.
    MissingRoot,
    /// A folder that can't be listed.
    Unlisted,
    /// An ignore file that can't be read.
    UnreadIgnore,
    /// An ignore file with a bad line.
    BadLine,
    /// An exclude that is no pattern.
    BadExclude,
    /// A folder with a name that isn't UTF-8.
    Unnamed,
    /// A folder more than 256 below its root.
    TooDeep,
    /// An entry of a folder of which it can't be told what stands there: it is passed over.
    LostEntry,
    /// A file that counts in a language, and whose content can't be read.
    UnreadContent,
    /// A root of which it can't be told which folders are above it: none is obeyed.
    UnresolvedRoot,
}

/// What a walk met and passed over.
#[derive(Drop)]
pub struct Note {
    pub kind: NoteKind,
    /// The place; of `BadExclude` the exclude.
    pub place: Text,
}
