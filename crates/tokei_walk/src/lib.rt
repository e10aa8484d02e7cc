//! The walk over the files that the ignore rules keep.
//!
//! A caller takes all kept files of some roots at once by `kept_files`, or makes a `Walk` and asks
//! it for one file after the other by `next`. Either reads any `Folders`, by `Rules` that say which
//! ignore files are obeyed, and leaves a `Note` for what it passed over.
//!
//! `specs/` holds the rules, one idea a file: what the rules of folders inside one another decide,
//! the kept files, a filter of all places of a tree, and what a walk still has to come.
#![tactic(auto)]

mod collect;
mod excludes;
mod kept_file;
pub mod laws;
mod levels;
mod listings;
mod parents;
mod roots;
mod rules_files;
mod stack;
mod walking;

pub use collect::{Kept, kept_files};
pub use kept_file::{KeptFile, Note, NoteKind};
pub use levels::Rules;
pub use walking::Walk;
