//! Folders that stand in for the system, in tests and for callers without a file system: folders in
//! memory, which tell their tree, and folders whose calls fail once some have passed.
//!
//! A caller makes `MemoryFolders` and adds to them by `add_folder` and `add_file`. A place that is
//! to refuse one kind of `Call` is marked by `refuse_call`, one that is to refuse all of them by
//! `refuse`. `FailingFolders` are made of any other folders and a number of calls that pass. Both
//! are given to any call that takes `Folders`. What its contract says of a known tree then holds of
//! this one.
//!
//! `specs/` holds the rules, one idea a file: what an addition or a refusal makes of a tree, what
//! folders in memory show of themselves, and which calls on failing folders pass.
#![tactic(auto)]

mod call;
mod failing;
mod memory;
mod told;

pub use call::Call;
pub use failing::FailingFolders;
pub use memory::MemoryFolders;
