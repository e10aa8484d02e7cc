//! The program as a call: it takes the words of a command line, the environment, folders, and three
//! ends to read from and write to, and returns the exit status.
//!
//! `specs/` holds what the program writes and what it says beside that, and of which job it writes
//! it.
#![tactic(auto)]

mod choices;
mod entry;
mod preparing;

pub use entry::program;
