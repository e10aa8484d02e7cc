//! The folders of the system.
//!
//! A program makes them by `RealFolders::new` of its runtime, and gives them to any call that takes
//! `Folders`; places are paths, read from the current folder on. What it reads elsewhere, as the
//! standard input, it puts into a `RetriedReader`, so that a read is made again which a signal
//! interrupted. `reading` has the calls that read what a reader has left: `all_of`, `all_into`,
//! `all_within` a number of bytes, and its head alone by `head_of`.
#![tactic(auto)]

mod folders_above;
mod limited;
mod listing;
pub mod reading;
mod real_folders;
mod refusals;
mod retried;
mod status;

pub use real_folders::RealFolders;
pub use retried::RetriedReader;
