//! Where the walk and the counter meet: the statistics of all files that the ignore rules keep
//! below some roots. Callers ask `get_statistics` and `get_all_files` of `Languages`, or
//! `count_roots` and `count_files` for a part of them.
//!
//! `specs/` holds the rules, one idea a file: the languages of a run, and the order of its files.
#![tactic(auto)]

mod counting;
pub mod laws;
mod statistics;

pub use counting::{add_file, count_files, count_roots};
pub use statistics::CountFiles;
