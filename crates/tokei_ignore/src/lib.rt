//! Ignore patterns and ignore files: when a line of one fits an entry, and what the file decides.
//!
//! `specs/` holds the rules, one idea a file: how a line is trimmed, how a segment is read, the
//! pattern of a line, when it fits the names of an entry, and what the last line that fits decides.
#![tactic(auto)]

mod ends;
mod ignore_files;
mod indexed_patterns;
mod keys;
mod matching;
mod patterns;
mod pieces;
mod reading;

pub use ignore_files::{IgnoreFile, Verdict, verdict_among};
pub use indexed_patterns::IndexedPatterns;
pub use patterns::{Pattern, PatternError};
