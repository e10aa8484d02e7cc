//! Rows of trees in memory: what asks the calls of folders in memory, of ignore files, of walks, of
//! what trees count, of languages, of documents and of what is printed. How rows are read and
//! compared is in `test_answers`. Nothing here stands on what asks the calls of texts, on a run or
//! on the program.
//!
//! A module that has `MEMBERS` is a subject: a program that asks rows calls its `came`. Subjects of
//! runs and of the program ask `folders_of`, `add_texts` and `roots` for the tree of a row, and
//! `configurations` for the extensions that languages gain.
#![tactic(auto)]

pub mod configurations;
pub mod documents;
pub mod files;
mod folders;
mod given_languages;
pub mod ignore_files;
pub mod languages;
pub mod memory_folders;
mod odd_folders;
pub mod patterns;
pub mod printed;
pub mod read_back;
mod shown_languages;
pub mod statistics;
pub mod walks;
pub mod words;

pub use folders::{add_texts, folders_of, roots};
