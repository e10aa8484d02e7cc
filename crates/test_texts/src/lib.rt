//! Rows of texts in memory: what asks the calls that count a text, read tables of languages, search
//! and add up statistics. How rows are read and compared is in `test_answers`. Nothing here stands
//! on a walk, on what trees count or on what is printed of them, so this crate is proved while the
//! crates of those are.
//!
//! A module that has `MEMBERS` is a subject: a program that asks rows calls its `came`. Tests that
//! are loops ask `every_call` for what all calls tell of one text.
#![tactic(auto)]

mod asking;
pub mod blocks;
pub mod bytes;
pub mod captures;
pub mod contexts;
pub mod counting;
pub mod every_call;
mod gains;
pub mod look_ups;
mod made;
pub mod next_places;
pub mod openers;
pub mod reports;
pub mod sums;
pub mod syntaxes;
pub mod tables;
pub mod texts;
