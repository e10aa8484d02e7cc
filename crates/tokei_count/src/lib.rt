//! Counts the blank, code and comment lines of a text in its language, and of the texts of other
//! languages inside it.
//!
//! `specs/` holds what the calls promise, one idea a file: the plain reading of a text and of its
//! children, its steps, its weight, and what a call answers. The rules of one text, from its items
//! to the class of a part, are those of `tokei_parts`.
#![tactic(auto)]

mod counter;
mod file_context;
pub mod laws;
mod line_look;
mod line_reading;
mod lines_left;
mod newlines;
mod parse;
mod plain_reading;
mod reader;
mod text_reading;

pub use counter::Counter;
pub use file_context::{FileContext, LanguageContext};
pub use parse::{parse_counted, parse_from_slice, parse_from_str};
pub use plain_reading::{count_plain, count_plain_counted};
