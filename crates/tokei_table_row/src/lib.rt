//! What a table says of one language, how many lines a text has of each class, and questions on
//! bytes: blanks, trims and slices.
#![tactic(auto)]

pub mod ext;
pub mod laws;
mod syntax;

pub use ext::{
    contains_slice, is_blank_text, is_line_ending_whitespace, is_whitespace, trim,
    trim_first_and_last_line_of_whitespace, trim_start,
};
pub use syntax::Syntax;
