//! Earlier results: the languages of a JSON document, read from a text or a reader, and added to
//! others; and the formats in which a document is printed and read.
#![tactic(auto)]

mod document;
mod error;
mod format;
mod input;
mod read;
mod reading;

pub use document::{from_text, from_value};
pub use error::InputError;
pub use format::{Format, FormatError};
pub use input::{add_bytes, add_input};
