//! What a caller chooses of a count and of its output: how texts are counted, by which column
//! languages are sorted, how the digits of a number are grouped, the forms of a stream, and the
//! widths of columns.
#![tactic(auto)]

pub mod columns;
mod count_config;
mod number_format;
mod sort;
mod streaming;

pub use count_config::CountConfig;
pub use number_format::{NumberFormat, NumberFormatStyle, StyleError};
pub use sort::{Sort, SortError};
pub use streaming::{Streaming, StreamingError};
