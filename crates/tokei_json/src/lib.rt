//! Languages, statistics and reports as JSON: the document of a run, a file's report as a line of a
//! stream, and which JSON values are documents.
#![tactic(auto)]

mod counted_objects;
mod language_maps;
mod layout;
mod named_table;
mod reports;
mod text;
mod tokens;
mod write;

pub use language_maps::{all_known, all_once};
pub use layout::has_layout;
pub use named_table::NamedTable;
pub use reports::report_line;
pub use text::to_text;
pub use write::to_value;
