//! What a table of languages asks of its rows: whether they can be counted with, which texts open
//! something in one, copies with further extensions, and which row a name, a file or a script's
//! head stands for, by an index beside the rows.
#![tactic(auto)]

pub mod extend;
pub mod family;
mod indexed_rows;
mod known_texts;
pub mod lookups;
pub mod names;
pub mod openers;
mod path_suffixes;
mod text_index;
mod tokens;
pub mod well_formed;

pub use family::Family;
pub use indexed_rows::IndexedRows;
pub use known_texts::KnownTexts;
