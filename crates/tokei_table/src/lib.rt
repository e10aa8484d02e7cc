//! The table of languages: how each one's comments and string literals are written, and by which
//! names it is found.
#![tactic(auto)]

mod extend;
mod language_type;
mod lookups;
mod openers;
mod table;
pub mod table_laws;

pub use language_type::LanguageType;
pub use lookups::has_extension;
pub use table::LanguageTable;
