//! A table of languages in JSON: its layout, the escapes in its texts, the rows of languages that it
//! holds, and the table of them, or why there is none.
#![tactic(auto)]

mod error;
pub mod escaped;
pub mod escapes;
mod flaw;
pub mod laws;
pub mod layout;
pub mod members;
pub mod misfits;
mod reading;
pub mod rows;
pub mod token_lists;
pub mod token_rows;
pub mod values;

pub use error::TableError;
pub use flaw::TableFlaw;
pub use reading::FromJson;
