//! The languages that were counted: their counts, their files' reports, how these are added,
//! renewed, summarised and sorted, and the laws of that.
#![tactic(auto)]

mod before;
mod children;
mod copies;
mod language;
mod languages;
pub mod laws;
mod merge;
mod names;
mod sorting;
mod sums;
mod totals;

pub use language::Language;
pub use languages::Languages;
pub use names::name_of;
