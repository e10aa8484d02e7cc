//! Searches over a text: for the first of some openers, by their first bytes, and past the blanks
//! at its front.
#![tactic(auto)]

mod blanks;
mod opener_group;
mod opener_index;
mod tellers;

pub use blanks::blanks_end;
pub use opener_index::OpenerIndex;
pub use tellers::Tellers;
