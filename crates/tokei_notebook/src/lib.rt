//! The cells of a notebook, with the language of each.
#![tactic(auto)]

mod kept;
mod layout;
mod notebook;

pub use notebook::{Cell, cells};
