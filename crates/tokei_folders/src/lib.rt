//! Folders behind a trait, the tree that they can tell, and the names of places.
//!
//! A caller that reads folders takes any `Folders` and asks by place: what stands there, what a
//! folder holds, what a file contains, which folders are above. Contracts say what is answered, by
//! the tree that a value tells, where it tells one. `names` and `places` split places into names
//! and join them. `Text`, `Items` and `Content` are what folders answer with: contracts see them as
//! their bytes and items.
//!
//! `specs/` holds the rules, one idea a file: the tree that folders tell, what is answered by it,
//! and the place of an entry.
#![tactic(auto)]

mod content;
mod fs;
pub mod laws;
mod lists;
pub mod names;
mod nodes;
pub mod places;
mod texts;

pub use content::Content;
pub use fs::{Above, Entry, Fault, Folders, Kind, Listing};
pub use lists::Items;
pub use nodes::{Node, PlacedNode};
pub use texts::Text;
