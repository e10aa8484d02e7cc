//! The types of a tree, and how deep it is at most.
use bumpalo::Bump;
use json::Value;

/// How deep lists and objects stand in one another at most, as in `serde_json`.
pub const MAX_DEPTH: usize = 127;

/// A tree, whose texts are borrowed; a number stays text.
pub type Tree<'t> = Value<'t, &'t Bump>;

/// The items of a list.
pub type TreeItems<'t> = Vec<Tree<'t>, &'t Bump>;

/// The members of an object.
pub type TreeMembers<'t> = Vec<(&'t str, Tree<'t>), &'t Bump>;
