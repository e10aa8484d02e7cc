//! What stands at the places of a tree.
use crate::lists::Items;
use crate::texts::Text;

/// What stands at a place of a known tree, and which of its calls are refused.
#[derive(Drop)]
pub enum Node {
    File {
        refuses_read: bool,
        refuses_head: bool,
        content: Items<u8>,
    },
    Folder {
        refuses_list: bool,
    },
}

/// A place of a known tree.
#[derive(Drop)]
pub struct PlacedNode {
    /// The names from the top down to it.
    pub names: Items<Text>,
    pub node: Node,
}
