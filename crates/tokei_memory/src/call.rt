//! The calls on folders that a place can refuse.

/// A call on folders that a place can refuse.
#[derive(Clone, Copy, Debug, PartialEq, Eq)]
pub enum Call {
    List,
    Read,
    Head,
}
