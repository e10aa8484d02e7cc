//! A place in a part.
use crate::reading::Reading;

/// A place in a part that is read.
#[derive(Clone, Copy)]
pub struct Place<'r, 'a, 't> {
    pub reading: &'r Reading<'a, 't>,
    /// How many bytes were left behind the last child.
    pub behind_child: usize,
    /// Where the part begins.
    pub start: usize,
    /// The place itself.
    pub at: usize,
    /// Where its line goes to, before the newline.
    pub end: usize,
}
