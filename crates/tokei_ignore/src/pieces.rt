//! What the segments of a pattern are made of.
use tokei_folders::Items;

/// The characters from `low` to `high`, both included.
#[derive(Clone, Copy, Debug, PartialEq, Eq)]
pub struct Range {
    pub low: char,
    pub high: char,
}

/// What one sign of a segment fits.
#[derive(Drop)]
pub enum Piece {
    /// Any number of characters.
    AnyRun,
    /// One character, whichever it is.
    AnyOne,
    /// That one character.
    Exactly(char),
    /// One character of the ranges, or, where `turned`, one of none of them.
    Class { turned: bool, ranges: Items<Range> },
}

/// A part of a pattern between slashes.
#[derive(Drop)]
pub enum Segment {
    /// Any number of names.
    AnyNames,
    /// One name that fits these pieces from its first character to its last.
    Name(Items<Piece>),
}
