//! How a report is laid out and sorted.
use tokei_options::{NumberFormatStyle, Sort};

/// How a report is laid out and sorted.
#[derive(Clone, Copy, Debug, PartialEq, Eq)]
pub struct ReportStyle {
    /// The width, in characters; fewer than 81 mean 81, and more than 65,535 mean 65,535.
    pub columns: usize,
    /// Whether every file is listed.
    pub files: bool,
    /// Whether the languages inside others are left out.
    pub compact: bool,
    /// The column by which it is sorted, if by any.
    pub sort: Option<Sort>,
    /// Whether the order of a sorted report is reversed.
    pub reverse: bool,
    pub numbers: NumberFormatStyle,
}
