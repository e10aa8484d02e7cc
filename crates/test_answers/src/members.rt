//! Which members rows have.

/// The members of a subject's rows, beside `name`.
#[derive(Clone, Copy)]
pub struct Members {
    /// What is asked.
    pub given: &'static [&'static str],
    /// What is wanted. Such a member stands in a row where its subject answers it, and only there.
    pub wanted: &'static [&'static str],
    /// What is wanted too, and may be left out where it comes.
    pub optional: &'static [&'static str],
    /// Whether rows may be asked by a table that they don't have themselves.
    pub by_table: bool,
}
