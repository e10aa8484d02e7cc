//! The row that shows a report.
use crate::counts_cells::CountsCells;
use crate::name_cell::NameCell;
use std::fmt;
use std::marker::Model;

/// A report's row: a space, the name, and its lines, code, comments and blanks. It has no newline,
/// and printing it takes no memory.
#[derive(Debug, Drop)]
pub struct ReportRow<'a> {
    name: &'a str,
    width: usize,
    blanks: usize,
    code: usize,
    comments: usize,
}

ghost use Rattle.std.specs.Prelude.{◌≡◌, ◌≤◌, List, ℕ, Some};
ghost use Rattle.tokei_stats.specs.ReportRow.{report_row};

impl<'a> Model for ReportRow<'a> {
    ghost Value = { List ℕ };

    ghost view = { λ r. report_row r.width r.name.now
        (record { blanks = r.blanks; code = r.code; comments = r.comments }) };

    ghost invariant = { λ r. r.width ≤ 65535 };
}

impl<'a> ReportRow<'a> {
    /// The row of these counts under this name, with `width + 2` places for the name.
    pub fn new(name: &'a str, counts: CountsCells, width: usize) -> ReportRow<'a>
        requires { width ≤ 65535 }
        ensures { result ≡ report_row width name.now
            (record { blanks = counts.blanks; code = counts.code; comments = counts.comments }) }
    {
        ReportRow {
            name,
            width,
            blanks: counts.blanks,
            code: counts.code,
            comments: counts.comments,
        }
    }
}

impl fmt::Display for ReportRow<'_> {
    ghost output = { λ row. Some row };

    fn fmt<W: fmt::Write>(&self, f: &mut fmt::Formatter<W>) -> fmt::Result {
        let name = NameCell {
            name: self.name,
            places: self.width + 2,
        };
        let counts = CountsCells {
            blanks: self.blanks,
            code: self.code,
            comments: self.comments,
        };
        write!(f, " {name}{counts}")
    }
}
