//! The counts in a row.
use std::fmt;

/// Lines, code, comments and blanks, each behind a space and right in 12 places. The lines are the
/// exact sum of the three counts, also where it passes `usize`.
#[derive(Clone, Copy)]
pub struct CountsCells {
    pub blanks: usize,
    pub code: usize,
    pub comments: usize,
}

impl fmt::Display for CountsCells {
    ghost use Rattle.std.specs.Prelude.{Some};
    ghost use Rattle.tokei_stats.specs.ReportRow.{counts_cells};

    ghost output = { λ n. Some
        (counts_cells (record { blanks = n.blanks; code = n.code; comments = n.comments })) };

    #[tactic(auto, using(crate::proofs::Padding::padded_right))]
    fn fmt<W: fmt::Write>(&self, f: &mut fmt::Formatter<W>) -> fmt::Result {
        let (blanks, code, comments) = (self.blanks, self.code, self.comments);
        let lines = blanks as u128 + code as u128 + comments as u128;
        write!(f, " {lines:>12} {code:>12} {comments:>12} {blanks:>12}")
    }
}
