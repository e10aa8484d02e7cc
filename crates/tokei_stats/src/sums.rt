//! Sums of lines.
ghost use Rattle.std.specs.Prelude.{◌≡◌, ◌+◌, ◌≤◌, ◌^◌, IfOk, IfErr, OnErr};

use crate::error::CountError;

/// The sum of two counts.
fn sum_of(a: usize, b: usize) -> Result<usize, CountError>
    ensures ok { IfOk result (λ n. n ≡ a + b) }
    ensures past { OnErr result (2 ^ 64 ≤ a + b) }
    ensures overflow { IfErr result (λ e. e ≡ CountError.Overflow) }
{
    match a.checked_add(b) {
        Some(n) => Ok(n),
        None => Err(CountError::Overflow),
    }
}

/// Sums of blank, code and comment lines.
#[derive(Clone, Copy)]
pub struct Sums {
    pub blanks: usize,
    pub code: usize,
    pub comments: usize,
}

impl Sums {
    ghost use Rattle.std.specs.Prelude.{◌≡◌, IfOk, IfErr, OnErr};
    ghost use Rattle.tokei_stats.specs.Statistics.{no_lines, plus};
    ghost use Rattle.tokei_stats.specs.Overflow.{CountsFit};
    ghost use Rattle.tokei_stats.specs.Seen.{sums_of};

    /// No lines.
    pub fn new() -> Sums
        ensures { sums_of result ≡ no_lines }
    {
        Sums {
            blanks: 0,
            code: 0,
            comments: 0,
        }
    }

    /// Both, added up.
    pub fn plus(self, other: Sums) -> Result<Sums, CountError>
        ensures ok { IfOk result (λ n. sums_of n ≡ plus (sums_of self) (sums_of other)) }
        ensures past { OnErr result (¬ CountsFit (plus (sums_of self) (sums_of other))) }
        ensures overflow { IfErr result (λ e. e ≡ CountError.Overflow) }
    {
        Ok(Sums {
            blanks: sum_of(self.blanks, other.blanks)?,
            code: sum_of(self.code, other.code)?,
            comments: sum_of(self.comments, other.comments)?,
        })
    }
}
