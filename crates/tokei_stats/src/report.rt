//! The statistics of a file under its name.
use crate::counts_cells::CountsCells;
use crate::error::CountError;
use crate::report_row::ReportRow;
use crate::stats::CodeStats;
use std::alloc::Global;
use std::fmt;

/// The statistics of a file, and the name under which it is shown.
#[derive(Debug, PartialEq, Drop)]
pub struct Report {
    pub stats: CodeStats,
    pub name: String,
}

impl Report {
    ghost use Rattle.std.specs.Prelude.{◌≡◌, ◌≤◌, IfOk, IfErr, OnOk, OnErr, IsErrOf, IsTrue, string_bytes};
    ghost use Rattle.tokei_stats.specs.Overflow.{Fits};
    ghost use Rattle.tokei_stats.specs.ReportRow.{report_row};
    ghost use Rattle.tokei_stats.specs.Seen.{stats_of, counts_of};
    ghost use Rattle.tokei_stats.specs.Statistics.{empty, sum};

    /// A report of no lines and no blobs; takes no memory.
    pub fn new(alloc: Global, name: String) -> Report
        ensures stats { stats_of result.stats ≡ empty }
        ensures name { result.name ≡ name }
    {
        Report {
            stats: CodeStats::new(alloc),
            name,
        }
    }

    /// Adds the statistics to those of the report, by number and by language, at every depth.
    /// `Overflow` exactly where a sum of two numbers passes the greatest `usize`, or `Memory`; a
    /// refusal changes nothing.
    pub fn add(&mut self, stats: CodeStats) -> Result<(), CountError>
        ensures ok { OnOk result
            (stats_of self.new.stats ≡ sum (stats_of self.old.stats) (stats_of stats)) }
        ensures name { self.new.name ≡ self.old.name }
        ensures fits { OnOk result (Fits (sum (stats_of self.old.stats) (stats_of stats))) }
        ensures overflow { IsErrOf result CountError.Overflow
            → ¬ Fits (sum (stats_of self.old.stats) (stats_of stats)) }
        ensures err { OnErr result (self.new ≡ self.old) }
    {
        self.stats.add(&stats)
    }

    /// A copy, equal by `==`, which differs from a clone in that it may be refused when out of
    /// memory.
    pub fn try_clone(&self) -> Result<Report, CountError>
        ensures stats { IfOk result (λ r. stats_of r.stats ≡ stats_of self.now.stats) }
        ensures name { IfOk result (λ r. string_bytes r.name ≡ string_bytes self.now.name) }
        ensures equal { IfOk result (λ r. IsTrue (⟦<Report as PartialEq>⟧.eq r self.now)) }
        ensures memory { IfErr result (λ e. e ≡ CountError.Memory) }
    {
        Ok(Report {
            stats: self.stats.try_clone()?,
            name: self.name.clone()?,
        })
    }

    /// The row that shows the report, with `width + 2` places for the name; takes no memory.
    pub fn display_in(&self, width: usize) -> ReportRow<'_>
        requires { width ≤ 65535 }
        ensures { result
            ≡ report_row width (string_bytes self.now.name) (counts_of self.now.stats) }
    {
        let counts = CountsCells {
            blanks: self.stats.blanks,
            code: self.stats.code,
            comments: self.stats.comments,
        };
        ReportRow::new(&self.name, counts, width)
    }
}

/// The row that `display_in(27)` gives.
impl fmt::Display for Report {
    ghost use Rattle.std.specs.Prelude.{Some, string_bytes};
    ghost use Rattle.tokei_stats.specs.ReportRow.{report_row};
    ghost use Rattle.tokei_stats.specs.Seen.{counts_of};

    ghost output = { λ r. Some (report_row 27 (string_bytes r.name) (counts_of r.stats)) };

    fn fmt<W: fmt::Write>(&self, f: &mut fmt::Formatter<W>) -> fmt::Result {
        fmt::Display::fmt(&self.display_in(27), f)
    }
}
