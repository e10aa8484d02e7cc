//! Equality of statistics and of reports, as the contracts of functions that compare them.
ghost use Rattle.std.specs.Prelude.{◌≡◌, ◌↔◌, IsTrue, string_bytes};
ghost use Rattle.tokei_stats.specs.Seen.{stats_of};

use crate::report::Report;
use crate::stats::CodeStats;

/// Statistics are equal by `==` exactly where the three numbers and the blobs are, at every depth.
pub fn equality_is_of_all_members(stats: &CodeStats, other: &CodeStats) -> bool
    ensures { IsTrue result ↔ (stats_of stats.now ≡ stats_of other.now) }
{
    stats == other
}

/// Reports are equal by `==` exactly where their statistics and their names are.
pub fn report_equality_is_of_all_members(report: &Report, other: &Report) -> bool
    ensures { IsTrue result
        ↔ ((stats_of report.now.stats ≡ stats_of other.now.stats)
        × (string_bytes report.now.name ≡ string_bytes other.now.name)) }
{
    report == other
}
