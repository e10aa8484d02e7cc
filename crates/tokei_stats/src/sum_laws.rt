//! Laws of the definitions, each the contract of a function that does nothing, and the order of
//! every value.
ghost use Rattle.tokei_stats.specs.Seen.{stats_of};
ghost use Rattle.tokei_stats.specs.Ordered.{IsOrdered};
ghost use Rattle.tokei_stats.specs.SumLaws.{SumsStayOrdered, SumsCommute, SumsAssociate, EmptyIsNeutral};
ghost use Rattle.tokei_stats.specs.SumLaws.{SummariesAdd, SummarisingOnceSuffices, SumsHoldBoth, PutsChangeOne};

use crate::stats::CodeStats;

/// The sum of statistics in the table's order is in the table's order.
pub fn sums_stay_ordered()
    ensures { SumsStayOrdered }
{}

/// The sum of two statistics is the same the other way round.
pub fn sums_commute()
    ensures { SumsCommute }
{}

/// The sum of three statistics is the same whichever two are added first.
pub fn sums_associate()
    ensures { SumsAssociate }
{}

/// Empty statistics change no sum.
pub fn empty_is_neutral()
    ensures { EmptyIsNeutral }
{}

/// The sum of two statistics has their numbers added up, and at each language the sum of both, or
/// the one that is there; the second side is in the table's order.
pub fn sums_hold_both()
    ensures { SumsHoldBoth }
{}

/// Of blobs into which statistics are put, that language has them, and each other one what it had.
pub fn puts_change_one()
    ensures { PutsChangeOne }
{}

/// The summary of a sum is the sum of the summaries.
pub fn summaries_add()
    ensures { SummariesAdd }
{}

/// Summarising twice is summarising once.
pub fn summarising_once_suffices()
    ensures { SummarisingOnceSuffices }
{}

/// The statistics of every value are in the table's order.
pub fn statistics_are_ordered(stats: &CodeStats)
    ensures { IsOrdered (stats_of stats.now) }
{
    for (_, inner) in stats.blobs.iter() {
        statistics_are_ordered(inner);
    }
}
