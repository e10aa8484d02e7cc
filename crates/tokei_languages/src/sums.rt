//! Sums of the counts of reports.
ghost use Rattle.std.specs.Prelude.{◌≡◌, IfOk, IfErr, OnErr, map};
ghost use Rattle.tokei_stats.specs.Overflow.{CountsFit};
ghost use Rattle.tokei_stats.specs.Seen.{sums_of};
ghost use Rattle.tokei_stats.specs.Statistics.{plus};
ghost use Rattle.tokei_languages.specs.Renewing.{own_sum};
ghost use Rattle.tokei_languages.specs.Seen.{children_of, report_of};
ghost use Rattle.tokei_languages.specs.Summaries.{children_summary, reports_summary};

use std::collections::BTreeMap;
use tokei_stats::{CountError, Report, Sums};
use tokei_table::LanguageType;

/// The own counts of the reports, added up.
pub(crate) fn own_sums(reports: &[Report]) -> Result<Sums, CountError>
    ensures sum { IfOk result (λ n. sums_of n ≡ own_sum (map report_of reports.now)) }
    ensures past { OnErr result (¬ CountsFit (own_sum (map report_of reports.now))) }
    ensures overflow { IfErr result (λ e. e ≡ CountError.Overflow) }
{
    let mut sums = Sums::new();
    for report in reports {
        sums = sums.plus(report.stats.own_counts())?;
    }
    Ok(sums)
}

/// The sums and the summaries of the reports, added up.
fn add_summaries(sums: Sums, reports: &[Report]) -> Result<Sums, CountError>
    ensures sum { IfOk result (λ n.
        sums_of n ≡ plus (sums_of sums) (reports_summary (map report_of reports.now))) }
    ensures past { OnErr result
        (¬ CountsFit (plus (sums_of sums) (reports_summary (map report_of reports.now)))) }
    ensures overflow { IfErr result (λ e. e ≡ CountError.Overflow) }
{
    let mut more = sums;
    for report in reports {
        more = more.plus(report.stats.summary_counts()?)?;
    }
    Ok(more)
}

/// The sums and the summaries of the reports of all languages inside, added up.
pub(crate) fn add_children(
    sums: Sums,
    children: &BTreeMap<LanguageType, Vec<Report>>,
) -> Result<Sums, CountError>
    ensures sum { IfOk result (λ n.
        sums_of n ≡ plus (sums_of sums) (children_summary (children_of children.now.entries))) }
    ensures past { OnErr result
        (¬ CountsFit (plus (sums_of sums) (children_summary (children_of children.now.entries)))) }
    ensures overflow { IfErr result (λ e. e ≡ CountError.Overflow) }
{
    let mut more = sums;
    for (_, reports) in children.iter() {
        more = add_summaries(more, reports)?;
    }
    Ok(more)
}
