//! The rows of the languages inside the files of another.
ghost use Rattle.std.specs.Prelude.{◌≡◌, IfOk, IfErr, IsErrOf, OnErr, map, string_bytes};
ghost use Rattle.tokei_print.specs.LinesFit.{LinesFit};
ghost use Rattle.tokei_languages.specs.Names.{name_in};
ghost use Rattle.tokei_print.specs.ChildRows.{child_row, child_rows};
ghost use Rattle.tokei_print.specs.ChildrenFit.{ChildrenFit};
ghost use Rattle.tokei_stats.specs.Overflow.{CountsFit};
ghost use Rattle.tokei_stats.specs.Reports.{children_of, report_of, reports_summary};
ghost use Rattle.tokei_stats.specs.Seen.{sums_of};

use crate::counts::files_and_counts;
use crate::joined::joined;
use crate::layout::Layout;
use std::alloc::Global;
use std::collections::BTreeMap;
use tokei_languages::name_of;
use tokei_stats::{CountError, Report, Sums};
use tokei_table::{LanguageTable, LanguageType};

/// The summaries of the reports, added up.
fn summaries(reports: &[Report]) -> Result<Sums, CountError>
    ensures sum { IfOk result (λ n. sums_of n ≡ reports_summary (map report_of reports.now)) }
    ensures past { OnErr result (¬ CountsFit (reports_summary (map report_of reports.now))) }
    ensures overflow { IfErr result (λ e. e ≡ CountError.Overflow) }
{
    let mut sums = Sums::new();
    for report in reports {
        sums = sums.plus(report.stats.summary_counts()?)?;
    }
    Ok(sums)
}

/// The row of a language inside the files of another. `Overflow` only where its lines pass the
/// greatest `usize`.
fn child_row(
    layout: &Layout,
    alloc: Global,
    name: &str,
    reports: &[Report],
) -> Result<String, CountError>
    ensures ok { IfOk result (λ s. string_bytes s
        ≡ child_row layout.now name.now (map report_of reports.now)) }
    ensures overflow { IsErrOf result CountError.Overflow
        → ¬ LinesFit (reports_summary (map report_of reports.now)) }
{
    let sums = summaries(reports)?;
    let row = layout.name_section(alloc, false, name, " |-")?;
    if reports.is_empty() {
        Ok(row)
    } else {
        files_and_counts(row, alloc, layout.format, reports.len(), sums)
    }
}

/// A row for each language inside.
pub fn child_rows(
    layout: &Layout,
    alloc: Global,
    table: &LanguageTable,
    children: &BTreeMap<LanguageType, Vec<Report>>,
) -> Result<String, CountError>
    ensures ok { IfOk result (λ s. string_bytes s
        ≡ child_rows layout.now (name_in table.now) (children_of children.now.entries)) }
    ensures overflow { IsErrOf result CountError.Overflow
        → ¬ ChildrenFit (children_of children.now.entries) }
{
    let mut rows = String::new(alloc);
    for (language, reports) in children.iter() {
        let row = child_row(layout, alloc, name_of(table, *language), reports);
        rows = joined(rows, row)?;
    }
    Ok(rows)
}
