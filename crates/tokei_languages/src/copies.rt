//! Copies of reports.
ghost use Rattle.std.specs.Prelude.{◌≡◌, IfOk, IfErr, map, string_bytes};
ghost use Rattle.tokei_languages.specs.Seen.{children_of, report_of, reports_of};

use std::alloc::Global;
use std::collections::BTreeMap;
use tokei_stats::{CodeStats, CountError, Report};
use tokei_table::LanguageType;

/// A copy of each report, in their order.
pub(crate) fn copied_reports(alloc: Global, reports: &[Report]) -> Result<Vec<Report>, CountError>
    ensures ok { IfOk result (λ copies. reports_of copies ≡ map report_of reports.now) }
    ensures memory { IfErr result (λ e. e ≡ CountError.Memory) }
{
    let mut copies = Vec::with_capacity(alloc, reports.len())?;
    for report in reports {
        copies.push(report.try_clone()?)?;
    }
    Ok(copies)
}

/// Puts a copy of the reports at the language.
pub(crate) fn copy_at(
    alloc: Global,
    copies: &mut BTreeMap<LanguageType, Vec<Report>>,
    language: LanguageType,
    reports: &[Report],
) -> Result<(), CountError>
    ensures ok { OnOk result (children_of copies.new.entries
        ≡ insert_entry nat_cmp (children_of copies.old.entries) language
        (map report_of reports.now)) }
    ensures memory { IfErr result (λ e. e ≡ CountError.Memory) }
{
    let copy = copied_reports(alloc, reports)?;
    let _old = copies.insert(language, copy)?;
    Ok(())
}

/// A copy of each language's reports.
pub(crate) fn copied_children(
    alloc: Global,
    children: &BTreeMap<LanguageType, Vec<Report>>,
) -> Result<BTreeMap<LanguageType, Vec<Report>>, CountError>
    ensures ok { IfOk result (λ copies.
        children_of copies.entries ≡ children_of children.now.entries) }
    ensures memory { IfErr result (λ e. e ≡ CountError.Memory) }
{
    let mut copies = BTreeMap::new(alloc);
    for (language, reports) in children.iter() {
        copy_at(alloc, &mut copies, *language, reports)?;
    }
    Ok(copies)
}

ghost use Rattle.std.specs.Prelude.{[], ◌∷◌, OnOk};
ghost use Rattle.std.specs.Ordering.{nat_cmp};
ghost use Rattle.std.specs.BTreeMap.{insert_entry};
ghost use Rattle.tokei_stats.specs.Seen.{blobs_of, entries_of, stats_of};
ghost use Rattle.tokei_languages.specs.Merging.{blob_reports};

/// One report of this name and these statistics.
fn blob_report(alloc: Global, name: &String, stats: &CodeStats) -> Result<Vec<Report>, CountError>
    ensures ok { IfOk result (λ reports. reports_of reports
        ≡ record { name = string_bytes name.now; stats = stats_of stats.now } ∷ []) }
    ensures memory { IfErr result (λ e. e ≡ CountError.Memory) }
{
    let report = Report {
        stats: stats.try_clone()?,
        name: name.clone()?,
    };
    let mut reports = Vec::with_capacity(alloc, 1)?;
    reports.push(report)?;
    Ok(reports)
}

/// Puts one report of this name and these statistics at the language.
fn report_at(
    alloc: Global,
    children: &mut BTreeMap<LanguageType, Vec<Report>>,
    language: LanguageType,
    name: &String,
    stats: &CodeStats,
) -> Result<(), CountError>
    ensures ok { OnOk result (children_of children.new.entries
        ≡ insert_entry nat_cmp (children_of children.old.entries) language
        (record { name = string_bytes name.now; stats = stats_of stats.now } ∷ [])) }
    ensures memory { IfErr result (λ e. e ≡ CountError.Memory) }
{
    let reports = blob_report(alloc, name, stats)?;
    let _old = children.insert(language, reports)?;
    Ok(())
}

/// A report of this name for each blob.
pub(crate) fn blob_reports(
    alloc: Global,
    name: &String,
    blobs: &BTreeMap<LanguageType, CodeStats>,
) -> Result<BTreeMap<LanguageType, Vec<Report>>, CountError>
    ensures ok { IfOk result (λ children. children_of children.entries
        ≡ blob_reports (string_bytes name.now) (blobs_of (entries_of blobs.now.entries))) }
    ensures memory { IfErr result (λ e. e ≡ CountError.Memory) }
{
    let mut children = BTreeMap::new(alloc);
    for (language, stats) in blobs.iter() {
        report_at(alloc, &mut children, *language, name, stats)?;
    }
    Ok(children)
}
