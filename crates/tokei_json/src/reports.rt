//! Statistics and reports as JSON values, and a report as a line of a stream.
ghost use Rattle.std.specs.Prelude.{◌≡◌, IfOk, OnOk, string_bytes};
ghost use Rattle.std.specs.Result.{IsOkAnd};
ghost use Rattle.serde_json.specs.Data.{no_members, put as with_member};
ghost use Rattle.serde_json.specs.View.{view, members_view};
ghost use Rattle.serde_json.specs.Written.{compact_text};
ghost use Rattle.tokei_json.specs.ReportData.{statistics_data, blobs_data, report_data};
ghost use Rattle.tokei_json.specs.ReportData.{reports_data, named_data, line_data};
ghost use Rattle.tokei_languages.specs.Names.{name_in};
ghost use Rattle.tokei_stats.specs.Reports.{report_of, reports_of, children_of};
ghost use Rattle.tokei_stats.specs.Seen.{blobs_of, entries_of, stats_of};

use crate::counted_objects::count_members;
use crate::tokens::{text_of, write_line};
use json::Writer;
use serde_json::{Map, Value, json, put};
use std::alloc::{AllocError, Global};
use std::collections::BTreeMap;
use tokei_languages::name_of;
use tokei_stats::{CodeStats, Report};
use tokei_table::{LanguageTable, LanguageType};

/// Puts a value, where it could be made, under the name of the language.
pub(crate) fn put_named(
    members: &mut Map<String, Value>,
    alloc: Global,
    table: &LanguageTable,
    language: LanguageType,
    value: Result<Value, AllocError>,
) -> Result<(), AllocError>
    ensures { OnOk result (IsOkAnd value (λ v. members_view members.new.entries
        ≡ with_member (name_in table.now language) (view v) (members_view members.old.entries))) }
{
    match value {
        Ok(value) => put(members, alloc, name_of(table, language), value),
        Err(refused) => Err(refused),
    }
}

#[cycle(statistics)]
fn statistics_value(
    alloc: Global,
    table: &LanguageTable,
    stats: &CodeStats,
) -> Result<Value, AllocError>
    ensures { IfOk result (λ v. view v ≡ statistics_data table.now (stats_of stats.now)) }
{
    let blobs = blobs_value(alloc, table, &stats.blobs)?;
    let mut members = count_members(alloc, stats.own_counts())?;
    put(&mut members, alloc, "blobs", Value::Object(blobs))?;
    Ok(Value::Object(members))
}

#[cycle(statistics)]
fn blobs_value(
    alloc: Global,
    table: &LanguageTable,
    blobs: &BTreeMap<LanguageType, CodeStats>,
) -> Result<Map<String, Value>, AllocError>
    ensures { IfOk result (λ m. members_view m.entries
        ≡ blobs_data table.now (blobs_of (entries_of blobs.now.entries)) no_members) }
{
    let mut members = Map::new(alloc);
    for (language, stats) in blobs {
        let value = statistics_value(alloc, table, stats);
        put_named(&mut members, alloc, table, *language, value)?;
    }
    Ok(members)
}

fn report_value(alloc: Global, table: &LanguageTable, report: &Report) -> Result<Value, AllocError>
    ensures { IfOk result (λ v. view v ≡ report_data table.now (report_of report.now)) }
{
    let stats = statistics_value(alloc, table, &report.stats)?;
    json!(in alloc; {"name": &report.name, "stats": stats})
}

/// The reports, in their order. Out of memory is the only refusal.
pub fn reports_value(
    alloc: Global,
    table: &LanguageTable,
    reports: &Vec<Report>,
) -> Result<Value, AllocError>
    ensures { IfOk result (λ v. view v ≡ reports_data table.now (reports_of reports.now)) }
{
    let mut items = Vec::with_capacity(alloc, reports.len())?;
    for report in reports {
        let value = report_value(alloc, table, report)?;
        items.push(value)?;
    }
    Ok(Value::Array(items))
}

/// The reports of each language, by its name, with members in byte order. Out of memory is the only
/// refusal.
pub fn children_value(
    alloc: Global,
    table: &LanguageTable,
    children: &BTreeMap<LanguageType, Vec<Report>>,
) -> Result<Map<String, Value>, AllocError>
    ensures { IfOk result (λ m. members_view m.entries
        ≡ named_data table.now (reports_data table.now) (children_of children.now.entries)
        no_members) }
{
    let mut members = Map::new(alloc);
    for (language, reports) in children {
        let value = reports_value(alloc, table, reports);
        put_named(&mut members, alloc, table, *language, value)?;
    }
    Ok(members)
}

/// A file's report beside the name of its language, as one compact JSON text with no newline: a
/// line of a stream. Out of memory is the only refusal.
pub fn report_line(
    alloc: Global,
    table: &LanguageTable,
    language: LanguageType,
    report: &Report,
) -> Result<String, AllocError>
    ensures { IfOk result (λ s. string_bytes s
        ≡ compact_text (line_data table.now language (report_of report.now))) }
{
    let mut out = Writer::new(Vec::new(alloc));
    write_line(alloc, table, language, report, &mut out)?;
    Ok(text_of(out))
}
