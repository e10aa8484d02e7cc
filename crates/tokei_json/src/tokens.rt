//! Statistics and reports as JSON tokens, written without a value of them.
ghost use Rattle.std.specs.Prelude.{◌≡◌, [], map, IfOk, OnOk, string_bytes};
ghost use Rattle.json.specs.Lex.{tokens};
ghost use Rattle.json.specs.Print.{print};
ghost use Rattle.serde_json.specs.Data.{object, no_members, string};
ghost use Rattle.tokei_json.specs.ReportData.{count as count_data, statistics_data, blobs_data, report_data};
ghost use Rattle.tokei_json.specs.ReportData.{line_data, reports_data};
ghost use Rattle.tokei_json.specs.Tokens.{IsMember, IsWritten, children_members, named};
ghost use Rattle.tokei_stats.specs.Reports.{report_of};
ghost use Rattle.tokei_stats.specs.Seen.{blobs_of, entries_of, stats_of};

use json::Writer;
use std::alloc::{AllocError, Global};
use std::collections::BTreeMap;
use std::collections::btree_map::Iter;
use tokei_languages::name_of;
use tokei_stats::{CodeStats, Report};
use tokei_table::{LanguageTable, LanguageType};

/// The values by the names of their languages; of two under one name the later one stays.
pub(crate) fn by_name<'a, T>(
    alloc: Global,
    table: &'a LanguageTable,
    values: Iter<'a, LanguageType, T>,
) -> Result<BTreeMap<&'a str, &'a T>, AllocError>
    ensures { IfOk result (λ m. map (λ e. (e.0.now, e.1.now)) m.entries
        ≡ named table.entry.now values.entry []) }
{
    let mut members = BTreeMap::new(alloc);
    for (language, value) in values {
        match members.insert(name_of(table, *language), value) {
            Ok(_old) => {}
            Err(_refused) => return Err(AllocError),
        }
    }
    Ok(members)
}

/// Writes a member that is a count.
pub(crate) fn write_count(out: &mut Writer, name: &str, count: usize) -> Result<(), AllocError>
    ensures { OnOk result (IsMember name.now (count_data count) out.old out.new) }
{
    out.key(name)?;
    out.u64(count as u64)
}

/// Writes a member that is a text.
fn write_text(out: &mut Writer, name: &str, text: &str) -> Result<(), AllocError>
    ensures { OnOk result (IsMember name.now (string text.now) out.old out.new) }
{
    out.key(name)?;
    out.string(text)
}

/// Writes a member that is statistics.
#[cycle(statistics)]
fn write_statistics(
    alloc: Global,
    table: &LanguageTable,
    name: &str,
    stats: &CodeStats,
    out: &mut Writer,
) -> Result<(), AllocError>
    ensures { OnOk result
        (IsMember name.now (statistics_data table.now (stats_of stats.now)) out.old out.new) }
{
    out.key(name)?;
    out.begin_object()?;
    write_count(out, "blanks", stats.blanks)?;
    out.key("blobs")?;
    write_blobs(alloc, table, &stats.blobs, out)?;
    write_count(out, "code", stats.code)?;
    write_count(out, "comments", stats.comments)?;
    out.end_object()
}

#[cycle(statistics)]
fn write_blobs(
    alloc: Global,
    table: &LanguageTable,
    blobs: &BTreeMap<LanguageType, CodeStats>,
    out: &mut Writer,
) -> Result<(), AllocError>
    ensures { OnOk result (IsWritten
        (object (blobs_data table.now (blobs_of (entries_of blobs.now.entries)) no_members))
        out.old out.new) }
{
    out.begin_object()?;
    let members = by_name(alloc, table, blobs.iter())?;
    for (name, stats) in &members {
        write_statistics(alloc, table, *name, *stats, out)?;
    }
    out.end_object()
}

fn write_report(
    alloc: Global,
    table: &LanguageTable,
    report: &Report,
    out: &mut Writer,
) -> Result<(), AllocError>
    ensures { OnOk result
        (IsWritten (report_data table.now (report_of report.now)) out.old out.new) }
{
    out.begin_object()?;
    write_text(out, "name", report.name.as_str())?;
    write_statistics(alloc, table, "stats", &report.stats, out)?;
    out.end_object()
}

/// Writes a file's report beside the name of its language.
pub(crate) fn write_line(
    alloc: Global,
    table: &LanguageTable,
    language: LanguageType,
    file: &Report,
    out: &mut Writer,
) -> Result<(), AllocError>
    ensures { OnOk result
        (IsWritten (line_data table.now language (report_of file.now)) out.old out.new) }
{
    out.begin_object()?;
    write_text(out, "language", name_of(table, language))?;
    out.key("stats")?;
    write_report(alloc, table, file, out)?;
    out.end_object()
}

/// Writes a member that is the reports, in their order.
pub(crate) fn write_reports(
    alloc: Global,
    table: &LanguageTable,
    name: &str,
    reports: &[Report],
    out: &mut Writer,
) -> Result<(), AllocError>
    ensures { OnOk result
        (IsMember name.now (reports_data table.now (map report_of reports.now)) out.old out.new) }
{
    out.key(name)?;
    out.begin_array()?;
    for report in reports {
        write_report(alloc, table, report, out)?;
    }
    out.end_array()
}

/// Writes the reports under each name.
pub(crate) fn write_children(
    alloc: Global,
    table: &LanguageTable,
    children: &BTreeMap<&str, &Vec<Report>>,
    out: &mut Writer,
) -> Result<(), AllocError>
    ensures { OnOk result
        (IsWritten (object (children_members table.now children.now.entries)) out.old out.new) }
{
    out.begin_object()?;
    for (name, reports) in children {
        write_reports(alloc, table, *name, reports.as_slice(), out)?;
    }
    out.end_object()
}

/// The text of what is written.
pub(crate) fn text_of(out: Writer) -> String
    requires { out.before ≡ [] }
    ensures printed { string_bytes result ≡ print out.tokens }
    ensures reads_back { tokens (string_bytes result) ≡ out.tokens }
{
    match String::from_utf8(out.into_inner()) {
        Ok(text) => text,
        Err(_) => unreachable!(),
    }
}
