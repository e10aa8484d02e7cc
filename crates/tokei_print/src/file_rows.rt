//! The rows of a language's files.
ghost use Rattle.std.specs.Prelude.{◌≡◌, IfOk, IsErrOf, filter, not, string_bytes};
ghost use Rattle.tokei_languages.specs.Names.{name_in};
ghost use Rattle.tokei_print.specs.FileRows.{file_block, file_blocks, file_row, file_rows, has_row_alone};
ghost use Rattle.tokei_print.specs.FileRows.{listed_files};
ghost use Rattle.tokei_print.specs.FilesFit.{FileBlockFits, FileBlocksFit};
ghost use Rattle.tokei_print.specs.ListedReports.{reports_in};
ghost use Rattle.tokei_stats.specs.Reports.{report_of};

use crate::joined::joined;
use crate::layout::Layout;
use std::alloc::{AllocError, Global};
use tokei_stats::shown::shown;
use tokei_stats::{CountError, CountsCells, Report, ReportRow};
use tokei_table::LanguageTable;

/// The language whose files are listed.
#[derive(Clone, Copy)]
pub struct ListedLanguage<'a> {
    /// Of whose languages those inside are.
    pub table: &'a LanguageTable,
    pub name: &'a str,
    pub inaccurate: bool,
}

/// Whether the file has a row alone: no other language is inside, or the rows are compact.
fn has_row_alone(report: &Report, compact: bool) -> bool
    ensures { result ≡ has_row_alone compact (report_of report.now) }
{
    compact || report.stats.blobs.is_empty()
}

/// A report's row of its own counts, under its name as it is shown.
fn file_row(layout: &Layout, alloc: Global, report: &Report) -> Result<String, AllocError>
    ensures { IfOk result (λ s. string_bytes s ≡ file_row layout.now (report_of report.now)) }
{
    let name = shown(alloc, &report.name)?;
    let counts = CountsCells {
        blanks: report.stats.blanks,
        code: report.stats.code,
        comments: report.stats.comments,
    };
    let row = ReportRow::new(&name, counts, layout.columns - 56);
    format!(in alloc; "{row}\n")
}

/// The rows of the files that have a row alone.
fn file_rows(
    layout: &Layout,
    alloc: Global,
    reports: &[&Report],
    compact: bool,
) -> Result<String, AllocError>
    ensures { IfOk result (λ s. string_bytes s
        ≡ file_rows layout.now (filter (has_row_alone compact) (reports_in reports.now))) }
{
    let mut rows = String::new(alloc);
    for report in reports {
        if has_row_alone(report, compact) {
            rows.push_str(&file_row(layout, alloc, report)?)?;
        }
    }
    Ok(rows)
}

/// The rows of a file that holds other languages.
fn file_block(
    layout: &Layout,
    alloc: Global,
    language: ListedLanguage,
    first: bool,
    report: &Report,
) -> Result<String, CountError>
    ensures ok { IfOk result (λ s. string_bytes s ≡ file_block layout.now
        (name_in language.entry.table.now) language.entry.inaccurate language.entry.name.now first
        (report_of report.now)) }
    ensures overflow { IsErrOf result CountError.Overflow → ¬ FileBlockFits (report_of report.now) }
{
    let sums = report.stats.summary_counts()?;
    let line = layout.name_line(alloc, &shown(alloc, &report.name)?, first)?;
    let own = layout.own_row(alloc, language.name, &report.stats)?;
    let begun = joined(line, Ok(own))?;
    let blobs = layout.blob_rows(
        alloc,
        language.table,
        language.inaccurate,
        &report.stats.blobs,
    );
    let rows = joined(begun, blobs)?;
    joined(rows, layout.subtotal(alloc, "|- (Total)", sums))
}

/// The rows of the files that have no row alone.
fn file_blocks(
    layout: &Layout,
    alloc: Global,
    language: ListedLanguage,
    compact: bool,
    first: bool,
    reports: &[&Report],
) -> Result<String, CountError>
    ensures ok { IfOk result (λ s. string_bytes s ≡ file_blocks layout.now
        (name_in language.entry.table.now) language.entry.inaccurate language.entry.name.now first
        (filter (λ r. not (has_row_alone compact r)) (reports_in reports.now))) }
    ensures overflow { IsErrOf result CountError.Overflow
        → ¬ FileBlocksFit (filter (λ r. not (has_row_alone compact r)) (reports_in reports.now)) }
{
    let mut rows = String::new(alloc);
    let mut is_first = first;
    for report in reports {
        if !has_row_alone(report, compact) {
            rows = joined(rows, file_block(layout, alloc, language, is_first, report))?;
            is_first = false;
        }
    }
    Ok(rows)
}

/// The rows of files in this order: those with a row alone first.
pub fn listed_files(
    layout: &Layout,
    alloc: Global,
    language: ListedLanguage,
    compact: bool,
    reports: &[&Report],
) -> Result<String, CountError>
    ensures ok { IfOk result (λ s. string_bytes s ≡ listed_files layout.now
        (name_in language.entry.table.now) compact language.entry.inaccurate language.entry.name.now
        (reports_in reports.now)) }
    ensures overflow { IsErrOf result CountError.Overflow
        → ¬ FileBlocksFit (filter (λ r. not (has_row_alone compact r)) (reports_in reports.now)) }
{
    let rows = file_rows(layout, alloc, reports, compact)?;
    let first = rows.is_empty();
    joined(
        rows,
        file_blocks(layout, alloc, language, compact, first, reports),
    )
}
