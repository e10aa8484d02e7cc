//! The printed report of languages.
ghost use Rattle.std.specs.Prelude.{◌≡◌, ◌≢◌, ◌≤◌, ◌++◌, [], Err, IfOk, OnOk};
ghost use Rattle.tokei_languages.specs.Seen.{languages_of};
ghost use Rattle.tokei_languages.specs.Sorting.{sorted_languages};
ghost use Rattle.tokei_print.specs.ListedLanguages.{languages_in};
ghost use Rattle.tokei_print.specs.PrintedReports.{columns_of, report_text, warning_of};
ghost use Rattle.tokei_print.specs.PrintedReports.{IsReport, IsPrintedReport};
ghost use Rattle.tokei_print.specs.Sorted.{listed_by};
ghost use Rattle.tokei_print.specs.ReportSums.{ReportFits, PrintedReportFits};
ghost use Rattle.tokei_stats.specs.declared.error.CountError.TheVariants.{Overflow};

use crate::order::{in_list_order, listed};
use crate::printer::Printer;
use crate::style::ReportStyle;
use std::alloc::Global;
use tokei_io::{Counted, OutputError};
use tokei_languages::{Language, Languages};
use tokei_options::Sort;
use tokei_options::columns::FALLBACK_ROW_LEN;
use tokei_stats::CountError;
use tokei_table::{LanguageTable, LanguageType};

/// The width of a report: 81 at least, and 65,535 at most.
fn columns(asked: usize) -> usize
    ensures value { result ≡ columns_of asked }
    ensures wide { 81 ≤ result }
    ensures narrow { result ≤ 65535 }
{
    asked.clamp(FALLBACK_ROW_LEN, 65535)
}

/// Writes the note above a report some of whose languages couldn't be counted whole.
fn warn(printer: &mut Printer<Counted<Vec<u8>>>, languages: &Languages) -> Result<(), OutputError>
    ensures bytes { OnOk result (printer.new.writer.inner.items
        ≡ printer.old.writer.inner.items ++ warning_of (languages_of languages.now)) }
    ensures layout { printer.new.layout ≡ printer.old.layout }
    ensures overflow { result ≢ Err OutputError.Overflow }
{
    if languages.is_inaccurate() {
        return printer.print_inaccuracy_warning();
    }
    Ok(())
}

/// Writes the report of languages, of which these are listed in this order, by a printer that has
/// written nothing.
fn print_report(
    printer: &mut Printer<Counted<Vec<u8>>>,
    table: &LanguageTable,
    style: ReportStyle,
    listed: &[(LanguageType, &Language)],
    languages: &Languages,
) -> Result<(), OutputError>
    requires empty { printer.old.writer.inner.items ≡ [] }
    requires files { printer.old.layout.list_files ≡ style.files }
    ensures text { OnOk result (printer.new.writer.inner.items
        ≡ report_text printer.old.layout table.now style (languages_in listed.now)
        (languages_of languages.now)) }
    ensures overflow { result ≡ Err OutputError.Overflow
        → ¬ ReportFits style (languages_in listed.now) (languages_of languages.now) }
{
    let sorted = style.sort.is_some();
    warn(printer, languages)?;
    printer.print_header()?;
    printer.print_results(table, listed, style.compact, sorted)?;
    printer.print_total(languages)
}

/// The report of languages, of which these are listed in this order. It is made in memory.
fn printed(
    alloc: Global,
    table: &LanguageTable,
    style: ReportStyle,
    listed: &[(LanguageType, &Language)],
    languages: &Languages,
) -> Result<Vec<u8>, OutputError>
    ensures text { IfOk result (λ v.
        IsReport table.now style (languages_in listed.now) (languages_of languages.now) v.items) }
    ensures overflow { result ≡ Err OutputError.Overflow
        → ¬ ReportFits style (languages_in listed.now) (languages_of languages.now) }
{
    let buffer = Counted::new(Vec::new(alloc));
    let format = style.numbers.get_format();
    let mut printer = Printer::new(alloc, columns(style.columns), style.files, buffer, format)?;
    print_report(&mut printer, table, style, listed, languages)?;
    Ok(printer.writer.inner)
}

/// As `printed`. A writer in memory has no fault but that memory ran out.
fn text_in_memory(
    alloc: Global,
    table: &LanguageTable,
    style: ReportStyle,
    listed: &[(LanguageType, &Language)],
    languages: &Languages,
) -> Result<Vec<u8>, CountError>
    ensures text { IfOk result (λ v.
        IsReport table.now style (languages_in listed.now) (languages_of languages.now) v.items) }
    ensures overflow { result ≡ Err Overflow
        → ¬ ReportFits style (languages_in listed.now) (languages_of languages.now) }
{
    match printed(alloc, table, style, listed, languages) {
        Ok(text) => Ok(text),
        Err(OutputError::Overflow) => Err(CountError::Overflow),
        Err(OutputError::Memory | OutputError::Write) => Err(CountError::Memory),
    }
}

/// The report of languages in the table's order.
fn report(
    alloc: Global,
    table: &LanguageTable,
    style: ReportStyle,
    languages: &Languages,
) -> Result<Vec<u8>, CountError>
    ensures text { IfOk result (λ v. IsReport table.now style (languages_of languages.now)
        (languages_of languages.now) v.items) }
    ensures overflow { result ≡ Err Overflow
        → ¬ ReportFits style (languages_of languages.now) (languages_of languages.now) }
{
    let all = listed(alloc, languages)?;
    text_in_memory(alloc, table, style, &all, languages)
}

/// The report of languages in the order of the sort.
fn sorted_report(
    alloc: Global,
    table: &LanguageTable,
    style: ReportStyle,
    sort: Sort,
    languages: Languages,
) -> Result<Vec<u8>, CountError>
    ensures text { IfOk result (λ v. IsReport table.now style
        (listed_by sort style.reverse (languages_of languages))
        (sorted_languages sort (languages_of languages)) v.items) }
    ensures overflow { result ≡ Err Overflow → ¬ ReportFits style
        (listed_by sort style.reverse (languages_of languages))
        (sorted_languages sort (languages_of languages)) }
{
    let languages = languages.with_sorted_reports(sort)?;
    let all = in_list_order(alloc, sort, style.reverse, &languages)?;
    text_in_memory(alloc, table, style, &all, &languages)
}

/// The report of languages, sorted where its style says so. `Overflow` only where a sum that it
/// shows passes the greatest `usize`, or `Memory`.
pub fn text_of_report(
    alloc: Global,
    table: &LanguageTable,
    style: ReportStyle,
    languages: Languages,
) -> Result<Vec<u8>, CountError>
    ensures text { IfOk result (λ v. IsPrintedReport table.now style
        (languages_of languages) v.items) }
    ensures overflow { result ≡ Err Overflow
        → ¬ PrintedReportFits style (languages_of languages) }
{
    match style.sort {
        None => report(alloc, table, style, &languages),
        Some(sort) => sorted_report(alloc, table, style, sort, languages),
    }
}
