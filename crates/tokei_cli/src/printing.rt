//! What the program prints beside reports: the list of languages, and that earlier results were
//! refused.
ghost use Rattle.std.specs.Prelude.{◌≡◌, ◌≢◌, Err, IfOk, OnOk, string_bytes};
ghost use Rattle.std.specs.Io.KnownBytes.{Appends};
ghost use Rattle.tokei_table_row.specs.RowOf.{tokens_of};
ghost use Rattle.tokei_cli.specs.Printing.{list_line, extensions_text, languages_text, failure_text};
ghost use Rattle.tokei_io.specs.Printing.{CountsWriteFault};

use std::alloc::{AllocError, Global};
use tokei_io::{OutputError, Sink, put};
use tokei_table::{LanguageTable, LanguageType};

/// A line of the list: a name left in 40 places, a space, and what stands beside it.
#[tactic(auto, using(tokei_stats::proofs::Padding::styled_left))]
fn list_line(alloc: Global, name: &str, beside: &str) -> Result<String, AllocError>
    ensures { IfOk result (λ s. string_bytes s ≡ list_line name.now beside.now) }
{
    format!(in alloc; "{name:<40} {beside}\n")
}

/// The line of a language with these extensions.
fn row_line(alloc: Global, name: &str, extensions: &[String]) -> Result<String, AllocError>
    ensures { IfOk result (λ s. string_bytes s
        ≡ list_line name.now (extensions_text (tokens_of extensions.now))) }
{
    if extensions.is_empty() {
        list_line(alloc, name, "<None>")
    } else {
        list_line(alloc, name, &extensions.join(alloc, ", ")?)
    }
}

/// The list of the languages, in the order of the table.
fn languages_text(alloc: Global, table: &LanguageTable) -> Result<String, AllocError>
    ensures { IfOk result (λ s. string_bytes s ≡ languages_text table.now) }
{
    let languages = LanguageType::list(alloc, table)?;
    let mut text = list_line(alloc, "Language", "Extensions")?;
    for (language, extensions) in &languages {
        text.push_str(&row_line(alloc, language.name(table), extensions)?)?;
    }
    Ok(text)
}

/// Prints the languages with their extensions. After a fault of the writer nothing is said of the
/// bytes that were written; where memory runs out none are.
pub fn print_supported_languages<S: Sink>(
    alloc: Global,
    table: &LanguageTable,
    writer: &mut S,
) -> Result<(), OutputError>
    ensures bytes { OnOk result
        (Appends (S.contents writer.old) (S.contents writer.new) (languages_text table.now)) }
    ensures faults { CountsWriteFault S.faults writer.old writer.new result }
    ensures memory { result ≡ Err OutputError.Memory → writer.new ≡ writer.old }
    ensures overflow { result ≢ Err OutputError.Overflow }
{
    let text = languages_text(alloc, table)?;
    put(writer, text.as_bytes())
}

/// Prints that the earlier results of this name were refused. After a fault of the writer nothing
/// is said of the bytes that were written; where memory runs out none are.
pub fn print_input_parse_failure<S: Sink>(
    alloc: Global,
    name: &str,
    writer: &mut S,
) -> Result<(), OutputError>
    ensures bytes { OnOk result
        (Appends (S.contents writer.old) (S.contents writer.new) (failure_text name.now)) }
    ensures faults { CountsWriteFault S.faults writer.old writer.new result }
    ensures memory { result ≡ Err OutputError.Memory → writer.new ≡ writer.old }
    ensures overflow { result ≢ Err OutputError.Overflow }
{
    let text = format!(in alloc; "Error:\n Failed to parse input file: {name}\n")?;
    put(writer, text.as_bytes())
}
