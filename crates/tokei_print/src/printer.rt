//! Writes the rows of a report.
use crate::language_row::language_row;
use crate::layout::Layout;
use crate::results::{Showing, results};
use crate::total::total;
use std::alloc::Global;
use tokei_io::{OutputError, Sink, put};
use tokei_languages::{Language, Languages};
use tokei_options::NumberFormat;
use tokei_stats::CountError;
use tokei_table::{LanguageTable, LanguageType};

/// The note that counts can be inaccurate.
const WARNING: &str = "Note: results can be inaccurate for languages marked with '(!)'\n";

/// Writes the rows of a report to a sink. After a refused call nothing is said of the bytes that it
/// wrote.
#[derive(Drop)]
pub struct Printer<W> {
    pub layout: Layout,
    pub writer: W,
    alloc: Global,
}

impl<W: Sink + Drop> Printer<W> {
    ghost use Rattle.std.specs.Prelude.{◌≡◌, ◌≢◌, ◌≤◌, ℕ, List, Ok, Err, None, Some, IfOk, IfErr, IsErrOf, IsOk, OnOk, option_map, string_bytes};
    ghost use Rattle.std.specs.Io.KnownBytes.{Appends};
    ghost use Rattle.tokei_languages.specs.Seen.{language_of, languages_of};
    ghost use Rattle.tokei_print.specs.LinesFit.{LinesFit};
    ghost use Rattle.tokei_print.specs.Heading.{header, warning};
    ghost use Rattle.tokei_print.specs.LanguageRow.{language_row};
    ghost use Rattle.tokei_print.specs.NameSection.{name_section, prefix_of};
    ghost use Rattle.tokei_io.specs.Printing.{CountsWriteFault};
    ghost use Rattle.tokei_print.specs.ListedLanguages.{languages_in};
    ghost use Rattle.tokei_languages.specs.Names.{name_in};
    ghost use Rattle.tokei_print.specs.Results.{results_text};
    ghost use Rattle.tokei_print.specs.ResultsFit.{ResultsFit};
    ghost use Rattle.tokei_print.specs.Total.{total_text, TotalFits};

    /// A printer of rows of so many columns, which lists each language's files where `list_files`
    /// says so.
    pub fn new(
        alloc: Global,
        columns: usize,
        list_files: bool,
        writer: W,
        format: NumberFormat,
    ) -> Result<Printer<W>, OutputError>
        requires wide { 81 ≤ columns }
        requires narrow { columns ≤ 65535 }
        ensures writer { IfOk result (λ printer. printer.writer ≡ writer) }
        ensures columns { IfOk result (λ printer. printer.layout.columns ≡ columns) }
        ensures files { IfOk result (λ printer. printer.layout.list_files ≡ list_files) }
        ensures format { IfOk result (λ printer. printer.layout.format ≡ format) }
        ensures memory { IfErr result (λ e. e ≡ OutputError.Memory) }
    {
        let layout = Layout::new(alloc, columns, list_files, format)?;
        Ok(Printer {
            layout,
            writer,
            alloc,
        })
    }

    /// Puts the text behind what stands in the writer, where it was made.
    fn put_made(&mut self, text: Result<String, CountError>) -> Result<(), OutputError>
        ensures bytes { (bytes : List ℕ) → IfOk text (λ s. string_bytes s ≡ bytes) → OnOk result
            (Appends (W.contents self.old.writer) (W.contents self.new.writer) bytes) }
        ensures faults { CountsWriteFault W.faults self.old.writer self.new.writer result }
        ensures made { OnOk result (IsOk text) }
        ensures overflow { IsErrOf result OutputError.Overflow → IsErrOf text CountError.Overflow }
        ensures layout { self.new.layout ≡ self.old.layout }
    {
        put(&mut self.writer, text?.as_bytes())
    }

    /// The names of the columns, between two rows.
    pub fn print_header(&mut self) -> Result<(), OutputError>
        ensures bytes { OnOk result (Appends (W.contents self.old.writer)
            (W.contents self.new.writer) (header self.old.layout.columns)) }
        ensures faults { CountsWriteFault W.faults self.old.writer self.new.writer result }
        ensures overflow { result ≢ Err OutputError.Overflow }
        ensures layout { self.new.layout ≡ self.old.layout }
    {
        let text = self.layout.header(self.alloc)?;
        put(&mut self.writer, text.as_bytes())
    }

    /// The note that counts can be inaccurate.
    pub fn print_inaccuracy_warning(&mut self) -> Result<(), OutputError>
        ensures bytes { OnOk result
            (Appends (W.contents self.old.writer) (W.contents self.new.writer) warning) }
        ensures faults { CountsWriteFault W.faults self.old.writer self.new.writer result }
        ensures overflow { result ≢ Err OutputError.Overflow }
        ensures layout { self.new.layout ≡ self.old.layout }
    {
        put(&mut self.writer, WARNING.as_bytes())
    }

    /// The name at the head of a row, with the mark of an inaccurate language, and no newline.
    pub fn print_language_name(
        &mut self,
        inaccurate: bool,
        name: &str,
        prefix: Option<&str>,
    ) -> Result<(), OutputError>
        ensures bytes { OnOk result (Appends (W.contents self.old.writer)
            (W.contents self.new.writer)
            (name_section self.old.layout.columns inaccurate name.now
            (prefix_of (option_map (λ p. p.now) prefix.entry)))) }
        ensures faults { CountsWriteFault W.faults self.old.writer self.new.writer result }
        ensures overflow { result ≢ Err OutputError.Overflow }
        ensures layout { self.new.layout ≡ self.old.layout }
    {
        let prefix = prefix.unwrap_or("");
        let text = self
            .layout
            .name_section(self.alloc, inaccurate, name, prefix)?;
        put(&mut self.writer, text.as_bytes())
    }

    /// A language's row under this name. `Overflow` only where its lines pass the greatest `usize`.
    pub fn print_language(&mut self, language: &Language, name: &str) -> Result<(), OutputError>
        ensures bytes { OnOk result (Appends (W.contents self.old.writer)
            (W.contents self.new.writer)
            (language_row self.old.layout (language_of language.now) name.now)) }
        ensures faults { CountsWriteFault W.faults self.old.writer self.new.writer result }
        ensures fits { OnOk result (LinesFit (language_of language.now).counts) }
        ensures overflow { IsErrOf result OutputError.Overflow
            → ¬ LinesFit (language_of language.now).counts }
        ensures layout { self.new.layout ≡ self.old.layout }
    {
        let text = language_row(&self.layout, self.alloc, language, name);
        self.put_made(text)
    }

    /// The rows of the languages: first those without children, then the others, each group in the
    /// order given. Where `compact`, no language has children. Listed files stand by name, unless
    /// they are `sorted` already. A language that isn't of the table has an empty name. `Overflow`
    /// only where a sum that a row shows passes the greatest `usize`.
    pub fn print_results(
        &mut self,
        table: &LanguageTable,
        languages: &[(LanguageType, &Language)],
        compact: bool,
        sorted: bool,
    ) -> Result<(), OutputError>
        ensures bytes { OnOk result (Appends (W.contents self.old.writer)
            (W.contents self.new.writer)
            (results_text self.old.layout (name_in table.now) compact sorted
            (languages_in languages.now))) }
        ensures faults { CountsWriteFault W.faults self.old.writer self.new.writer result }
        ensures overflow { IsErrOf result OutputError.Overflow
            → ¬ ResultsFit self.old.layout.list_files compact sorted (languages_in languages.now) }
        ensures layout { self.new.layout ≡ self.old.layout }
    {
        let showing = Showing {
            table,
            compact,
            sorted,
        };
        let text = results(&self.layout, self.alloc, showing, languages);
        self.put_made(text)
    }

    /// The row of all languages together, between two rows. `Overflow` only where a sum that it
    /// shows passes the greatest `usize`.
    pub fn print_total(&mut self, languages: &Languages) -> Result<(), OutputError>
        ensures bytes { OnOk result (Appends (W.contents self.old.writer)
            (W.contents self.new.writer)
            (total_text self.old.layout (languages_of languages.now))) }
        ensures faults { CountsWriteFault W.faults self.old.writer self.new.writer result }
        ensures overflow { IsErrOf result OutputError.Overflow
            → ¬ TotalFits (languages_of languages.now) }
        ensures layout { self.new.layout ≡ self.old.layout }
    {
        let text = total(&self.layout, self.alloc, languages);
        self.put_made(text)
    }
}
