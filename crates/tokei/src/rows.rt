//! The rows of a stream, and its heading.
ghost use Rattle.std.specs.Prelude.{◌≡◌, ◌≢◌, ◌<◌, Err, IfErr, OnOk};
ghost use Rattle.std.specs.Io.KnownBytes.{Appends};
ghost use Rattle.tokei_stats.specs.Reports.{report_of as report_value};
ghost use Rattle.tokei_io.specs.declared.error.OutputError.TheVariants.{Overflow as SumOverflow, Write as WriteFault};
ghost use Rattle.tokei.specs.Rows.{heading_of, report_row};
ghost use Rattle.tokei_io.specs.Faults.{TellsFault, PassesNoFault};

use std::alloc::Global;
use tokei_io::{OutputError, Sink, put};
use tokei_json::report_line;
use tokei_languages::name_of;
use tokei_options::Streaming;
use tokei_print::{print_stream_heading, print_stream_row};
use tokei_stats::Report;
use tokei_table::{LanguageTable, LanguageType};

/// How the rows of a stream are written.
#[derive(Drop)]
pub struct Rows<'a> {
    pub alloc: Global,
    /// The table that names the languages.
    pub table: &'a LanguageTable,
    pub form: Streaming,
}

/// Writes the row of a report.
#[tactic(auto, using(tokei_io::proofs::Printing::printing_tells, tokei_io::proofs::Printing::printing_passes))]
pub fn write_row<W: Sink>(
    rows: &Rows,
    language: LanguageType,
    report: &Report,
    writer: &mut W,
) -> Result<(), OutputError>
    ensures bytes { OnOk result (Appends (W.contents writer.old) (W.contents writer.new)
        (report_row rows.now.form rows.now.table.now language (report_value report.now))) }
    ensures fault { TellsFault W.faults writer.old writer.new result WriteFault }
    ensures no_fault { PassesNoFault W.faults writer.old writer.new result WriteFault }
    ensures overflow { result ≢ Err SumOverflow }
    ensures untouched { IfErr result (λ e. e ≢ WriteFault
        → W.contents writer.new ≡ W.contents writer.old) }
{
    match rows.form {
        Streaming::Simple => {
            let name = name_of(rows.table, language);
            print_stream_row(rows.alloc, writer, name, report)
        }
        Streaming::Json => {
            let mut line = report_line(rows.alloc, rows.table, language, report)?;
            line.push('\n')?;
            put(writer, line.as_bytes())
        }
    }
}

/// Writes the heading of a stream, where it has one.
#[tactic(auto, using(tokei_io::proofs::Printing::printing_tells, tokei_io::proofs::Printing::printing_passes))]
pub fn write_heading<W: Sink>(form: Streaming, writer: &mut W) -> Result<(), OutputError>
    ensures bytes { OnOk result
        (Appends (W.contents writer.old) (W.contents writer.new) (heading_of form)) }
    ensures fault { TellsFault W.faults writer.old writer.new result WriteFault }
    ensures no_fault { PassesNoFault W.faults writer.old writer.new result WriteFault }
    ensures overflow { result ≢ Err SumOverflow }
    ensures untouched { IfErr result (λ e. e ≢ WriteFault
        → W.contents writer.new ≡ W.contents writer.old) }
{
    match form {
        Streaming::Json => Ok(()),
        Streaming::Simple => print_stream_heading(writer),
    }
}
