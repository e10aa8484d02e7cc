//! The rows of a stream of columns.
ghost use Rattle.std.specs.Prelude.{◌≡◌, ◌≢◌, Err, IfErr, IfOk, OnOk, string_bytes};
ghost use Rattle.std.specs.Io.KnownBytes.{Appends};
ghost use Rattle.tokei_stats.specs.Seen.{counts_of};
ghost use Rattle.tokei_io.specs.Printing.{CountsWriteFault};
ghost use Rattle.tokei_print.specs.StreamRows.{stream_heading, stream_row};

use std::alloc::{AllocError, Global};
use tokei_io::{OutputError, Sink, put};
use tokei_stats::shown::shown;
use tokei_stats::{CountsCells, Report};

/// The two rows above a stream of columns.
const HEADING: &str =
    "# language                                        path                                          lines         code       comments      blanks   \n########## ################################################################################ ############ ############ ############ ############\n";

/// Writes the two rows above a stream of columns. After a fault of the writer, the only refusal,
/// nothing is said of what was written.
pub fn print_stream_heading<W: Sink>(writer: &mut W) -> Result<(), OutputError>
    ensures bytes { OnOk result
        (Appends (W.contents writer.old) (W.contents writer.new) stream_heading) }
    ensures faults { CountsWriteFault W.faults writer.old writer.new result }
    ensures overflow { result ≢ Err OutputError.Overflow }
    ensures untouched { IfErr result (λ e. e ≢ OutputError.Write
        → W.contents writer.new ≡ W.contents writer.old) }
{
    put(writer, HEADING.as_bytes())
}

/// A file's row in a stream of columns.
fn stream_row(alloc: Global, language: &str, report: &Report) -> Result<String, AllocError>
    ensures { IfOk result (λ s. string_bytes s
        ≡ stream_row language.now (string_bytes report.now.name) (counts_of report.now.stats)) }
{
    let path = shown(alloc, &report.name)?;
    let path = path.as_str();
    let counts = report.stats.own_counts();
    let cells = CountsCells {
        blanks: counts.blanks,
        code: counts.code,
        comments: counts.comments,
    };
    format!(in alloc; "{language:>10} {path:<80}{cells}\n")
}

/// Writes the file's row of a stream of columns, under the name of its language. Where memory runs
/// out nothing is written; after a fault of the writer nothing is said of that.
pub fn print_stream_row<W: Sink>(
    alloc: Global,
    writer: &mut W,
    language: &str,
    report: &Report,
) -> Result<(), OutputError>
    ensures bytes { OnOk result (Appends (W.contents writer.old) (W.contents writer.new)
        (stream_row language.now (string_bytes report.now.name) (counts_of report.now.stats))) }
    ensures faults { CountsWriteFault W.faults writer.old writer.new result }
    ensures overflow { result ≢ Err OutputError.Overflow }
    ensures untouched { IfErr result (λ e. e ≢ OutputError.Write
        → W.contents writer.new ≡ W.contents writer.old) }
{
    let text = stream_row(alloc, language, report)?;
    put(writer, text.as_bytes())
}
