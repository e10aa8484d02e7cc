//! A whole run: what is counted is written.
ghost use Rattle.std.specs.Prelude.{◌≡◌, ◌≢◌, ◌<◌, Err, IfErr, IfOk, OnOk};
ghost use Rattle.tokei_folders.specs.Answers.{Told};
ghost use Rattle.tokei_io.specs.declared.error.OutputError.TheVariants.{Overflow as SumOverflow, Write as WriteFault};
ghost use Rattle.tokei.specs.Output.{Outputs};
ghost use Rattle.tokei.specs.Runs.{languages_after};
ghost use Rattle.tokei.specs.Shapes.{HasBegun, HasShape, WritesSome};
ghost use Rattle.tokei.specs.Texts.{WritesText};
ghost use Rattle.tokei.specs.Refused.{IsBegun, IsUntouched};
ghost use Rattle.tokei.specs.Sums.{CountedFits, EarlierFits, Fits};
ghost use Rattle.tokei_folders.specs.AsTheyWere.{AsTheyWere};
ghost use Rattle.tokei_io.specs.Faults.{TellsFault, PassesNoFault};
ghost use Rattle.tokei.specs.JobNotes.{AreNotesOf};
ghost use Rattle.tokei_walk.specs.Notes.{Grows, notes_of_excludes};
ghost use Rattle.tokei_walk.specs.Walks.{texts_of};

use crate::counting::tally_of;
use crate::job::{Job, Wanted};
use crate::rows::Rows;
use crate::streaming::stream;
use crate::writing::text_of;
use std::alloc::Global;
use tokei_earlier::Format;
use tokei_folders::Folders;
use tokei_io::{OutputError, Sink, put};
use tokei_table::LanguageTable;
use tokei_walk::Note;

/// Counts the files of a job, and writes what was counted: a document in the format, or else the
/// printed report.
fn write_counted<F: Folders, W: Sink>(
    alloc: Global,
    table: &LanguageTable,
    folders: &mut F,
    job: &Job,
    format: Option<Format>,
    writer: &mut W,
) -> Result<Vec<Note>, OutputError>
    ensures folders { AsTheyWere F.tree F.memory_faults folders.old folders.new result }
    ensures told { Told (F.tree folders.old) (λ t. OnOk result (WritesText format table.now
        job.now (languages_after table.now job.now t)
        (W.contents writer.old) (W.contents writer.new))) }
    ensures overflow { result ≡ Err SumOverflow → Told (F.tree folders.old) (λ t.
        ¬ CountedFits format table.now job.now t) }
    ensures shaped { OnOk result (WritesSome format table.now job.now
        (W.contents writer.old) (W.contents writer.new)) }
    ensures untouched { IfErr result (λ e. e ≢ WriteFault
        → W.contents writer.new ≡ W.contents writer.old) }
    ensures fault { TellsFault W.faults writer.old writer.new result WriteFault }
    ensures no_fault { PassesNoFault W.faults writer.old writer.new result WriteFault }
    ensures notes { IfOk result (λ n.
        Grows (notes_of_excludes (texts_of job.now.ignored.items)) n.items) }
    ensures noted { Told (F.tree folders.old) (λ t. IfOk result (λ n.
        AreNotesOf table.now job.now t n.items)) }
{
    let tally = tally_of(alloc, table, folders, job)?;
    let text = text_of(alloc, table, job, format, tally.languages)?;
    put(writer, &text)?;
    Ok(tally.notes)
}

/// Counts the files of a job, beside the results of earlier runs, and writes what is wanted of
/// them. What was passed over is answered: what the walk met, and then each file that counts in a
/// language and can't be read.
///
/// `Overflow` comes only where a sum passes the greatest `usize`, and `Write` only where the writer
/// had a fault; after `Write` nothing is said of what was written. After `Memory` and `Overflow`
/// nothing of a document or a report is written; a stream isn't begun then, or ends behind a row.
/// The folders keep their tree.
pub fn run<F: Folders, W: Sink>(
    alloc: Global,
    table: &LanguageTable,
    folders: &mut F,
    job: &Job,
    writer: &mut W,
) -> Result<Vec<Note>, OutputError>
    ensures folders { AsTheyWere F.tree F.memory_faults folders.old folders.new result }
    ensures told { Told (F.tree folders.old) (λ t. OnOk result (Outputs job.now.wanted
        table.now job.now t (W.contents writer.old) (W.contents writer.new))) }
    ensures overflow { result ≡ Err SumOverflow → Told (F.tree folders.old) (λ t.
        ¬ Fits job.now.wanted table.now job.now t) }
    ensures shaped { OnOk result (HasShape job.now.wanted table.now job.now
        (W.contents writer.old) (W.contents writer.new)) }
    ensures begun { IfErr result (λ e. e ≢ WriteFault → HasBegun job.now.wanted table.now
        (W.contents writer.old) (W.contents writer.new)) }
    ensures untouched { IfErr result (λ e. e ≢ WriteFault
        → IsUntouched job.now.wanted (W.contents writer.old) (W.contents writer.new)) }
    ensures partly { Told (F.tree folders.old) (λ t. IfErr result (λ e. e ≢ WriteFault
        → IsBegun job.now.wanted table.now job.now t
        (W.contents writer.old) (W.contents writer.new))) }
    ensures earlier { OnOk result (EarlierFits job.now.wanted job.now) }
    ensures fault { TellsFault W.faults writer.old writer.new result WriteFault }
    ensures no_fault { PassesNoFault W.faults writer.old writer.new result WriteFault }
    ensures notes { IfOk result (λ n.
        Grows (notes_of_excludes (texts_of job.now.ignored.items)) n.items) }
    ensures noted { Told (F.tree folders.old) (λ t. IfOk result (λ n.
        AreNotesOf table.now job.now t n.items)) }
{
    match &job.wanted {
        Wanted::Stream(form) => {
            let rows = Rows {
                alloc,
                table,
                form: *form,
            };
            stream(&rows, folders, job, writer)
        }
        Wanted::Document(format) => {
            write_counted(alloc, table, folders, job, Some(*format), writer)
        }
        Wanted::Report => write_counted(alloc, table, folders, job, None, writer),
    }
}
