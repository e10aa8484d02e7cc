//! A row for each file, written as it is counted.
ghost use Rattle.std.specs.Prelude.{◌≡◌, ◌≢◌, ◌<◌, ◌++◌, Err, IfErr, IfOk, IsErrOf, OnOk, true};
ghost use Rattle.std.specs.Io.KnownBytes.{Appends};
ghost use Rattle.tokei_folders.specs.Answers.{Told};
ghost use Rattle.tokei_folders.specs.Tree.{Tree, is_sound};
ghost use Rattle.tokei_languages.specs.Renewing.{RenewalFits};
ghost use Rattle.tokei_files.specs.Files.{FileFits, ReadingsFit};
ghost use Rattle.tokei_files.specs.Seen.{counting_of as counting_value};
ghost use Rattle.tokei_files.specs.Unread.{NotesAre, unread_of, unread_of_file};
ghost use Rattle.tokei_walk.specs.Noted.{NotesSay};
ghost use Rattle.tokei_walk.specs.Notes.{Grows, notes_of, notes_of_excludes};
ghost use Rattle.tokei_walk.specs.Walks.{noted_to_come, texts_of, to_come};
ghost use Rattle.tokei_io.specs.declared.error.OutputError.TheVariants.{Overflow as SumOverflow, Write as WriteFault};
ghost use Rattle.tokei.specs.Earlier.{earlier_of};
ghost use Rattle.tokei.specs.Counted.{files_of};
ghost use Rattle.tokei.specs.JobNotes.{AreNotesOf, walk_notes};
ghost use Rattle.tokei.specs.JobStreams.{BeginsJobStream, BeginsStream, StreamFits, WritesFirst, WritesStream};
ghost use Rattle.tokei.specs.Shapes.{HasBegun, WritesSomeRows, WritesSomeStream};
ghost use Rattle.tokei.specs.Streams.{file_row, rows_of, stream_text};
ghost use Rattle.tokei.specs.declared.job.Wanted.TheVariants.{Stream};
ghost use Rattle.tokei_folders.specs.AsTheyWere.{AsTheyWere};
ghost use Rattle.tokei_io.specs.Faults.{TellsFault, PassesNoFault};

use crate::earlier::earlier_languages;
use crate::job::Job;
use crate::rows::{Rows, write_heading, write_row};
use std::alloc::{AllocError, Global};
use tokei_count::Counter;
use tokei_files::{Counting, ParseFault, note_unread, rules, types};
use tokei_folders::Folders;
use tokei_io::{OutputError, Sink};
use tokei_stats::{CountError, Report};
use tokei_walk::{KeptFile, Note, Walk};

/// By what the files of a stream are counted, and how their rows are written.
#[derive(Drop)]
struct Streamed<'a, 't> {
    counting: &'a Counting<'a, 't>,
    rows: &'a Rows<'a>,
}

/// Counts a file, and writes its row, where it counts in a language and can be read; a note is
/// added where it can't.
fn write_file<F: Folders, W: Sink>(
    by: &Streamed,
    folders: &mut F,
    file: KeptFile,
    writer: &mut W,
    unread: &mut Vec<Note>,
) -> Result<(), OutputError>
    ensures folders { AsTheyWere F.tree F.memory_faults folders.old folders.new result }
    ensures told { Told (F.tree folders.old) (λ t. OnOk result
        (Appends (W.contents writer.old) (W.contents writer.new)
        (file_row by.now.rows.now.form by.now.rows.now.table.now
        (counting_value by.now.counting.now) t file))) }
    ensures overflow { result ≡ Err SumOverflow → Told (F.tree folders.old) (λ t.
        ¬ FileFits (counting_value by.now.counting.now) t file) }
    ensures fault { TellsFault W.faults writer.old writer.new result WriteFault }
    ensures no_fault { PassesNoFault W.faults writer.old writer.new result WriteFault }
    ensures untouched { IfErr result (λ e. e ≢ WriteFault
        → W.contents writer.new ≡ W.contents writer.old) }
    ensures rows { OnOk result (WritesSomeRows by.now.rows.now.form by.now.rows.now.table.now
        (W.contents writer.old) (W.contents writer.new)) }
    ensures unread { Told (F.tree folders.old) (λ t. OnOk result (unread.new.items
        ≡ unread.old.items ++ unread_of_file (counting_value by.now.counting.now) t file)) }
{
    let language = match by.counting.language(folders, &file)? {
        Some(language) => language,
        None => return Ok(()),
    };
    match by
        .counting
        .count_file(folders, language, file.place.as_str(), true)
    {
        Ok(stats) => {
            let name = file.path.into_string();
            write_row(by.rows, language, &Report { stats, name }, writer)
        }
        Err(ParseFault::Refused) => {
            note_unread(unread, file)?;
            Ok(())
        }
        Err(ParseFault::Memory) => Err(OutputError::Memory),
        Err(ParseFault::Overflow) => Err(OutputError::Overflow),
    }
}

/// Writes a row for each file that a walk still gives, as it gives it, and adds a note of each that
/// can't be read.
fn write_rows<F: Folders, W: Sink>(
    by: &Streamed,
    folders: &mut F,
    walk: &mut Walk,
    writer: &mut W,
    unread: &mut Vec<Note>,
) -> Result<(), OutputError>
    ensures folders { AsTheyWere F.tree F.memory_faults folders.old folders.new result }
    ensures told { Told (F.tree folders.old) (λ t. OnOk result
        (Appends (W.contents writer.old) (W.contents writer.new)
        (rows_of by.now.rows.now.form by.now.rows.now.table.now
        (counting_value by.now.counting.now) t (to_come t walk.old)))) }
    ensures partly { Told (F.tree folders.old) (λ t. IfErr result (λ e. e ≢ WriteFault
        → WritesFirst (rows_of by.now.rows.now.form by.now.rows.now.table.now
        (counting_value by.now.counting.now) t) (to_come t walk.old)
        (W.contents writer.old) (W.contents writer.new))) }
    ensures rows { result ≢ Err WriteFault → WritesSomeRows by.now.rows.now.form
        by.now.rows.now.table.now (W.contents writer.old) (W.contents writer.new) }
    ensures overflow { result ≡ Err SumOverflow → Told (F.tree folders.old) (λ t.
        ¬ ReadingsFit (counting_value by.now.counting.now) t (to_come t walk.old)) }
    ensures fault { TellsFault W.faults writer.old writer.new result WriteFault }
    ensures no_fault { PassesNoFault W.faults writer.old writer.new result WriteFault }
    ensures notes { OnOk result (Grows (notes_of walk.old) (notes_of walk.new)) }
    ensures noted { Told (F.tree folders.old) (λ t. OnOk result
        (NotesSay (notes_of walk.old) (notes_of walk.new) (noted_to_come t walk.old))) }
    ensures unread { Told (F.tree folders.old) (λ t. OnOk result (unread.new.items
        ≡ unread.old.items
        ++ unread_of (counting_value by.now.counting.now) t (to_come t walk.old))) }
{
    while let Some(file) = walk.next(folders)? {
        write_file(by, folders, file, writer, unread)?;
    }
    Ok(())
}

/// Renews the counts of earlier results, which a stream doesn't show: it only asks whether they
/// fit.
fn test_earlier(alloc: Global, job: &Job) -> Result<(), CountError>
    ensures overflow { IsErrOf result CountError.Overflow
        → ¬ RenewalFits (earlier_of job.now.earlier) }
    ensures fits { OnOk result (RenewalFits (earlier_of job.now.earlier)) }
{
    let mut languages = earlier_languages(alloc, job)?;
    languages.renew_counts()
}

/// A walk over the files of a job.
fn walk_of(alloc: Global, job: &Job) -> Result<Walk, AllocError>
    ensures comes { IfOk result (λ w. (t : Tree) → is_sound t ≡ true
        → to_come t w ≡ files_of job.now t) }
    ensures notes { IfOk result (λ w. notes_of w
        ≡ notes_of_excludes (texts_of job.now.ignored.items)) }
    ensures noted { IfOk result (λ w. (t : Tree) → noted_to_come t w ≡ walk_notes job.now t) }
{
    Walk::new(alloc, &job.paths, &job.ignored, &rules(&job.config))
}

/// Writes the heading of a stream, and a row for each file of a job.
fn write_stream<F: Folders, W: Sink>(
    rows: &Rows,
    counting: &Counting,
    folders: &mut F,
    job: &Job,
    writer: &mut W,
) -> Result<Vec<Note>, OutputError>
    ensures folders { AsTheyWere F.tree F.memory_faults folders.old folders.new result }
    ensures told { Told (F.tree folders.old) (λ t. OnOk result
        (Appends (W.contents writer.old) (W.contents writer.new)
        (stream_text rows.now.form rows.now.table.now (counting_value counting.now) t
        (files_of job.now t)))) }
    ensures partly { Told (F.tree folders.old) (λ t. IfErr result (λ e. e ≢ WriteFault
        → BeginsStream rows.now.form rows.now.table.now (counting_value counting.now) t
        (files_of job.now t) (W.contents writer.old) (W.contents writer.new))) }
    ensures shaped { OnOk result (WritesSomeStream rows.now.form rows.now.table.now
        (W.contents writer.old) (W.contents writer.new)) }
    ensures begun { IfErr result (λ e. e ≢ WriteFault
        → HasBegun (Stream rows.now.form) rows.now.table.now
        (W.contents writer.old) (W.contents writer.new)) }
    ensures overflow { result ≡ Err SumOverflow → Told (F.tree folders.old) (λ t.
        ¬ ReadingsFit (counting_value counting.now) t (files_of job.now t)) }
    ensures fault { TellsFault W.faults writer.old writer.new result WriteFault }
    ensures no_fault { PassesNoFault W.faults writer.old writer.new result WriteFault }
    ensures notes { IfOk result (λ n.
        Grows (notes_of_excludes (texts_of job.now.ignored.items)) n.items) }
    ensures noted { Told (F.tree folders.old) (λ t. IfOk result (λ n. NotesAre
        (notes_of_excludes (texts_of job.now.ignored.items)) (walk_notes job.now t)
        (unread_of (counting_value counting.now) t (files_of job.now t)) n.items)) }
{
    write_heading(rows.form, writer)?;
    let mut walk = walk_of(counting.alloc, job)?;
    let mut unread = Vec::new(counting.alloc);
    let by = Streamed { counting, rows };
    let written = write_rows(&by, folders, &mut walk, writer, &mut unread);
    let mut notes = walk.into_notes();
    written?;
    notes.append(&mut unread)?;
    Ok(notes)
}

/// Writes a row for each file of a job, as it is counted, and answers what was passed over: what
/// the walk met, and then each file that counts in a language and can't be read. No report is kept,
/// and no file is counted where the renewed counts of earlier results don't fit. After `Memory` and
/// `Overflow` the writer has what it held, or behind that the heading and the rows of the first
/// files.
pub fn stream<F: Folders, W: Sink>(
    rows: &Rows,
    folders: &mut F,
    job: &Job,
    writer: &mut W,
) -> Result<Vec<Note>, OutputError>
    ensures folders { AsTheyWere F.tree F.memory_faults folders.old folders.new result }
    ensures told { Told (F.tree folders.old) (λ t. OnOk result (WritesStream rows.now.form
        rows.now.table.now job.now t (W.contents writer.old) (W.contents writer.new))) }
    ensures partly { Told (F.tree folders.old) (λ t. IfErr result (λ e. e ≢ WriteFault
        → BeginsJobStream rows.now.form rows.now.table.now job.now t
        (W.contents writer.old) (W.contents writer.new))) }
    ensures shaped { OnOk result (WritesSomeStream rows.now.form rows.now.table.now
        (W.contents writer.old) (W.contents writer.new)) }
    ensures begun { IfErr result (λ e. e ≢ WriteFault
        → HasBegun (Stream rows.now.form) rows.now.table.now
        (W.contents writer.old) (W.contents writer.new)) }
    ensures overflow { result ≡ Err SumOverflow → Told (F.tree folders.old) (λ t.
        ¬ StreamFits rows.now.table.now job.now t) }
    ensures earlier { OnOk result (RenewalFits (earlier_of job.now.earlier)) }
    ensures fault { TellsFault W.faults writer.old writer.new result WriteFault }
    ensures no_fault { PassesNoFault W.faults writer.old writer.new result WriteFault }
    ensures notes { IfOk result (λ n.
        Grows (notes_of_excludes (texts_of job.now.ignored.items)) n.items) }
    ensures noted { Told (F.tree folders.old) (λ t. IfOk result (λ n.
        AreNotesOf rows.now.table.now job.now t n.items)) }
{
    test_earlier(rows.alloc, job)?;
    let extended = job.config.extended_table(rows.alloc, rows.table)?;
    let counter = Counter::new(rows.alloc, &extended)?;
    let counting = Counting {
        alloc: rows.alloc,
        counter: &counter,
        config: job.config.counting(),
        types: types(&job.config),
    };
    write_stream(rows, &counting, folders, job, writer)
}
