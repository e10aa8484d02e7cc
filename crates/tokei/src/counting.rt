//! The languages that a run shows.
ghost use Rattle.std.specs.Prelude.{◌≡◌, ◌≢◌, ◌<◌, Err, IfOk};
ghost use Rattle.tokei_folders.specs.Answers.{Told};
ghost use Rattle.tokei_languages.specs.Seen.{languages_of};
ghost use Rattle.tokei.specs.JobNotes.{AreNotesOf};
ghost use Rattle.tokei_walk.specs.Notes.{Grows, notes_of_excludes};
ghost use Rattle.tokei_walk.specs.Walks.{texts_of};
ghost use Rattle.tokei_io.specs.declared.error.OutputError.TheVariants.{Overflow as SumOverflow, Write};
ghost use Rattle.tokei.specs.Runs.{languages_after};
ghost use Rattle.tokei.specs.Sums.{TallyFits};
ghost use Rattle.tokei_folders.specs.AsTheyWere.{AsTheyWere};

use crate::earlier::earlier_languages;
use crate::job::Job;
use std::alloc::Global;
use tokei_folders::Folders;
use tokei_io::OutputError;
use tokei_languages::Languages;
use tokei_statistics::CountFiles;
use tokei_table::LanguageTable;
use tokei_walk::Note;

/// What a run counted.
#[derive(Drop)]
pub(crate) struct Tally {
    pub languages: Languages,
    /// What was passed over.
    pub notes: Vec<Note>,
}

/// Counts the files of a job, beside the results of earlier runs.
pub(crate) fn tally_of<F: Folders>(
    alloc: Global,
    table: &LanguageTable,
    folders: &mut F,
    job: &Job,
) -> Result<Tally, OutputError>
    ensures folders { AsTheyWere F.tree F.memory_faults folders.old folders.new result }
    ensures told { Told (F.tree folders.old) (λ t. IfOk result (λ tally.
        languages_of tally.languages ≡ languages_after table.now job.now t)) }
    ensures unwritten { result ≢ Err Write }
    ensures overflow { result ≡ Err SumOverflow
        → Told (F.tree folders.old) (λ t. ¬ TallyFits table.now job.now t) }
    ensures notes { IfOk result (λ tally.
        Grows (notes_of_excludes (texts_of job.now.ignored.items)) tally.notes.items) }
    ensures noted { Told (F.tree folders.old) (λ t. IfOk result (λ tally.
        AreNotesOf table.now job.now t tally.notes.items)) }
{
    let mut languages = earlier_languages(alloc, job)?;
    let notes = languages.get_statistics(table, folders, &job.paths, &job.ignored, &job.config)?;
    Ok(Tally { languages, notes })
}
