//! The laws of what a run writes as a document: its languages are read back. Two are the contracts
//! of functions that do nothing; the third counts, prints and reads.
ghost use Rattle.std.specs.Prelude.{◌≡◌, ◌≢◌, IfErr, IfOk};
ghost use Rattle.tokei_config.specs.Seen.{settings_of};
ghost use Rattle.tokei_files.specs.Configs.{kept_by};
ghost use Rattle.tokei_folders.specs.Answers.{Told};
ghost use Rattle.tokei_folders.specs.AsTheyWere.{SameTree};
ghost use Rattle.tokei_json_laws.specs.RunDocuments.{languages_counted, CountedLanguagesCanBeReadBack, DocumentsOfRunsReadBack};
ghost use Rattle.tokei_languages.specs.Seen.{languages_of};
ghost use Rattle.tokei_walk.specs.Walks.{texts_of};

use std::alloc::Global;
use tokei_config::Config;
use tokei_earlier::{Format, InputError};
use tokei_folders::Folders;
use tokei_languages::Languages;
use tokei_statistics::CountFiles;
use tokei_stats::CountError;
use tokei_table::LanguageTable;

/// The languages of files, counted by any configuration and beside no earlier results, are of the
/// table, hold at most 50 levels of blobs and stand in the table's order.
pub fn counted_languages_can_be_read_back()
    ensures { CountedLanguagesCanBeReadBack }
{}

/// The document of a run without earlier results is read as the languages of the run.
pub fn documents_of_runs_read_back()
    ensures { DocumentsOfRunsReadBack }
{}

/// Why statistics were refused, as a cause of refused results.
fn refused(error: CountError) -> InputError
    ensures { result ≢ InputError.Memory → result ≡ InputError.Overflow }
{
    match error {
        CountError::Overflow => InputError::Overflow,
        CountError::Memory => InputError::Memory,
    }
}

/// The languages of the files that a configuration keeps below the paths, counted beside none.
fn counted<F: Folders>(
    alloc: Global,
    table: &LanguageTable,
    folders: &mut F,
    paths: &[String],
    ignored: &[String],
    config: &Config,
) -> Result<Languages, InputError>
    ensures same { SameTree F.tree folders.old folders.new }
    ensures told { Told (F.tree folders.old) (λ t. IfOk result (λ ls. languages_of ls
        ≡ languages_counted table.now (settings_of config.now) t
        (kept_by (settings_of config.now) t (texts_of paths.now) (texts_of ignored.now)))) }
    ensures refused { IfErr result (λ e. e ≢ InputError.Memory → e ≡ InputError.Overflow) }
{
    let mut languages = Languages::new(alloc);
    match languages.get_statistics(table, folders, paths, ignored, config) {
        Ok(_notes) => Ok(languages),
        Err(error) => Err(refused(error)),
    }
}

/// Counts the files that a configuration keeps below the paths, prints their languages, and reads
/// the text, which is byte for byte what `run` writes of them as a document: over a known tree they
/// are the same. Refused for `Overflow` or `Memory` alone.
pub fn counted_and_read<F: Folders>(
    alloc: Global,
    table: &LanguageTable,
    folders: &mut F,
    paths: &[String],
    ignored: &[String],
    config: &Config,
) -> Result<Languages, InputError>
    ensures same { SameTree F.tree folders.old folders.new }
    ensures told { Told (F.tree folders.old) (λ t. IfOk result (λ read. languages_of read
        ≡ languages_counted table.now (settings_of config.now) t
        (kept_by (settings_of config.now) t (texts_of paths.now) (texts_of ignored.now)))) }
    ensures refused { Told (F.tree folders.old) (λ t. IfErr result
        (λ e. e ≢ InputError.Memory → e ≡ InputError.Overflow)) }
{
    let _count = table.len();
    let languages = counted(alloc, table, folders, paths, ignored, config)?;
    match Format::Json.print(alloc, table, &languages) {
        Ok(text) => Format::parse(alloc, table, text.as_str()),
        Err(error) => Err(refused(error)),
    }
}
