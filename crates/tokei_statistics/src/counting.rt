//! The statistics of all files that a walk gives, counted one at a time as they come.
ghost use Rattle.std.specs.Prelude.{◌≡◌, ◌≢◌, ◌<◌, ◌++◌, ◌∷◌, [], Some, None, Err, OnOk, OnErr, IfOk, IfErr, IsErrOf};
ghost use Rattle.tokei_languages.specs.Merging.{merged_languages};
ghost use Rattle.tokei_languages.specs.Seen.{languages_of};
ghost use Rattle.tokei_files.specs.Files.{FileFits, ReadingsFit};
ghost use Rattle.tokei_files.specs.Seen.{counting_of};
ghost use Rattle.tokei_files.specs.Unread.{NotesAre, unread_note, unread_of, unread_of_file};
ghost use Rattle.tokei_files.specs.declared.error.ParseFault.TheVariants.{Refused as NotRead, Memory as OutOfMemory, Overflow as TooMany};
ghost use Rattle.tokei_stats.specs.Seen.{stats_of};
ghost use Rattle.tokei_folders.specs.Answers.{Told};
ghost use Rattle.tokei_walk.specs.Kept.{kept_in};
ghost use Rattle.tokei_walk.specs.Met.{noted_in};
ghost use Rattle.tokei_walk.specs.Noted.{NotesSay};
ghost use Rattle.tokei_walk.specs.Notes.{Grows, notes_of, notes_of_excludes};
ghost use Rattle.tokei_walk.specs.Walks.{excludes_of, noted_to_come, texts_of, to_come};
ghost use Rattle.tokei_statistics.specs.Runs.{AddsFiles, AddsFirst, language_from, languages_of_file};
ghost use Rattle.tokei_folders.specs.AsTheyWere.{AsTheyWere, SameTree, FaultsStay};

use tokei_files::{Counting, ParseFault, note_unread};
use tokei_folders::Folders;
use tokei_languages::Languages;
use tokei_stats::{CodeStats, CountError, Report};
use tokei_table::LanguageType;
use tokei_walk::{KeptFile, Note, Rules, Walk};

/// Puts what was counted of a file into its language: its report, or a mark where it couldn't be
/// read, of which a note is added. A refusal changes nothing of the languages.
fn add_counted(
    languages: &mut Languages,
    unread: &mut Vec<Note>,
    language: LanguageType,
    file: KeptFile,
    counted: Result<CodeStats, ParseFault>,
) -> Result<(), CountError>
    ensures reported { IfOk counted (λ s. OnOk result (languages_of languages.new
        ≡ merged_languages (languages_of languages.old)
        ((language, language_from file.path (Some (stats_of s))) ∷ []))) }
    ensures marked { OnErr counted (OnOk result (languages_of languages.new
        ≡ merged_languages (languages_of languages.old)
        ((language, language_from file.path None) ∷ []))) }
    ensures refused { IfErr counted (λ e. OnOk result (e ≡ NotRead)) }
    ensures stays { OnErr result (languages_of languages.new ≡ languages_of languages.old) }
    ensures overflow { IsErrOf result CountError.Overflow → counted ≡ Err TooMany }
    ensures unnoted { OnOk counted (unread.new.items ≡ unread.old.items) }
    ensures noted { OnErr counted (OnOk result (unread.new.items
        ≡ unread.old.items ++ unread_note file ∷ [])) }
    ensures honest { result ≢ Err CountError.Memory → counted ≢ Err OutOfMemory }
{
    match counted {
        Ok(stats) => {
            let name = file.path.into_string();
            languages.add_report(language, Report { stats, name })
        }
        Err(ParseFault::Refused) => {
            note_unread(unread, file)?;
            languages.mark_inaccurate(language)
        }
        Err(ParseFault::Memory) => Err(CountError::Memory),
        Err(ParseFault::Overflow) => Err(CountError::Overflow),
    }
}

/// Counts one file: its report goes to its language, or a mark where it can't be read, of which a
/// note is added. A refusal changes nothing of the languages.
pub fn add_file<F: Folders>(
    counting: &Counting,
    folders: &mut F,
    file: KeptFile,
    languages: &mut Languages,
    unread: &mut Vec<Note>,
) -> Result<(), CountError>
    ensures same { SameTree F.tree folders.old folders.new }
    ensures told { Told (F.tree folders.old) (λ t. OnOk result (languages_of languages.new
        ≡ merged_languages (languages_of languages.old)
        (languages_of_file (counting_of counting.now) t file))) }
    ensures stays { OnErr result (languages_of languages.new ≡ languages_of languages.old) }
    ensures overflow { IsErrOf result CountError.Overflow → Told (F.tree folders.old) (λ t.
        ¬ FileFits (counting_of counting.now) t file) }
    ensures unread { Told (F.tree folders.old) (λ t. OnOk result (unread.new.items
        ≡ unread.old.items ++ unread_of_file (counting_of counting.now) t file)) }
    ensures honest { result ≢ Err CountError.Memory
        → FaultsStay F.memory_faults folders.old folders.new }
{
    let language = match counting.language(folders, &file)? {
        Some(language) => language,
        None => return Ok(()),
    };
    let counted = counting.count_file(folders, language, file.place.as_str(), true);
    add_counted(languages, unread, language, file, counted)
}

/// Counts the files that a walk still gives, as it gives them, and adds a note of each whose
/// content can't be read. After a refusal the languages are those from before with those of the
/// first files, so many as were counted.
pub fn count_files<F: Folders>(
    counting: &Counting,
    folders: &mut F,
    walk: &mut Walk,
    languages: &mut Languages,
    unread: &mut Vec<Note>,
) -> Result<(), CountError>
    ensures folders { AsTheyWere F.tree F.memory_faults folders.old folders.new result }
    ensures told { Told (F.tree folders.old) (λ t. OnOk result
        (AddsFiles (counting_of counting.now) t (to_come t walk.old)
        (languages_of languages.old) (languages_of languages.new))) }
    ensures partly { Told (F.tree folders.old) (λ t. OnErr result
        (AddsFirst (counting_of counting.now) t (to_come t walk.old)
        (languages_of languages.old) (languages_of languages.new))) }
    ensures overflow { IsErrOf result CountError.Overflow → Told (F.tree folders.old) (λ t.
        ¬ ReadingsFit (counting_of counting.now) t (to_come t walk.old)) }
    ensures notes { Grows (notes_of walk.old) (notes_of walk.new) }
    ensures noted { Told (F.tree folders.old) (λ t. OnOk result
        (NotesSay (notes_of walk.old) (notes_of walk.new) (noted_to_come t walk.old))) }
    ensures unread { Told (F.tree folders.old) (λ t. OnOk result (unread.new.items
        ≡ unread.old.items ++ unread_of (counting_of counting.now) t (to_come t walk.old))) }
{
    while let Some(file) = walk.next(folders)? {
        add_file(counting, folders, file, languages, unread)?;
    }
    Ok(())
}

/// Counts the files that the rules keep below the roots, and answers what was passed over: what the
/// walk met, and then each file that counts in a language and can't be read. After a refusal the
/// languages are those from before with those of the first files, so many as were counted.
pub fn count_roots<F: Folders>(
    counting: &Counting,
    folders: &mut F,
    roots: &[String],
    excludes: &[String],
    rules: &Rules,
    languages: &mut Languages,
) -> Result<Vec<Note>, CountError>
    ensures folders { AsTheyWere F.tree F.memory_faults folders.old folders.new result }
    ensures told { Told (F.tree folders.old) (λ t. OnOk result
        (AddsFiles (counting_of counting.now) t
        (kept_in (excludes_of (texts_of excludes.now)) rules.now t (texts_of roots.now))
        (languages_of languages.old) (languages_of languages.new))) }
    ensures partly { Told (F.tree folders.old) (λ t. OnErr result
        (AddsFirst (counting_of counting.now) t
        (kept_in (excludes_of (texts_of excludes.now)) rules.now t (texts_of roots.now))
        (languages_of languages.old) (languages_of languages.new))) }
    ensures overflow { IsErrOf result CountError.Overflow → Told (F.tree folders.old) (λ t.
        ¬ ReadingsFit (counting_of counting.now) t
        (kept_in (excludes_of (texts_of excludes.now)) rules.now t (texts_of roots.now))) }
    ensures notes { IfOk result (λ n. Grows (notes_of_excludes (texts_of excludes.now)) n.items) }
    ensures noted { Told (F.tree folders.old) (λ t. IfOk result (λ n. NotesAre
        (notes_of_excludes (texts_of excludes.now))
        (noted_in (excludes_of (texts_of excludes.now)) rules.now t (texts_of roots.now))
        (unread_of (counting_of counting.now) t
        (kept_in (excludes_of (texts_of excludes.now)) rules.now t (texts_of roots.now)))
        n.items)) }
{
    let mut walk = Walk::new(counting.alloc, roots, excludes, rules)?;
    let mut unread = Vec::new(counting.alloc);
    let counted = count_files(counting, folders, &mut walk, languages, &mut unread);
    let mut notes = walk.into_notes();
    counted?;
    notes.append(&mut unread)?;
    Ok(notes)
}
