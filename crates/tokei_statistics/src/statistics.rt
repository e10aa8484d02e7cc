//! The statistics of all files that a configuration keeps below some roots.
ghost use Rattle.std.specs.Prelude.{◌<◌, OnOk, OnErr, IfOk, IsErrOf};
ghost use Rattle.tokei_config.specs.Seen.{settings_of};
ghost use Rattle.tokei_files.specs.Configs.{counting_by, kept_by, noted_by};
ghost use Rattle.tokei_files.specs.Files.{ReadingsFit};
ghost use Rattle.tokei_files.specs.Unread.{NotesAre, unread_of};
ghost use Rattle.tokei_folders.specs.Answers.{Told};
ghost use Rattle.tokei_languages.specs.Seen.{languages_of};
ghost use Rattle.tokei_walk.specs.Notes.{Grows, notes_of_excludes};
ghost use Rattle.tokei_walk.specs.Walks.{texts_of};
ghost use Rattle.tokei_statistics.specs.Runs.{AddsFiles, AddsFirst, AddsRun, RunFits};
ghost use Rattle.tokei_folders.specs.AsTheyWere.{AsTheyWere};

use crate::counting::count_roots;
use tokei_config::Config;
use tokei_count::Counter;
use tokei_files::{Counting, rules, types};
use tokei_folders::Folders;
use tokei_languages::Languages;
use tokei_stats::CountError;
use tokei_table::LanguageTable;
use tokei_walk::Note;

/// Languages into which the files of folders are counted.
pub trait CountFiles {
    /// Counts each file that the configuration keeps below the paths, as the walk gives it, in the
    /// language that it has by the table in which languages have gained the configuration's
    /// extensions; the counts of languages aren't renewed. Excludes are patterns, as in an ignore
    /// file. A file that can't be read marks its language and leaves no report. What was passed
    /// over is answered: what the walk met, and then each file that can't be read.
    ///
    /// `Overflow` comes only where a count of a file passes the greatest `usize`. After a refusal
    /// the languages are those from before with those of the first files, so many as were counted,
    /// and the folders keep their tree.
    fn get_all_files<F: Folders>(
        &mut self,
        table: &LanguageTable,
        folders: &mut F,
        paths: &[String],
        ignored: &[String],
        config: &Config,
    ) -> Result<Vec<Note>, CountError>;

    /// The same, and then the counts of every language are renewed: they become the sums of its
    /// reports' own counts.
    ///
    /// `Overflow` comes only where a count of a file, or such a sum, passes the greatest `usize`.
    /// After a refusal no counts are renewed.
    fn get_statistics<F: Folders>(
        &mut self,
        table: &LanguageTable,
        folders: &mut F,
        paths: &[String],
        ignored: &[String],
        config: &Config,
    ) -> Result<Vec<Note>, CountError>;
}

impl CountFiles for Languages {
    fn get_all_files<F: Folders>(
        &mut self,
        table: &LanguageTable,
        folders: &mut F,
        paths: &[String],
        ignored: &[String],
        config: &Config,
    ) -> Result<Vec<Note>, CountError>
        ensures folders { AsTheyWere F.tree F.memory_faults folders.old folders.new result }
        ensures told { Told (F.tree folders.old) (λ t. OnOk result
            (AddsFiles (counting_by table.now (settings_of config.now)) t
            (kept_by (settings_of config.now) t (texts_of paths.now) (texts_of ignored.now))
            (languages_of self.old) (languages_of self.new))) }
        ensures partly { Told (F.tree folders.old) (λ t. OnErr result
            (AddsFirst (counting_by table.now (settings_of config.now)) t
            (kept_by (settings_of config.now) t (texts_of paths.now) (texts_of ignored.now))
            (languages_of self.old) (languages_of self.new))) }
        ensures overflow { IsErrOf result CountError.Overflow → Told (F.tree folders.old) (λ t.
            ¬ ReadingsFit (counting_by table.now (settings_of config.now)) t
            (kept_by (settings_of config.now) t (texts_of paths.now) (texts_of ignored.now))) }
        ensures notes { IfOk result (λ n. Grows (notes_of_excludes (texts_of ignored.now))
            n.items) }
        ensures noted { Told (F.tree folders.old) (λ t. IfOk result (λ n. NotesAre
            (notes_of_excludes (texts_of ignored.now))
            (noted_by (settings_of config.now) t (texts_of paths.now) (texts_of ignored.now))
            (unread_of (counting_by table.now (settings_of config.now)) t
            (kept_by (settings_of config.now) t (texts_of paths.now) (texts_of ignored.now)))
            n.items)) }
    {
        let alloc = self.allocator();
        let extended = config.extended_table(alloc, table)?;
        let counter = Counter::new(alloc, &extended)?;
        let run = Counting {
            alloc,
            counter: &counter,
            config: config.counting(),
            types: types(config),
        };
        count_roots(&run, folders, paths, ignored, &rules(config), self)
    }

    fn get_statistics<F: Folders>(
        &mut self,
        table: &LanguageTable,
        folders: &mut F,
        paths: &[String],
        ignored: &[String],
        config: &Config,
    ) -> Result<Vec<Note>, CountError>
        ensures folders { AsTheyWere F.tree F.memory_faults folders.old folders.new result }
        ensures told { Told (F.tree folders.old) (λ t. OnOk result
            (AddsRun (counting_by table.now (settings_of config.now)) t
            (kept_by (settings_of config.now) t (texts_of paths.now) (texts_of ignored.now))
            (languages_of self.old) (languages_of self.new))) }
        ensures partly { Told (F.tree folders.old) (λ t. OnErr result
            (AddsFirst (counting_by table.now (settings_of config.now)) t
            (kept_by (settings_of config.now) t (texts_of paths.now) (texts_of ignored.now))
            (languages_of self.old) (languages_of self.new))) }
        ensures overflow { IsErrOf result CountError.Overflow → Told (F.tree folders.old) (λ t.
            ¬ RunFits (counting_by table.now (settings_of config.now)) t
            (kept_by (settings_of config.now) t (texts_of paths.now) (texts_of ignored.now))
            (languages_of self.old)) }
        ensures notes { IfOk result (λ n. Grows (notes_of_excludes (texts_of ignored.now))
            n.items) }
        ensures noted { Told (F.tree folders.old) (λ t. IfOk result (λ n. NotesAre
            (notes_of_excludes (texts_of ignored.now))
            (noted_by (settings_of config.now) t (texts_of paths.now) (texts_of ignored.now))
            (unread_of (counting_by table.now (settings_of config.now)) t
            (kept_by (settings_of config.now) t (texts_of paths.now) (texts_of ignored.now)))
            n.items)) }
    {
        let notes = self.get_all_files(table, folders, paths, ignored, config)?;
        self.renew_counts()?;
        Ok(notes)
    }
}
