//! The configuration of a run.
ghost use Rattle.std.specs.Prelude.{◌≡◌, map, IfOk, OnOk};
ghost use Rattle.tokei_config.specs.Seen.{additions_of};
ghost use Rattle.tokei_table.specs.Extended.{addition_of};
ghost use Rattle.tokei_folders.specs.AsTheyWere.{AsTheyWere};

use crate::files::{ConfigDirs, config_behind, config_in};
use crate::flaws::Flaw;
use crate::language_config::LanguageConfig;
use std::alloc::{AllocError, Global};
use std::collections::BTreeMap;
use tokei_folders::Folders;
use tokei_options::{CountConfig, Sort};
use tokei_table::{LanguageTable, LanguageType};

/// The configuration of a run. A member that is `None` leaves the choice to the caller.
#[derive(Debug, Drop)]
pub struct Config {
    /// The width of a printed report.
    pub columns: Option<usize>,
    /// Whether files and folders whose names begin with a dot are counted.
    pub hidden: Option<bool>,
    /// Whether no ignore file is obeyed.
    pub no_ignore: Option<bool>,
    /// Whether no ignore file above the roots is obeyed.
    pub no_ignore_parent: Option<bool>,
    /// Whether neither `.ignore` nor `.tokeignore` is obeyed.
    pub no_ignore_dot: Option<bool>,
    /// Whether no ignore file of git is obeyed.
    pub no_ignore_vcs: Option<bool>,
    /// Whether lines of doc strings count as comments.
    pub treat_doc_strings_as_comments: Option<bool>,
    /// The column by which languages are sorted.
    pub sort: Option<Sort>,
    /// The languages that are counted, and no others.
    pub types: Option<Vec<LanguageType>>,
    /// What is added to languages.
    pub languages: Option<BTreeMap<LanguageType, LanguageConfig>>,
}

/// What the configuration files of a user say.
#[derive(Drop)]
pub struct ConfigRead {
    pub config: Config,
    /// The files that count as empty, in the order in which they are read.
    pub flaws: Vec<Flaw>,
}

impl Config {
    ghost use Rattle.std.specs.Prelude.{◌≡◌, ◌<◌, IfOk, OnOk, map};
    ghost use Rattle.tokei_config.specs.Files.{configuration};
    ghost use Rattle.tokei_config.specs.Flaws.{flaws_of, placed_causes};
    ghost use Rattle.tokei_folders.specs.Answers.{Told};
    ghost use Rattle.tokei_config.specs.Settings.{additions_in, empty, first_of_each};
    ghost use Rattle.tokei_config.specs.Seen.{settings_of};
    ghost use Rattle.tokei_table.specs.Extended.{addition_of, extended};

    /// The configuration in which each member is `None`; takes no memory.
    pub fn new() -> Config
        ensures { settings_of result ≡ empty }
    {
        Config {
            columns: None,
            hidden: None,
            no_ignore: None,
            no_ignore_parent: None,
            no_ignore_dot: None,
            no_ignore_vcs: None,
            treat_doc_strings_as_comments: None,
            sort: None,
            types: None,
            languages: None,
        }
    }

    /// The configuration of a user's files: of each member the first that is there of the current
    /// folder's file, the home folder's and that of the folder for configuration. A folder's file
    /// is `tokei.toml`, or `.tokeirc` where that can't be read as UTF-8. A file counts as empty
    /// where it isn't TOML, or where a member is of a wrong kind or names a language or a column
    /// that isn't known. It fails where memory runs out, and the folders keep their tree.
    pub fn from_config_files<F: Folders>(
        alloc: Global,
        table: &LanguageTable,
        folders: &mut F,
        dirs: &ConfigDirs,
    ) -> Result<Config, AllocError>
        ensures folders { AsTheyWere F.tree F.memory_faults folders.old folders.new result }
        ensures told { Told (F.tree folders.old) (λ t. IfOk result (λ c. settings_of c
            ≡ configuration table.now t dirs.now)) }
    {
        let read = Config::read_config_files(alloc, table, folders, dirs)?;
        Ok(read.config)
    }

    /// The configuration of a user's files, as `from_config_files` returns it, and each of these
    /// files that is read and counts as empty though it is there: it can't be read, isn't UTF-8 or
    /// TOML, or has a member that can't be read. It fails where memory runs out, and the folders
    /// keep their tree.
    pub fn read_config_files<F: Folders>(
        alloc: Global,
        table: &LanguageTable,
        folders: &mut F,
        dirs: &ConfigDirs,
    ) -> Result<ConfigRead, AllocError>
        ensures folders { AsTheyWere F.tree F.memory_faults folders.old folders.new result }
        ensures told { Told (F.tree folders.old) (λ t. IfOk result (λ r. settings_of r.config
            ≡ configuration table.now t dirs.now)) }
        ensures flawed { Told (F.tree folders.old) (λ t. IfOk result (λ r.
            placed_causes r.flaws.items ≡ flaws_of table.now t dirs.now)) }
    {
        let mut flaws = Vec::new(alloc);
        let current = config_in(alloc, table, folders, &dirs.current, &mut flaws)?;
        let behind = config_behind(alloc, table, folders, dirs, &mut flaws)?;
        Ok(ConfigRead {
            config: current.or(behind),
            flaws,
        })
    }

    /// How texts are counted.
    pub fn counting(&self) -> CountConfig
        ensures { result.treat_doc_strings_as_comments ≡ self.now.treat_doc_strings_as_comments }
    {
        CountConfig {
            treat_doc_strings_as_comments: self.treat_doc_strings_as_comments,
        }
    }

    /// The extensions that languages gain, in the order of the table and as
    /// `LanguageTable::extended` takes them. It fails where memory runs out.
    pub fn additions(&self, alloc: Global) -> Result<Vec<(LanguageType, &[String])>, AllocError>
        ensures { IfOk result (λ v. map addition_of v.items
            ≡ additions_in (settings_of self.entry.now)) }
    {
        match &self.languages {
            Some(languages) => extensions_gained(alloc, languages),
            None => Ok(Vec::new(alloc)),
        }
    }

    /// The table in which languages have gained the extensions of this configuration, which no
    /// language had. It fails where memory runs out.
    pub fn extended_table(
        &self,
        alloc: Global,
        table: &LanguageTable,
    ) -> Result<LanguageTable, AllocError>
        ensures { IfOk result (λ t. t ≡ extended table.now (additions_in (settings_of self.now))) }
    {
        let additions = self.additions(alloc)?;
        table.extended(alloc, &additions)
    }

    /// The members of this configuration, and those of the other where this one has none.
    pub(crate) fn or(self, other: Config) -> Config
        ensures { settings_of result ≡ first_of_each (settings_of self) (settings_of other) }
    {
        Config {
            columns: self.columns.or(other.columns),
            hidden: self.hidden.or(other.hidden),
            no_ignore: self.no_ignore.or(other.no_ignore),
            no_ignore_parent: self.no_ignore_parent.or(other.no_ignore_parent),
            no_ignore_dot: self.no_ignore_dot.or(other.no_ignore_dot),
            no_ignore_vcs: self.no_ignore_vcs.or(other.no_ignore_vcs),
            treat_doc_strings_as_comments: self
                .treat_doc_strings_as_comments
                .or(other.treat_doc_strings_as_comments),
            sort: self.sort.or(other.sort),
            types: self.types.or(other.types),
            languages: self.languages.or(other.languages),
        }
    }
}

/// The extensions that each language gains, in the order of the table.
fn extensions_gained(
    alloc: Global,
    languages: &BTreeMap<LanguageType, LanguageConfig>,
) -> Result<Vec<(LanguageType, &[String])>, AllocError>
    ensures { IfOk result (λ v. map addition_of v.items
        ≡ additions_of languages.entry.now.entries) }
{
    let mut additions = Vec::new(alloc);
    for (language, config) in languages.iter() {
        match additions.push((*language, config.extensions.as_slice())) {
            Ok(()) => {}
            Err(_) => return Err(AllocError),
        }
    }
    Ok(additions)
}

impl Default for Config {
    ghost use Rattle.std.specs.Prelude.{◌≡◌};
    ghost use Rattle.tokei_config.specs.Settings.{empty};
    ghost use Rattle.tokei_config.specs.Seen.{settings_of};

    ghost is_default = { λ c. settings_of c ≡ empty };

    fn default() -> Config {
        Config::new()
    }
}
