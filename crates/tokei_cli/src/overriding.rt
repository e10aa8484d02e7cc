//! The options that stand above the configuration files.
ghost use Rattle.std.specs.Prelude.{◌≡◌, ◌++◌, IfOk, OnOk, OnErr, map, string_bytes};
ghost use Rattle.tokei_config.specs.Seen.{settings_of};
ghost use Rattle.tokei_cli.specs.Overriding.{languages_in, languages_named, switched, overridden};

use crate::cli::Cli;
use std::alloc::{AllocError, Global};
use tokei_config::Config;
use tokei_table::{LanguageTable, LanguageType};

/// Adds the languages that a word of `--types` names between its commas; what names none is passed
/// over.
fn add_languages(
    table: &LanguageTable,
    word: &str,
    languages: &mut Vec<LanguageType>,
) -> Result<(), AllocError>
    ensures { OnOk result
        (languages.new.items ≡ languages.old.items ++ languages_in table.now word.now) }
{
    for piece in word.split(',') {
        if let Some(language) = LanguageType::from_str(table, piece) {
            languages.push(language)?;
        }
    }
    Ok(())
}

/// The languages that the words of `--types` name.
fn languages_named(
    alloc: Global,
    table: &LanguageTable,
    words: &[String],
) -> Result<Vec<LanguageType>, AllocError>
    ensures { IfOk result (λ v. v.items ≡ languages_named table.now (map string_bytes words.now)) }
{
    let mut languages = Vec::new(alloc);
    for word in words {
        add_languages(table, word.as_str(), &mut languages)?;
    }
    Ok(languages)
}

/// True where the option is given, and else what the configuration says.
fn switched(given: bool, configured: Option<bool>) -> Option<bool>
    ensures { result ≡ switched given configured }
{
    if given { Some(true) } else { configured }
}

/// A command line whose options stand above a configuration.
pub trait OverrideConfig {
    /// Puts the options above the configuration: `hidden` and the four on ignore files are true
    /// where the option is given, and the languages are those of `--types` where it is given; all
    /// else stays. Where memory runs out the configuration stays as it was.
    fn override_config(
        &self,
        alloc: Global,
        table: &LanguageTable,
        config: &mut Config,
    ) -> Result<(), AllocError>;
}

impl OverrideConfig for Cli {
    fn override_config(
        &self,
        alloc: Global,
        table: &LanguageTable,
        config: &mut Config,
    ) -> Result<(), AllocError>
        ensures ok { OnOk result (settings_of config.new
            ≡ overridden table.now self.now (settings_of config.old)) }
        ensures err { OnErr result (config.new ≡ config.old) }
    {
        if let Some(words) = &self.types {
            config.types = Some(languages_named(alloc, table, words)?);
        }
        config.hidden = switched(self.hidden, config.hidden);
        config.no_ignore = switched(self.no_ignore, config.no_ignore);
        config.no_ignore_parent = switched(self.no_ignore_parent, config.no_ignore_parent);
        config.no_ignore_dot = switched(self.no_ignore_dot, config.no_ignore_dot);
        config.no_ignore_vcs = switched(self.no_ignore_vcs, config.no_ignore_vcs);
        Ok(())
    }
}
