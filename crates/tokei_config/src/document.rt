//! A configuration file's text.
ghost use Rattle.std.specs.Prelude.{◌≡◌, IfErr, IfOk, Some, option_map};
ghost use Rattle.toml.specs.View.{table_view};
ghost use Rattle.tokei_config.specs.Document.{flag, settings_of_text};
ghost use Rattle.tokei_config.specs.Flaws.{cause_of_text};
ghost use Rattle.tokei_config.specs.ReadMembers.{AreFileFlags, AreValues, StopsAtFirst, bad_file_flag, bad_or, bad_value};
ghost use Rattle.tokei_config.specs.Reading.{ReadsSettings, at_setting};
ghost use Rattle.tokei_config.specs.Seen.{settings_of};
ghost use Rattle.tokei_config.specs.Settings.{empty};
ghost use Rattle.tokei_config.specs.declared.flaws.Cause.TheVariants.{BadSetting, NotToml};

use crate::config::Config;
use crate::flaws::{Cause, Setting};
use crate::languages::{languages_at, types_at};
use crate::members::{MemberError, count_at, flag_at, sort_at};
use std::alloc::{AllocError, Global};
use tokei_folders::Text;
use tokei_options::Sort;
use tokei_table::LanguageTable;
use toml::Table;
use toml::de::Error;

/// Why the members of a file are no configuration.
#[derive(Clone, Copy)]
pub(crate) enum SettingError {
    /// An allocation failed.
    Memory,
    /// This one is of a wrong kind, or names what isn't known.
    Bad(Setting),
}

/// The members that say which files are counted.
#[derive(Clone, Copy)]
pub(crate) struct FileFlags {
    pub hidden: Option<bool>,
    pub no_ignore: Option<bool>,
    pub no_ignore_parent: Option<bool>,
    pub no_ignore_dot: Option<bool>,
    pub no_ignore_vcs: Option<bool>,
}

/// The members that are one value.
#[derive(Clone, Copy)]
pub(crate) struct Values {
    pub columns: Option<usize>,
    pub file_flags: FileFlags,
    pub treat_doc_strings_as_comments: Option<bool>,
    pub sort: Option<Sort>,
}

/// Why a file counts as empty.
#[derive(Drop)]
pub(crate) struct Reason {
    pub cause: Cause,
    /// As in `Flaw`.
    pub detail: Text,
}

/// What a file says.
#[derive(Drop)]
pub(crate) struct FileRead {
    /// Its configuration, where it has a text.
    pub config: Option<Config>,
    /// Why it counts as empty, where it does.
    pub reason: Option<Reason>,
}

/// What was read at a setting, with its name where it can't be read.
fn at<T>(setting: Setting, read: Result<T, MemberError>) -> Result<T, SettingError>
    ensures { result ≡ at_setting setting read }
{
    match read {
        Ok(value) => Ok(value),
        Err(MemberError::Memory) => Err(SettingError::Memory),
        Err(MemberError::Unreadable) => Err(SettingError::Bad(setting)),
    }
}

/// The flag of a setting, by its key.
fn flag_of(setting: Setting, members: &Table, key: &str) -> Result<Option<bool>, SettingError>
    ensures is_read { IfOk result (λ f. flag key.now (table_view members.now) ≡ Some f) }
    ensures refused { IfErr result
        (StopsAtFirst (bad_or setting (flag key.now (table_view members.now)))) }
{
    at(setting, flag_at(members, key))
}

/// The flags that say which files are counted.
fn file_flags_in(members: &Table) -> Result<FileFlags, SettingError>
    ensures are_read { IfOk result (AreFileFlags (table_view members.now)) }
    ensures refused { IfErr result (StopsAtFirst (bad_file_flag (table_view members.now))) }
{
    let hidden = flag_of(Setting::Hidden, members, "hidden")?;
    let no_ignore = flag_of(Setting::NoIgnore, members, "no_ignore")?;
    let no_ignore_parent = flag_of(Setting::NoIgnoreParent, members, "no_ignore_parent")?;
    let no_ignore_dot = flag_of(Setting::NoIgnoreDot, members, "no_ignore_dot")?;
    let no_ignore_vcs = flag_of(Setting::NoIgnoreVcs, members, "no_ignore_vcs")?;
    Ok(FileFlags {
        hidden,
        no_ignore,
        no_ignore_parent,
        no_ignore_dot,
        no_ignore_vcs,
    })
}

/// The members that are one value.
fn values_in(members: &Table) -> Result<Values, SettingError>
    ensures are_read { IfOk result (AreValues (table_view members.now)) }
    ensures refused { IfErr result (StopsAtFirst (bad_value (table_view members.now))) }
{
    let columns = at(Setting::Columns, count_at(members, "columns"))?;
    let file_flags = file_flags_in(members)?;
    let treat_doc_strings_as_comments = flag_of(
        Setting::TreatDocStringsAsComments,
        members,
        "treat_doc_strings_as_comments",
    )?;
    let sort = at(Setting::Sort, sort_at(members, "sort"))?;
    Ok(Values {
        columns,
        file_flags,
        treat_doc_strings_as_comments,
        sort,
    })
}

/// The configuration of a file's members; refused at the first that can't be read.
fn config_in(alloc: Global, table: &LanguageTable, members: &Table) -> Result<Config, SettingError>
    ensures { ReadsSettings table.now (table_view members.now) result }
{
    let values = values_in(members)?;
    let types = at(Setting::Types, types_at(alloc, table, members, "types"))?;
    let languages = at(
        Setting::Languages,
        languages_at(alloc, table, members, "languages"),
    )?;
    Ok(Config {
        columns: values.columns,
        hidden: values.file_flags.hidden,
        no_ignore: values.file_flags.no_ignore,
        no_ignore_parent: values.file_flags.no_ignore_parent,
        no_ignore_dot: values.file_flags.no_ignore_dot,
        no_ignore_vcs: values.file_flags.no_ignore_vcs,
        treat_doc_strings_as_comments: values.treat_doc_strings_as_comments,
        sort: values.sort,
        types,
        languages,
    })
}

/// A text that counts as empty for a setting.
fn bad_setting(alloc: Global, setting: Setting) -> FileRead
    ensures config { option_map settings_of result.config ≡ Some empty }
    ensures cause { option_map (λ r. r.cause) result.reason ≡ Some (BadSetting setting) }
{
    FileRead {
        config: Some(Config::new()),
        reason: Some(Reason {
            cause: Cause::BadSetting(setting),
            detail: Text::from_string(String::new(alloc)),
        }),
    }
}

/// The line, counted from 1, at which a text stops being TOML.
fn line_of(text: &str, error: &Error) -> usize {
    let Some(span) = error.span() else {
        return 1;
    };
    let mut line = 1usize;
    for byte in text.as_bytes().iter().take(span.start) {
        if *byte == b'\n' {
            line = line.saturating_add(1);
        }
    }
    line
}

/// A text that isn't TOML, with the parser's words.
fn not_toml(alloc: Global, text: &str, error: &Error) -> Result<FileRead, AllocError>
    ensures config { IfOk result (λ r. option_map settings_of r.config ≡ Some empty) }
    ensures cause { IfOk result (λ r. option_map (λ r. r.cause) r.reason ≡ Some NotToml) }
{
    let line = line_of(text, error);
    let words = error.message();
    let detail = format!(in alloc; "line {line}: {words}")?;
    Ok(FileRead {
        config: Some(Config::new()),
        reason: Some(Reason {
            cause: Cause::NotToml,
            detail: Text::from_string(detail),
        }),
    })
}

/// What a file's text says. It counts as empty where it isn't TOML, or where a member is of a wrong
/// kind or names what isn't known. It fails where memory runs out.
pub(crate) fn config_of_text(
    alloc: Global,
    table: &LanguageTable,
    text: &str,
) -> Result<FileRead, AllocError>
    ensures config { IfOk result (λ r. option_map settings_of r.config
        ≡ Some (settings_of_text table.now text.now)) }
    ensures cause { IfOk result (λ r. option_map (λ r. r.cause) r.reason
        ≡ cause_of_text table.now text.now) }
{
    match toml::table_from_str(alloc, text) {
        Ok(members) => match config_in(alloc, table, &members) {
            Ok(config) => Ok(FileRead {
                config: Some(config),
                reason: None,
            }),
            Err(SettingError::Bad(setting)) => Ok(bad_setting(alloc, setting)),
            Err(SettingError::Memory) => Err(AllocError),
        },
        Err(e) => if e.is_memory() {
            Err(AllocError)
        } else {
            not_toml(alloc, text, &e)
        },
    }
}
