//! The configuration files of a user.
ghost use Rattle.std.specs.Prelude.{◌≡◌, ◌<◌, ◌++◌, IfOk, OnOk, option_map, option_and_then, None, Some};
ghost use Rattle.tokei_config.specs.Document.{settings_of_text};
ghost use Rattle.tokei_config.specs.Files.{as_text, text_at, settings_of_folder};
ghost use Rattle.tokei_config.specs.Flaws.{cause_of_bytes, cause_of_found, flaw_at, flaws_in, listed, placed_causes};
ghost use Rattle.tokei_config.specs.Found.{file_found};
ghost use Rattle.tokei_config.specs.declared.flaws.Cause.TheVariants.{Unreadable};
ghost use Rattle.tokei_folders.specs.Answers.{node_content};
ghost use Rattle.tokei_config.specs.Seen.{settings_of};
ghost use Rattle.tokei_config.specs.Settings.{first_of_each};
ghost use Rattle.tokei_folders.specs.Answers.{Told};
ghost use Rattle.tokei_folders.specs.Places.{joined as joined_places};
ghost use Rattle.tokei_folders.specs.Tree.{names_of, node_at};
ghost use Rattle.tokei_folders.specs.AsTheyWere.{AsTheyWere};

use crate::config::Config;
use crate::document::{FileRead, Reason, config_of_text};
use crate::flaws::{Cause, Flaw};
use std::alloc::{AllocError, Global};
use tokei_folders::places::joined;
use tokei_folders::{Fault, Folders, Kind, Text};
use tokei_table::LanguageTable;

/// The folders in which configuration files are looked for, where there are such folders.
#[derive(Debug, Drop)]
pub struct ConfigDirs {
    /// The user's folder for configuration, which is asked last.
    pub config: Option<String>,
    /// The user's own folder.
    pub home: Option<String>,
    /// The current folder, which is asked first.
    pub current: Option<String>,
}

/// What some bytes say, where they are UTF-8.
fn config_of_bytes(
    alloc: Global,
    table: &LanguageTable,
    bytes: &[u8],
) -> Result<FileRead, AllocError>
    ensures config { IfOk result (λ r. option_map settings_of r.config
        ≡ option_map (settings_of_text table.now) (as_text bytes.now)) }
    ensures cause { IfOk result (λ r. option_map (λ w. w.cause) r.reason
        ≡ cause_of_bytes table.now bytes.now) }
{
    match std::str::from_utf8(bytes) {
        Ok(text) => config_of_text(alloc, table, text),
        Err(_) => Ok(FileRead {
            config: None,
            reason: Some(Reason {
                cause: Cause::NotUtf8,
                detail: Text::from_string(String::new(alloc)),
            }),
        }),
    }
}

/// A file that can't be read, with the system's words, where it has some.
fn unreadable<F: Folders>(alloc: Global, folders: &F) -> Result<FileRead, AllocError>
    ensures config { IfOk result (λ r. option_map settings_of r.config ≡ None) }
    ensures cause { IfOk result (λ r. option_map (λ w. w.cause) r.reason ≡ Some Unreadable) }
{
    match folders.cause(alloc) {
        Ok(words) => Ok(FileRead {
            config: None,
            reason: Some(Reason {
                cause: Cause::Unreadable,
                detail: Text::from_string(words),
            }),
        }),
        Err(_) => Err(AllocError),
    }
}

/// What is read of the file that stands at a place.
fn content_at<F: Folders>(
    alloc: Global,
    table: &LanguageTable,
    folders: &mut F,
    place: &str,
) -> Result<FileRead, AllocError>
    ensures folders { AsTheyWere F.tree F.memory_faults folders.old folders.new result }
    ensures told { Told (F.tree folders.old) (λ t. IfOk result (λ r.
        option_map settings_of r.config ≡ option_map (settings_of_text table.now)
        (option_and_then as_text (node_content (node_at t (names_of place.now)))))) }
    ensures cause { Told (F.tree folders.old) (λ t. IfOk result (λ r.
        option_map (λ w. w.cause) r.reason
        ≡ cause_of_found table.now (Some (node_content (node_at t (names_of place.now)))))) }
{
    match folders.read(place) {
        Ok(bytes) => config_of_bytes(alloc, table, bytes.as_slice()),
        Err(Fault::Refused) => unreadable(alloc, folders),
        Err(Fault::Memory) => Err(AllocError),
    }
}

/// What is read of the file at a place. A place of which it can't be told what stands there has one
/// that can't be read.
fn read_at<F: Folders>(
    alloc: Global,
    table: &LanguageTable,
    folders: &mut F,
    place: &str,
) -> Result<FileRead, AllocError>
    ensures folders { AsTheyWere F.tree F.memory_faults folders.old folders.new result }
    ensures told { Told (F.tree folders.old) (λ t. IfOk result (λ r.
        option_map settings_of r.config ≡ option_map (settings_of_text table.now)
        (option_and_then as_text (node_content (node_at t (names_of place.now)))))) }
    ensures cause { Told (F.tree folders.old) (λ t. IfOk result (λ r.
        option_map (λ w. w.cause) r.reason
        ≡ cause_of_found table.now (file_found (node_at t (names_of place.now))))) }
{
    match folders.kind_if_any(place) {
        Ok(Some(Kind::File)) => content_at(alloc, table, folders, place),
        Ok(_) => Ok(FileRead {
            config: None,
            reason: None,
        }),
        Err(Fault::Refused) => unreadable(alloc, folders),
        Err(Fault::Memory) => Err(AllocError),
    }
}

/// The configuration that was read of the file at a place. Adds the file's flaw, where it has one.
fn noted(flaws: &mut Vec<Flaw>, place: Text, read: FileRead) -> Result<Option<Config>, AllocError>
    ensures config { IfOk result (λ c. c ≡ read.config) }
    ensures flawed { OnOk result (placed_causes flaws.new.items ≡ placed_causes flaws.old.items
        ++ listed (option_map (λ r. (place, r.cause)) read.reason)) }
{
    let FileRead { config, reason } = read;
    match reason {
        None => Ok(config),
        Some(reason) => match flaws.push(Flaw {
            place,
            cause: reason.cause,
            detail: reason.detail,
        }) {
            Ok(()) => Ok(config),
            Err(_) => Err(AllocError),
        },
    }
}

/// The configuration of a file by its folder and its name, where it can be read as UTF-8. Adds its
/// flaw.
fn config_at<F: Folders>(
    alloc: Global,
    table: &LanguageTable,
    folders: &mut F,
    file: (&str, &str),
    flaws: &mut Vec<Flaw>,
) -> Result<Option<Config>, AllocError>
    ensures folders { AsTheyWere F.tree F.memory_faults folders.old folders.new result }
    ensures told { Told (F.tree folders.old) (λ t. IfOk result (λ c. option_map settings_of c
        ≡ option_map (settings_of_text table.now)
        (text_at t (names_of file.entry.0.now) file.entry.1.now))) }
    ensures flawed { Told (F.tree folders.old) (λ t. OnOk result (placed_causes flaws.new.items
        ≡ placed_causes flaws.old.items
        ++ listed (flaw_at table.now t file.entry.0.now file.entry.1.now))) }
{
    let (folder, name) = file;
    let place = joined(alloc, folder, name)?;
    let read = read_at(alloc, table, folders, place.as_str())?;
    noted(flaws, place, read)
}

/// The configuration of a folder's file; an empty one where there is no folder or no file that can
/// be read. Adds the flaws of its files.
pub(crate) fn config_in<F: Folders>(
    alloc: Global,
    table: &LanguageTable,
    folders: &mut F,
    folder: &Option<String>,
    flaws: &mut Vec<Flaw>,
) -> Result<Config, AllocError>
    ensures folders { AsTheyWere F.tree F.memory_faults folders.old folders.new result }
    ensures told { Told (F.tree folders.old) (λ t. IfOk result (λ c. settings_of c
        ≡ settings_of_folder table.now t folder.now)) }
    ensures flawed { Told (F.tree folders.old) (λ t. OnOk result (placed_causes flaws.new.items
        ≡ placed_causes flaws.old.items ++ flaws_in table.now t folder.now)) }
{
    let Some(folder) = folder else {
        return Ok(Config::new());
    };
    let place = folder.as_str();
    if let Some(config) = config_at(alloc, table, folders, (place, "tokei.toml"), flaws)? {
        return Ok(config);
    }
    match config_at(alloc, table, folders, (place, ".tokeirc"), flaws)? {
        Some(config) => Ok(config),
        None => Ok(Config::new()),
    }
}

/// The configuration behind the current folder's: of each member the first that is there of the
/// home folder's and that of the folder for configuration. Adds the flaws of their files.
pub(crate) fn config_behind<F: Folders>(
    alloc: Global,
    table: &LanguageTable,
    folders: &mut F,
    dirs: &ConfigDirs,
    flaws: &mut Vec<Flaw>,
) -> Result<Config, AllocError>
    ensures folders { AsTheyWere F.tree F.memory_faults folders.old folders.new result }
    ensures told { Told (F.tree folders.old) (λ t. IfOk result (λ c. settings_of c
        ≡ first_of_each (settings_of_folder table.now t dirs.now.home)
        (settings_of_folder table.now t dirs.now.config))) }
    ensures flawed { Told (F.tree folders.old) (λ t. OnOk result (placed_causes flaws.new.items
        ≡ placed_causes flaws.old.items
        ++ (flaws_in table.now t dirs.now.home ++ flaws_in table.now t dirs.now.config))) }
{
    let home = config_in(alloc, table, folders, &dirs.home, flaws)?;
    let config = config_in(alloc, table, folders, &dirs.config, flaws)?;
    Ok(home.or(config))
}
