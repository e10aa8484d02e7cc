//! Which language a file has: by its name, and by its head where the name decides nothing and has
//! no extension.
ghost use Rattle.std.specs.Prelude.{◌≡◌, ◌<◌, length, IfOk, IfSome};
ghost use Rattle.tokei_config.specs.Seen.{settings_of};
ghost use Rattle.tokei_folders.specs.Answers.{Told};
ghost use Rattle.tokei_files.specs.Paths.{name_of, language_by_head, language_by_path, rows_by};
ghost use Rattle.tokei_folders.specs.AsTheyWere.{AsTheyWere};

use std::alloc::{AllocError, Global};
use tokei_config::Config;
use tokei_folders::names::last_name;
use tokei_folders::{Fault, Folders};
use tokei_table::{LanguageTable, LanguageType, has_extension};

/// The last name of a path; the empty text where it has none.
fn file_name(path: &str) -> &str
    ensures { result.now ≡ name_of path.entry.now }
{
    last_name(path).unwrap_or("")
}

/// The language of a script, by the first line of its head. A head that can't be read has none.
/// `Memory` is the only refusal, and leaves the folders' tree as it was.
pub fn from_shebang<F: Folders>(
    _alloc: Global,
    table: &LanguageTable,
    folders: &mut F,
    path: &str,
) -> Result<Option<LanguageType>, AllocError>
    ensures folders { AsTheyWere F.tree F.memory_faults folders.old folders.new result }
    ensures told { Told (F.tree folders.old) (λ t. IfOk result (λ o.
        o ≡ language_by_head t table.now path.now)) }
    ensures of_table { IfOk result (λ o. IfSome o (λ l. l < length table.now)) }
{
    match folders.head(path) {
        Ok(head) => Ok(LanguageType::from_shebang_bytes(table, &head)),
        Err(Fault::Refused) => Ok(None),
        Err(Fault::Memory) => Err(AllocError),
    }
}

/// The language of the file at a path, by the table as it stands: by its name, and by its head
/// where the name decides nothing and has no extension. `Memory` is the only refusal, and leaves
/// the folders' tree as it was.
pub fn language_of_path<F: Folders>(
    alloc: Global,
    table: &LanguageTable,
    folders: &mut F,
    path: &str,
) -> Result<Option<LanguageType>, AllocError>
    ensures folders { AsTheyWere F.tree F.memory_faults folders.old folders.new result }
    ensures told { Told (F.tree folders.old) (λ t. IfOk result (λ o.
        o ≡ language_by_path t table.now path.now)) }
    ensures of_table { IfOk result (λ o. IfSome o (λ l. l < length table.now)) }
{
    let name = file_name(path);
    match LanguageType::from_file_name(alloc, table, name)? {
        Some(language) => Ok(Some(language)),
        None if has_extension(name) => Ok(None),
        None => from_shebang(alloc, table, folders, path),
    }
}

/// The language of the file at a path, by the table in which languages have gained the extensions
/// of the configuration. `Memory` is the only refusal, and leaves the folders' tree as it was.
pub fn from_path<F: Folders>(
    alloc: Global,
    table: &LanguageTable,
    folders: &mut F,
    path: &str,
    config: &Config,
) -> Result<Option<LanguageType>, AllocError>
    ensures folders { AsTheyWere F.tree F.memory_faults folders.old folders.new result }
    ensures told { Told (F.tree folders.old) (λ t. IfOk result (λ o.
        o ≡ language_by_path t (rows_by table.now (settings_of config.now)) path.now)) }
    ensures of_table { IfOk result (λ o. IfSome o (λ l. l < length table.now)) }
{
    let extended = config.extended_table(alloc, table)?;
    language_of_path(alloc, &extended, folders, path)
}
