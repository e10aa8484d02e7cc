//! A table of languages, and which of them a name stands for, found without a walk over the table.
ghost use Rattle.std.specs.Prelude.{◌≡◌, ◌<◌, length, Some, IfOk, IfSome, IsTrue};
ghost use Rattle.tokei_table.specs.Lookups.{has_name, row_at};
ghost use Rattle.tokei_json.specs.LanguageMaps.{language_named};

use std::alloc::{AllocError, Global};
use std::collections::BTreeMap;
use std::marker::Model;
use tokei_table::{LanguageTable, LanguageType};

/// A table, which contracts see as its rows, with its languages by their keys and names.
#[derive(Drop)]
pub struct NamedTable<'a> {
    table: &'a LanguageTable,
    /// Where to look first: what is found here is compared with the table.
    languages: BTreeMap<&'a str, LanguageType>,
}

impl<'a> Model for NamedTable<'a> {
    ghost use Rattle.std.specs.Prelude.{List};
    ghost use Rattle.tokei_table.specs.Row.{Row};

    ghost Value = { List Row };

    ghost view = { λ t. t.table.now };
}

/// Whether that is the language's key or its name.
fn has_name(table: &LanguageTable, language: LanguageType, name: &str) -> bool
    requires { language < length table.now }
    ensures { result ≡ has_name name.now (row_at table.now language) }
{
    language.key(table) == name || language.name(table) == name
}

/// Whether the language is one of the table, and that is its key or its name.
fn is_named(table: &LanguageTable, language: LanguageType, name: &str) -> bool
    ensures named { IsTrue result → language_named table.now name.now ≡ Some language }
    ensures of_table { IsTrue result → language < length table.now }
{
    if table.len() <= language.index() {
        return false;
    }
    has_name(table, language, name)
}

/// Puts the language under its key and its name, where it is one of the table.
fn put<'a>(
    languages: &mut BTreeMap<&'a str, LanguageType>,
    table: &'a LanguageTable,
    language: LanguageType,
) -> Result<(), AllocError> {
    if !table.has(language) {
        return Ok(());
    }
    match languages.insert(language.key(table), language) {
        Ok(_old) => {}
        Err(_refused) => return Err(AllocError),
    }
    match languages.insert(language.name(table), language) {
        Ok(_old) => Ok(()),
        Err(_refused) => Err(AllocError),
    }
}

impl<'a> NamedTable<'a> {
    /// The table, with its keys and names. It fails where memory runs out.
    pub fn new(alloc: Global, table: &'a LanguageTable) -> Result<NamedTable<'a>, AllocError>
        ensures { IfOk result (λ t. t ≡ table.now) }
    {
        let listed = LanguageType::list(alloc, table)?;
        let mut languages = BTreeMap::new(alloc);
        for (language, _extensions) in &listed {
            put(&mut languages, table, *language)?;
        }
        Ok(NamedTable { table, languages })
    }

    /// The table.
    pub(crate) fn as_table(&self) -> &'a LanguageTable
        ensures { result.now ≡ self.now }
    {
        self.table
    }

    /// The language whose key or name this is. It takes a walk over the table only where there is
    /// none.
    pub fn language(&self, name: &str) -> Option<LanguageType>
        ensures value { result ≡ language_named self.now name.now }
        ensures of_table { IfSome result (λ l. l < length self.now) }
    {
        if let Some(language) = self.languages.get(name) {
            if is_named(self.table, *language, name) {
                return Some(*language);
            }
        }
        LanguageType::from_name(self.table, name)
    }
}
