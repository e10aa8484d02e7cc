//! The names under which languages are shown.
ghost use Rattle.std.specs.Prelude.{◌≡◌};
ghost use Rattle.tokei_languages.specs.Names.{name_in};

use tokei_table::{LanguageTable, LanguageType};

/// The name of a language; one that isn't of the table has an empty name.
pub fn name_of(table: &LanguageTable, language: LanguageType) -> &str
    ensures { result.now ≡ name_in table.entry.now language }
{
    if table.has(language) {
        language.name(table)
    } else {
        ""
    }
}
