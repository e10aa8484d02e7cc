//! A text that is read.
ghost use Rattle.std.specs.Prelude.{◌≡◌, ◌<◌, codes, length};
ghost use Rattle.tokei_table.specs.Families.{family_of};
ghost use Rattle.tokei_table.specs.Lookups.{first_where, has_name, row_at};
ghost use Rattle.tokei_table.specs.RowOf.{row_of};
ghost use Rattle.tokei_table.specs.Sound.{IsSound};
ghost use Rattle.tokei_parts.specs.Matchers.{matchers_of};

use crate::matchers::LanguageMatchers;
use tokei_table::{LanguageTable, LanguageType};
use tokei_table_row::Syntax;
use tokei_table_rules::family::Family;

/// A text that is read, and how.
#[derive(Clone, Copy)]
pub struct Reading<'a, 't> {
    pub table: &'t LanguageTable,
    pub language: LanguageType,
    /// The row of the language, and how it opens children: both are asked for at each search.
    pub syntax: &'t Syntax,
    pub family: Family,
    /// The language of doc comments, where the table has it.
    pub markdown: &'a Option<LanguageType>,
    /// What texts of the language are searched and walked with.
    pub matchers: &'a LanguageMatchers<'t>,
    pub text: &'a [u8],
    /// Whether doc strings are treated as comments.
    pub docs_are_comments: bool,
    /// How deep children may still open.
    pub levels: u32,
    /// Whether parts that begin plain and hold no opener are skipped, and children looked for
    /// ahead.
    pub skips: bool,
    ghost known: { language < length table.now },
    ghost row: { row_of syntax.now ≡ row_at table.now language },
    ghost sound: { IsSound (row_at table.now language) },
    ghost matched: { matchers.now ≡ matchers_of (row_at table.now language) },
    ghost docs: { markdown.now ≡ first_where (has_name (codes "Markdown")) table.now },
    ghost opens: { family ≡ family_of (row_at table.now language).key },
}
