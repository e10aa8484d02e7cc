//! How the texts of a table's languages are read.
ghost use Rattle.std.specs.Prelude.{◌≡◌, codes};
ghost use Rattle.tokei_table.specs.Lookups.{first_where, has_name};

use std::alloc::Global;
use tokei_parts::TableMatchers;
use tokei_table::{LanguageTable, LanguageType};

/// How the texts of a table's languages are read.
#[derive(Clone, Copy)]
pub(crate) struct Reader<'a, 't> {
    pub alloc: Global,
    pub table: &'t LanguageTable,
    /// What texts are searched and walked with, by language.
    pub matchers: &'a TableMatchers<'t>,
    /// The language of doc comments, where the table has it: it is looked up once, and not for each
    /// of them.
    pub markdown: &'a Option<LanguageType>,
    /// Whether doc strings are treated as comments.
    pub docs_are_comments: bool,
    /// Whether parts that begin plain and hold no opener are skipped, by the matchers, or walked as
    /// the others are.
    pub skips: bool,
    ghost docs: { markdown.now ≡ first_where (has_name (codes "Markdown")) table.now },
}
