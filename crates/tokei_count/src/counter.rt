//! What the texts of a table's languages are counted with.
ghost use Rattle.std.specs.Prelude.{◌≡◌, ◌<◌, codes, length, map, IfOk};
ghost use Rattle.tokei_table.specs.Lookups.{first_where, has_name, row_at};
ghost use Rattle.tokei_table.specs.Openers.{openers};
ghost use Rattle.tokei_table.specs.WellFormed.{IsWellFormed};
ghost use Rattle.tokei_parts.specs.Matchers.{matchers_of};

use std::alloc::{AllocError, Global};
use std::marker::Model;
use tokei_parts::{SharedMatchers, TableMatchers};
use tokei_table::{LanguageTable, LanguageType};

/// Counts texts in the languages of a table, which it borrows, with matchers of each of them.
/// Contracts see it as that table.
#[derive(Drop)]
pub struct Counter<'a> {
    table: &'a LanguageTable,
    matchers: TableMatchers<'a>,
    /// The language of doc comments, where the table has it.
    markdown: Option<LanguageType>,
}

impl<'a> Model for Counter<'a> {
    ghost use Rattle.std.specs.Prelude.{◌≡◌, List, codes, map};
    ghost use Rattle.tokei_parts.specs.Matchers.{matchers_of};
    ghost use Rattle.tokei_table.specs.Lookups.{first_where, has_name};
    ghost use Rattle.tokei_table.specs.Row.{Row};
    ghost use Rattle.tokei_table.specs.WellFormed.{IsWellFormed};

    ghost Value = { List Row };

    ghost view = { λ c. c.table.now };

    ghost invariant = { λ c. (c.matchers ≡ map matchers_of c.table.now)
        × IsWellFormed c.table.now
        × (c.markdown ≡ first_where (has_name (codes "Markdown")) c.table.now) };
}

impl<'a> Counter<'a> {
    /// A counter of the table's languages. It fails where memory runs out.
    pub fn new(alloc: Global, table: &'a LanguageTable) -> Result<Counter<'a>, AllocError>
        ensures { IfOk result (λ c. c ≡ table.now) }
    {
        let matchers = TableMatchers::new(alloc, table)?;
        let markdown = LanguageType::from_name(table, "Markdown");
        Ok(Counter {
            table,
            matchers,
            markdown,
        })
    }

    /// The table.
    pub fn table(&self) -> &'a LanguageTable
        ensures table { result.now ≡ self.now }
        ensures well_formed { IsWellFormed self.now }
    {
        self.table
    }

    /// The matchers of a language of the table.
    pub fn matchers(&self, language: LanguageType) -> &SharedMatchers
        requires { language < length self.now }
        ensures { result.now ≡ openers (row_at self.entry.now language) }
    {
        self.matchers.of(language).shared()
    }

    /// The language of doc comments, where the table has it.
    pub(crate) fn markdown(&self) -> &Option<LanguageType>
        ensures { result.now ≡ first_where (has_name (codes "Markdown")) self.entry.now }
    {
        &self.markdown
    }

    /// The matchers of each language of the table, in its order.
    pub(crate) fn matchers_by_language(&self) -> &TableMatchers<'a>
        ensures { result.now ≡ map matchers_of self.entry.now }
    {
        &self.matchers
    }
}
