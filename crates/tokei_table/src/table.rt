//! The table of languages.
ghost use Rattle.std.specs.Prelude.{◌≡◌, ◌<◌, ◌==◌, length, map, nat_lt, true};
ghost use Rattle.std.specs.Prelude.{IfOk};
ghost use Rattle.tokei_table_rules.specs.Extended.{addition_of, extended};
ghost use Rattle.tokei_table_rules.specs.Lookups.{row_at};
ghost use Rattle.tokei_table_rules.specs.Tokens.{has_tokens};
ghost use Rattle.tokei_table_row.specs.RowOf.{row_of};
ghost use Rattle.tokei_table_row.specs.Sound.{IsSound};
ghost use Rattle.tokei_table.specs.WellFormed.{IsWellFormed};

use crate::extend::extended_rows;
use crate::language_type::LanguageType;
use std::alloc::{AllocError, Global};
use std::marker::Model;
use std::rc::Rc;
use tokei_table_row::Syntax;
use tokei_table_rules::IndexedRows;

/// The table of languages, which contracts see as its rows, in the byte order of their keys. A
/// table that gains nothing shares its rows.
#[derive(Drop)]
pub struct LanguageTable {
    rows: Rc<IndexedRows>,
}

impl Model for LanguageTable {
    ghost use Rattle.std.specs.Prelude.{List};
    ghost use Rattle.tokei_table_row.specs.Row.{Row};
    ghost use Rattle.tokei_table.specs.WellFormed.{IsWellFormed};

    ghost Value = { List Row };

    ghost view = { λ t. t.rows.value };

    ghost invariant = { λ t. IsWellFormed t.rows.value };
}

impl LanguageTable {
    /// The table of these rows, with what look-ups need beside them. It fails where memory runs out.
    pub fn of_rows(alloc: Global, rows: Vec<Syntax>) -> Result<LanguageTable, AllocError>
        requires { IsWellFormed (map row_of rows.items) }
        ensures { IfOk result (λ t. t ≡ map row_of rows.items) }
    {
        let rows = Rc::new(alloc, IndexedRows::new(alloc, rows)?)?;
        Ok(LanguageTable { rows })
    }

    /// The rows as read.
    pub(crate) fn rows(&self) -> &[Syntax]
        ensures { map row_of result.now ≡ self.entry.now }
    {
        self.rows.as_ref().rows()
    }

    /// The rows with their index.
    pub(crate) fn indexed_rows(&self) -> &IndexedRows
        ensures { result.now ≡ self.entry.now }
    {
        self.rows.as_ref()
    }

    /// How many languages there are.
    pub fn len(&self) -> usize
        ensures value { result ≡ length self.now }
        ensures well_formed { IsWellFormed self.now }
    {
        self.rows.as_ref().rows().len()
    }

    /// Whether there are no languages.
    pub fn is_empty(&self) -> bool
        ensures { result ≡ (length self.now == 0) }
    {
        self.rows.as_ref().rows().is_empty()
    }

    /// Whether the language is one of this table.
    pub fn has(&self, language: LanguageType) -> bool
        ensures { result ≡ nat_lt language (length self.now) }
    {
        language.index() < self.rows.as_ref().rows().len()
    }

    /// The language's row as read. All its tokens are neither empty nor all blank, and none holds a
    /// newline.
    pub fn syntax(&self, language: LanguageType) -> &Syntax
        requires { language < length self.now }
        ensures row { row_of result.now ≡ row_at self.entry.now language }
        ensures tokens { has_tokens (row_of result.now) ≡ true }
        ensures sound { IsSound (row_of result.now) }
    {
        &self.rows.as_ref().rows()[language.index()]
    }

    /// The same table, over the same rows. It fails where they are shared too often.
    fn shared(&self) -> Result<LanguageTable, AllocError>
        ensures { IfOk result (λ t. t ≡ self.now) }
    {
        let rows = self.rows.clone()?;
        Ok(LanguageTable { rows })
    }

    /// The table in which, in its order, each language gains those of the extensions listed for it
    /// that no language has yet; a language may be listed more than once. It fails where memory
    /// runs out.
    pub fn extended(
        &self,
        alloc: Global,
        additions: &[(LanguageType, &[String])],
    ) -> Result<LanguageTable, AllocError>
        ensures { IfOk result (λ t. t ≡ extended self.now (map addition_of additions.now)) }
    {
        if additions.is_empty() {
            return self.shared();
        }
        let rows = extended_rows(alloc, self.rows.as_ref().rows(), additions)?;
        LanguageTable::of_rows(alloc, rows)
    }
}
