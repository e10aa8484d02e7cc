//! A language of the table.
ghost use Rattle.std.specs.Prelude.{◌≡◌, ◌<◌, length, map, IfOk};
ghost use Rattle.tokei_table_rules.specs.Families.{family_of};
ghost use Rattle.tokei_table.specs.Listed.{listed, languages_from};
ghost use Rattle.tokei_table_rules.specs.Lookups.{row_at};
ghost use Rattle.tokei_table_row.specs.RowOf.{pairs_of, tokens_of};

use crate::table::LanguageTable;
use std::alloc::{AllocError, Global};
use std::marker::Model;
use tokei_table_rules::Family;

/// A language by its place in the table. Equality, order and hash are those of the places.
#[derive(Clone, Copy, Debug, PartialEq, Eq, PartialOrd, Ord, Hash)]
pub struct LanguageType {
    index: usize,
}

impl Model for LanguageType {
    ghost use Rattle.std.specs.Prelude.{ℕ};

    ghost Value = { ℕ };

    ghost view = { λ l. l.index };

    ghost inverse = { λ n. record { index = n } };
}

impl LanguageType {
    /// The language at that place.
    pub(crate) fn at(index: usize) -> LanguageType
        ensures { result ≡ index }
    {
        LanguageType { index }
    }

    /// Its place in the table, from 0.
    pub fn index(self) -> usize
        ensures { result ≡ self }
    {
        self.index
    }
}

impl LanguageType {
    /// The key under which the table lists the language.
    pub fn key(self, table: &LanguageTable) -> &str
        requires { self < length table.now }
        ensures { result.now ≡ (row_at table.entry.now self).key }
    {
        table.syntax(self).key.as_str()
    }

    /// The name that is shown.
    pub fn name(self, table: &LanguageTable) -> &str
        requires { self < length table.now }
        ensures { result.now ≡ (row_at table.entry.now self).name }
    {
        table.syntax(self).name.as_str()
    }

    /// How the language opens children.
    pub fn family(self, table: &LanguageTable) -> Family
        requires { self < length table.now }
        ensures { result ≡ family_of (row_at table.now self).key }
    {
        Family::of_key(table.syntax(self).key.as_str())
    }

    /// Whether every line that isn't blank is a comment.
    pub fn is_literate(self, table: &LanguageTable) -> bool
        requires { self < length table.now }
        ensures { result ≡ (row_at table.now self).literate }
    {
        table.syntax(self).literate
    }

    /// Whether each comment over many lines may hold others.
    pub fn allows_nested(self, table: &LanguageTable) -> bool
        requires { self < length table.now }
        ensures { result ≡ (row_at table.now self).nested }
    {
        table.syntax(self).nested
    }

    /// What begins a comment that runs to its line's end.
    pub fn line_comments(self, table: &LanguageTable) -> &[String]
        requires { self < length table.now }
        ensures { tokens_of result.now ≡ (row_at table.entry.now self).line_comment }
    {
        &table.syntax(self).line_comment
    }

    /// The opener and the closer of each comment over many lines.
    pub fn multi_line_comments(self, table: &LanguageTable) -> &[(String, String)]
        requires { self < length table.now }
        ensures { pairs_of result.now ≡ (row_at table.entry.now self).multi_line_comments }
    {
        &table.syntax(self).multi_line_comments
    }

    /// The comments that may stand in comments.
    pub fn nested_comments(self, table: &LanguageTable) -> &[(String, String)]
        requires { self < length table.now }
        ensures { pairs_of result.now ≡ (row_at table.entry.now self).nested_comments }
    {
        &table.syntax(self).nested_comments
    }

    /// The opener and the closer of each string literal.
    pub fn quotes(self, table: &LanguageTable) -> &[(String, String)]
        requires { self < length table.now }
        ensures { pairs_of result.now ≡ (row_at table.entry.now self).quotes }
    {
        &table.syntax(self).quotes
    }

    /// The string literals in which a backslash means itself.
    pub fn verbatim_quotes(self, table: &LanguageTable) -> &[(String, String)]
        requires { self < length table.now }
        ensures { pairs_of result.now ≡ (row_at table.entry.now self).verbatim_quotes }
    {
        &table.syntax(self).verbatim_quotes
    }

    /// The string literals that document code.
    pub fn doc_quotes(self, table: &LanguageTable) -> &[(String, String)]
        requires { self < length table.now }
        ensures { pairs_of result.now ≡ (row_at table.entry.now self).doc_quotes }
    {
        &table.syntax(self).doc_quotes
    }

    /// The first words of its scripts' first lines.
    pub fn shebangs(self, table: &LanguageTable) -> &[String]
        requires { self < length table.now }
        ensures { tokens_of result.now ≡ (row_at table.entry.now self).shebangs }
    {
        &table.syntax(self).shebangs
    }

    /// All languages in the order of the table, each with its extensions. It fails where memory
    /// runs out.
    pub fn list<'a>(
        alloc: Global,
        table: &'a LanguageTable,
    ) -> Result<Vec<(LanguageType, &'a [String])>, AllocError>
        ensures { IfOk result (λ v. map listed v.items ≡ languages_from 0 table.now) }
    {
        let rows = table.rows();
        let mut out = Vec::with_capacity(alloc, rows.len())?;
        for (i, row) in rows.iter().enumerate() {
            match out.push((LanguageType::at(i), row.extensions.as_slice())) {
                Ok(()) => {}
                Err(_refused) => return Err(AllocError),
            }
        }
        Ok(out)
    }
}
