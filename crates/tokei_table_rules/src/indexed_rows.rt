//! Rows of languages with an index of their names, extensions, whole names of files and path
//! suffixes.
ghost use Rattle.std.specs.Prelude.{◌≡◌, ◌<◌, length, map, IfOk};
ghost use Rattle.std.specs.List.{list_any};
ghost use Rattle.tokei_table_rules.specs.Lookups.{row_at};
ghost use Rattle.tokei_table_rules.specs.PathSuffixes.{has_short_suffix};
ghost use Rattle.tokei_table_rules.specs.TextIndex.{places_of, texts_of, entries_from, AreGroups};
ghost use Rattle.tokei_table_row.specs.RowOf.{row_of};

use crate::path_suffixes::{has_short_suffix, tail};
use crate::text_index::{TextIndex, TextKind};
use std::alloc::{AllocError, Global};
use std::marker::Model;
use tokei_table_row::Syntax;

/// Rows and what is kept beside them, so that no look-up walks over all of them. Contracts see the
/// rows.
#[derive(Drop)]
pub struct IndexedRows {
    rows: Vec<Syntax>,
    by_name: TextIndex,
    by_lowered_name: TextIndex,
    by_extension: TextIndex,
    by_filename: TextIndex,
    by_suffix_tail: TextIndex,
    short_suffix: bool,
}

impl Model for IndexedRows {
    ghost use Rattle.std.specs.Prelude.{List, map};
    ghost use Rattle.tokei_table_rules.specs.Indexed.{IsIndexed};
    ghost use Rattle.tokei_table_row.specs.Row.{Row};
    ghost use Rattle.tokei_table_row.specs.RowOf.{row_of};

    ghost Value = { List Row };

    ghost view = { λ t. map row_of t.rows.items };

    ghost invariant = { λ t. IsIndexed (map row_of t.rows.items) t.by_name t.by_lowered_name
        t.by_extension t.by_filename t.by_suffix_tail t.short_suffix };
}

/// The indexes of the rows' texts of two kinds.
fn two_indexes(
    alloc: Global,
    rows: &[Syntax],
    first: TextKind,
    second: TextKind,
) -> Result<(TextIndex, TextIndex), AllocError>
    ensures first { IfOk result (λ two. AreGroups
        (entries_from (texts_of first) 0 (map row_of rows.now)) two.0) }
    ensures second { IfOk result (λ two. AreGroups
        (entries_from (texts_of second) 0 (map row_of rows.now)) two.1) }
{
    let first = TextIndex::of(alloc, rows, first)?;
    let second = TextIndex::of(alloc, rows, second)?;
    Ok((first, second))
}

impl IndexedRows {
    /// These rows with an index of their keys and names, one of their names in lower case, one of
    /// their extensions, one of whole names of files and one of what path suffixes end with. It
    /// fails where memory runs out.
    pub fn new(alloc: Global, rows: Vec<Syntax>) -> Result<IndexedRows, AllocError>
        ensures { IfOk result (λ t. t ≡ map row_of rows.items) }
    {
        let (by_name, by_lowered_name) = two_indexes(
            alloc,
            &rows,
            TextKind::Names,
            TextKind::LoweredNames,
        )?;
        let by_extension = TextIndex::of(alloc, &rows, TextKind::Extensions)?;
        let (by_filename, by_suffix_tail) = two_indexes(
            alloc,
            &rows,
            TextKind::Filenames,
            TextKind::SuffixTails,
        )?;
        let short_suffix = has_short_suffix(&rows);
        Ok(IndexedRows {
            rows,
            by_name,
            by_lowered_name,
            by_extension,
            by_filename,
            by_suffix_tail,
            short_suffix,
        })
    }

    /// The rows, in their order.
    pub fn rows(&self) -> &[Syntax]
        ensures { map row_of result.now ≡ self.entry.now }
    {
        self.rows.as_slice()
    }

    /// The row at that place.
    pub(crate) fn row(&self, place: usize) -> &Syntax
        requires { place < length self.now }
        ensures { row_of result.now ≡ row_at self.entry.now place }
    {
        &self.rows[place]
    }

    /// Places of rows, in their order, among which are those of the rows that have the text as one
    /// of that kind; of path suffixes, those of the rows with one of the text's, unless one is
    /// short.
    #[inline(always)]
    pub(crate) fn places(&self, kind: TextKind, text: &[u8]) -> &[usize]
        ensures { result.now ≡ places_of kind text.now self.entry.now }
    {
        match kind {
            TextKind::Names => self.by_name.places(text),
            TextKind::LoweredNames => self.by_lowered_name.lowered_places(text),
            TextKind::Extensions => self.by_extension.places(text),
            TextKind::Filenames => self.by_filename.places(text),
            TextKind::SuffixTails => self.by_suffix_tail.places(tail(text)),
        }
    }

    /// Whether a row has a path suffix of fewer than two bytes.
    pub(crate) fn has_short_suffix(&self) -> bool
        ensures { result ≡ list_any has_short_suffix self.now }
    {
        self.short_suffix
    }
}
