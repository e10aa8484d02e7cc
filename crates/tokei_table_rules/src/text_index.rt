//! Which rows of a table have a text, found without a walk over the table.
ghost use Rattle.std.specs.Prelude.{◌≡◌, ◌<◌, ◌++◌, [], length, map, IfOk, OnOk, slice_index_or};
ghost use Rattle.std.specs.Str.{str_to_ascii_lowercase};
ghost use Rattle.tokei_table_row.specs.RowOf.{row_of, tokens_of};
ghost use Rattle.tokei_table_rules.specs.TextIndex.{group_of, entries_of, entries_from, texts_of};
ghost use Rattle.tokei_table_rules.specs.TextIndex.{in_group, begin_of, HasForEach, AreGroups};
ghost use Rattle.tokei_table_rules.specs.PathSuffixes.{tail_of};

use crate::path_suffixes::tail;
use std::alloc::{AllocError, Global};
use std::marker::Model;
use tokei_table_row::Syntax;

/// By which of its texts a row is found in an index.
#[derive(Clone, Copy)]
pub(crate) enum TextKind {
    /// Its key and its name.
    Names,
    /// Its name in ASCII lower case.
    LoweredNames,
    /// Its extensions.
    Extensions,
    /// Its whole names of files.
    Filenames,
    /// The last two bytes of each of its path suffixes.
    SuffixTails,
}

/// How many groups of texts there are.
const GROUPS: usize = 256;

/// The number of a text's group, and the place of its row.
type Entry = (u8, usize);

/// For each group of texts the rows that have one of them. Contracts see the rows' places, group by
/// group.
#[derive(Drop)]
pub(crate) struct TextIndex {
    /// The places of all groups, one group after the other.
    places: Vec<usize>,
    /// Where each group ends among them.
    ends: Vec<usize>,
}

impl Model for TextIndex {
    ghost use Rattle.std.specs.Prelude.{List, ℕ};
    ghost use Rattle.tokei_table_rules.specs.TextIndex.{parts_from, AreEnds};

    ghost Value = { List (List ℕ) };

    ghost view = { λ x. parts_from 0 x.ends.items x.places.items };

    ghost invariant = { λ x. AreEnds x.ends.items x.places.items };
}

/// The number of a text's group.
fn group_of(text: &[u8]) -> u8
    ensures { result ≡ group_of text.now }
{
    match text {
        [] => 0,
        [only] => *only,
        [first, second, ..] => first.wrapping_add(second.wrapping_mul(37)),
    }
}

/// The number of the group of a text's ASCII lower case.
fn lowered_group_of(text: &[u8]) -> u8
    ensures { result ≡ group_of (str_to_ascii_lowercase text.now) }
{
    match text {
        [] => 0,
        [only] => only.to_ascii_lowercase(),
        [first, second, ..] => {
            let second = second.to_ascii_lowercase();
            first
                .to_ascii_lowercase()
                .wrapping_add(second.wrapping_mul(37))
        }
    }
}

/// Puts the group of each text beside the place, behind the entries.
fn add_entries(entries: &mut Vec<Entry>, place: usize, texts: &[String]) -> Result<(), AllocError>
    ensures { OnOk result (entries.new.items
        ≡ entries.old.items ++ entries_of place (tokens_of texts.now)) }
{
    for text in texts {
        entries.push((group_of(text.as_bytes()), place))?;
    }
    Ok(())
}

/// Puts the group of each text's last two bytes beside the place, behind the entries.
fn add_tails(entries: &mut Vec<Entry>, place: usize, texts: &[String]) -> Result<(), AllocError>
    ensures { OnOk result (entries.new.items
        ≡ entries.old.items ++ entries_of place (map tail_of (tokens_of texts.now))) }
{
    for text in texts {
        entries.push((group_of(tail(text.as_bytes())), place))?;
    }
    Ok(())
}

/// Puts the group of each of the row's texts of that kind beside the place, behind the entries.
fn add_row(
    entries: &mut Vec<Entry>,
    place: usize,
    row: &Syntax,
    kind: TextKind,
) -> Result<(), AllocError>
    ensures { OnOk result (entries.new.items
        ≡ entries.old.items ++ entries_of place (texts_of kind (row_of row.now))) }
{
    match kind {
        TextKind::Names => {
            entries.push((group_of(row.key.as_bytes()), place))?;
            entries.push((group_of(row.name.as_bytes()), place))?;
            Ok(())
        }
        TextKind::LoweredNames => {
            entries.push((lowered_group_of(row.name.as_bytes()), place))?;
            Ok(())
        }
        TextKind::Extensions => add_entries(entries, place, &row.extensions),
        TextKind::Filenames => add_entries(entries, place, &row.filenames),
        TextKind::SuffixTails => add_tails(entries, place, &row.path_suffixes),
    }
}

/// The entries of the rows' texts of that kind, with room for one of each row at first.
fn entries_of(alloc: Global, rows: &[Syntax], kind: TextKind) -> Result<Vec<Entry>, AllocError>
    ensures { IfOk result (λ v. v.items ≡ entries_from (texts_of kind) 0 (map row_of rows.now)) }
{
    let mut entries = Vec::with_capacity(alloc, rows.len())?;
    for (place, row) in rows.iter().enumerate() {
        add_row(&mut entries, place, row, kind)?;
    }
    Ok(entries)
}

/// How many entries each group has.
fn counts_of(alloc: Global, entries: &[Entry]) -> Result<Vec<usize>, AllocError>
    ensures { IfOk result
        (λ v. HasForEach (λ g. length (in_group g entries.now)) v.items) }
{
    let mut counts = vec![in alloc; 0; GROUPS]?;
    for (group, _) in entries {
        counts[usize::from(*group)] += 1;
    }
    Ok(counts)
}

/// Where each group begins, if their places lie one group after the other.
fn begins_of(alloc: Global, entries: &[Entry]) -> Result<Vec<usize>, AllocError>
    ensures { IfOk result (λ v. HasForEach (λ g. begin_of g entries.now) v.items) }
{
    let mut begins = counts_of(alloc, entries)?;
    let mut end = 0;
    for group in 0..GROUPS {
        let count = begins[group];
        begins[group] = end;
        end += count;
    }
    Ok(begins)
}

impl TextIndex {
    /// The index of the rows' texts of that kind. It fails where memory runs out.
    pub(crate) fn of(
        alloc: Global,
        rows: &[Syntax],
        kind: TextKind,
    ) -> Result<TextIndex, AllocError>
        ensures { IfOk result (λ x. AreGroups
            (entries_from (texts_of kind) 0 (map row_of rows.now)) x) }
    {
        let entries = entries_of(alloc, rows, kind)?;
        let begins = begins_of(alloc, &entries)?;
        let room = vec![in alloc; 0; entries.len()]?;
        Ok(TextIndex::of_entries(begins, room, &entries))
    }

    /// The index of the entries, given where each group begins, and room for all places. Each place
    /// is put where its group has come to, so each begin becomes an end.
    fn of_entries(mut ends: Vec<usize>, mut places: Vec<usize>, entries: &[Entry]) -> TextIndex
        requires begins { HasForEach (λ g. begin_of g entries.now) ends.items }
        requires room { length places.items ≡ length entries.now }
        ensures { AreGroups entries.now result }
    {
        for (group, place) in entries {
            let group = usize::from(*group);
            places[ends[group]] = *place;
            ends[group] += 1;
        }
        TextIndex { places, ends }
    }

    /// The places of the group of that number.
    fn group(&self, group: u8) -> &[usize]
        ensures { result.now ≡ slice_index_or self.entry.now group [] }
    {
        let group = usize::from(group);
        let begin = if group == 0 { 0 } else { self.ends[group - 1] };
        &self.places[begin..self.ends[group]]
    }

    /// The places of the rows with a text of that one's group, in the order of the table.
    pub(crate) fn places(&self, text: &[u8]) -> &[usize]
        ensures places { result.now ≡ slice_index_or self.entry.now (group_of text.now) [] }
        ensures within { group_of text.now < 256 }
    {
        self.group(group_of(text))
    }

    /// The same of the group of the text's ASCII lower case.
    pub(crate) fn lowered_places(&self, text: &[u8]) -> &[usize]
        ensures places { result.now
            ≡ slice_index_or self.entry.now (group_of (str_to_ascii_lowercase text.now)) [] }
        ensures within { group_of (str_to_ascii_lowercase text.now) < 256 }
    {
        self.group(lowered_group_of(text))
    }
}
