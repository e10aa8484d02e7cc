//! A table of languages read from its JSON text.
ghost use Rattle.std.specs.Prelude.{◌≡◌, ◌≢◌, Ok, Err, None, map};
ghost use Rattle.std.specs.Prelude.{IfOk, OnOk, MatchResult};
ghost use Rattle.json.specs.Value.{value_view};
ghost use Rattle.serde_json.specs.Read.{read as read_text};
ghost use Rattle.serde_json.specs.Written.{has_float};
ghost use Rattle.tokei_json_tree.specs.Ordered.{IsOrdered};
ghost use Rattle.tokei_json_tree.specs.TreeData.{data_of};
ghost use Rattle.tokei_table.specs.KeyOrder.{IsInKeyOrder};
ghost use Rattle.tokei_table.specs.WellFormed.{IsWellFormed};
ghost use Rattle.tokei_json_tree.specs.Bytes.{data_of_bytes};
ghost use Rattle.tokei_table_json.specs.Outcome.{outcome, outcome_of, outcome_of_value, tested};
ghost use Rattle.tokei_table_json.specs.declared.error.TableError.TheVariants.{NotJson as NotJsonFault};
ghost use Rattle.tokei_table_json.specs.declared.error.TableError.TheVariants.{Memory as MemoryFault};
ghost use Rattle.tokei_table_row.specs.RowOf.{row_of};

use crate::error::TableError;
use crate::escaped::is_escaped_table;
use crate::layout::has_layout;
use crate::rows::rows_of;
use crate::token_rows::rows_in_order;
use std::alloc::{AllocError, Global};
use tokei_json_tree::{Reading, Room, read};
use tokei_table::LanguageTable;
use tokei_table_row::Syntax;
use tokei_table_rules::names::names_twice;
use tokei_table_rules::well_formed::{all_have_fallbacks, all_have_tokens, names_total};

/// The text of a table's bytes.
pub(crate) fn text_of(bytes: &[u8]) -> Result<&str, TableError>
    ensures { MatchResult result (λ s. data_of_bytes bytes.now ≡ read_text s.now)
        (λ e. (e ≡ NotJsonFault) × (data_of_bytes bytes.now ≡ None)) }
{
    match std::str::from_utf8(bytes) {
        Ok(text) => Ok(text),
        Err(_) => Err(TableError::NotJson),
    }
}

/// The rows of a table's JSON, in the order of their keys.
#[tactic(auto, unfolding(crate::specs::Outcome::outcome_of_value, crate::specs::Layout::has_layout))]
fn rows_in(alloc: Global, read: &Reading<'_>) -> Result<Vec<Syntax>, TableError>
    requires ordered { IsOrdered (value_view read.now.tree) }
    requires fraction { read.now.has_fraction ≡ has_float (data_of (value_view read.now.tree)) }
    ensures value { result ≢ Err MemoryFault → MatchResult result
        (λ v. outcome_of_value (data_of (value_view read.now.tree)) ≡ tested (map row_of v.items))
        (λ e. outcome_of_value (data_of (value_view read.now.tree)) ≡ Err e) }
    ensures ordered { IfOk result (λ v. IsInKeyOrder (map row_of v.items)) }
{
    if read.has_fraction || !has_layout(&read.tree) {
        return Err(TableError::Layout);
    }
    if !is_escaped_table(&read.tree) {
        return Err(TableError::Escape);
    }
    Ok(rows_of(alloc, &read.tree)?)
}

/// The rows of a table's text, in the order of their keys, by a tree that stands in the room.
fn rows_by_tree(alloc: Global, room: &mut Room, text: &str) -> Result<Vec<Syntax>, TableError>
    ensures value { result ≢ Err MemoryFault → MatchResult result
        (λ v. outcome_of (read_text text.now) ≡ tested (map row_of v.items))
        (λ e. outcome_of (read_text text.now) ≡ Err e) }
    ensures ordered { IfOk result (λ v. IsInKeyOrder (map row_of v.items)) }
{
    match read(alloc, room, text) {
        Ok(read) => rows_in(alloc, &read),
        Err(refused) => Err(TableError::from(refused)),
    }
}

/// The rows of a table's text, in the order of their keys.
fn rows_of_text(alloc: Global, text: &str) -> Result<Vec<Syntax>, TableError>
    ensures value { result ≢ Err MemoryFault → MatchResult result
        (λ v. outcome_of (read_text text.now) ≡ tested (map row_of v.items))
        (λ e. outcome_of (read_text text.now) ≡ Err e) }
    ensures ordered { IfOk result (λ v. IsInKeyOrder (map row_of v.items)) }
{
    match rows_in_order(alloc, text) {
        Ok(Some(rows)) => Ok(rows),
        Ok(None) => {
            let mut room = Room::new(alloc);
            rows_by_tree(alloc, &mut room, text)
        }
        Err(AllocError) => Err(TableError::Memory),
    }
}

/// Tests whether rows in the order of their keys can be counted with.
#[tactic(auto, unfolding(crate::specs::Outcome::tested))]
pub(crate) fn test(alloc: Global, rows: &[Syntax]) -> Result<(), TableError>
    requires { IsInKeyOrder (map row_of rows.now) }
    ensures value { result ≢ Err MemoryFault
        → MatchResult result (λ _. tested (map row_of rows.now) ≡ Ok (map row_of rows.now))
        (λ e. tested (map row_of rows.now) ≡ Err e) }
    ensures well_formed { OnOk result (IsWellFormed (map row_of rows.now)) }
{
    if !all_have_tokens(rows) {
        return Err(TableError::Token);
    }
    if names_twice(alloc, rows)? {
        return Err(TableError::NamedTwice);
    }
    if names_total(rows) {
        return Err(TableError::NamedTotal);
    }
    if !all_have_fallbacks(rows) {
        return Err(TableError::Fallback);
    }
    Ok(())
}

/// The call of a table that reads one. A table itself knows no JSON, so that what counts by it is
/// proved without.
pub trait FromJson: Sized {
    /// Reads a table from its JSON text. Refused is exactly what has a cause of `TableError`, and
    /// of those that apply the first is answered; `Memory` comes only where an allocation failed.
    fn from_json(alloc: Global, bytes: &[u8]) -> Result<Self, TableError>;
}

impl FromJson for LanguageTable {
    fn from_json(alloc: Global, bytes: &[u8]) -> Result<LanguageTable, TableError>
        ensures { result ≢ Err MemoryFault → result ≡ outcome bytes.now }
    {
        let rows = rows_of_text(alloc, text_of(bytes)?)?;
        test(alloc, &rows)?;
        Ok(LanguageTable::of_rows(alloc, rows)?)
    }
}
