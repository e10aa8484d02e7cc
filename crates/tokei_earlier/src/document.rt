//! The languages of a document, as a value, a text or bytes.
ghost use Rattle.std.specs.Prelude.{◌≡◌, ◌≢◌, ◌≤◌, length, IfErr, IfOk, IfSome, None, Ok, Err, false};
ghost use Rattle.json.specs.Value.{value_view};
ghost use Rattle.serde_json.specs.Read.{read as read_data};
ghost use Rattle.serde_json.specs.View.{view};
ghost use Rattle.serde_json.specs.Written.{has_float};
ghost use Rattle.tokei_earlier.specs.Outcome.{outcome_of_bytes, outcome_of_text, outcome_of_value};
ghost use Rattle.tokei_json_tree.specs.Ordered.{IsOrdered};
ghost use Rattle.tokei_json_tree.specs.Reading.{IsReadingOf};
ghost use Rattle.tokei_json_tree.specs.TreeData.{data_of};
ghost use Rattle.tokei_languages.specs.Seen.{languages_of};

use crate::error::InputError;
use crate::read::languages_in;
use bumpalo::Bump;
use serde_json::Value;
use std::alloc::Global;
use tokei_json::{NamedTable, all_known, all_once, has_layout};
use tokei_json_tree::converted::converted;
use tokei_json_tree::{Missed, ReadError, Reading, Room, Tree, has_float, read, read_without};
use tokei_languages::Languages;
use tokei_table::LanguageTable;
use tokei_table::table_laws::tables_are_well_formed;

/// The languages of a tree without other numbers than whole ones of 64 bits, refused as a value is.
#[tactic(auto, unfolding(crate::specs::Outcome::outcome_of_value))]
fn from_tree(alloc: Global, table: &LanguageTable, tree: &Tree<'_>) -> Result<Languages, InputError>
    requires ordered { IsOrdered (value_view tree.now) }
    requires whole { has_float (data_of (value_view tree.now)) ≡ false }
    ensures languages { IfOk result
        (λ ls. outcome_of_value table.now (data_of (value_view tree.now))
        ≡ Ok (languages_of ls)) }
    ensures refused { IfErr result (λ e. e ≢ InputError.Memory
        → outcome_of_value table.now (data_of (value_view tree.now)) ≡ Err e) }
    ensures not_unreadable { result ≢ Err InputError.Unreadable }
    ensures not_too_long { result ≢ Err InputError.TooLong }
    ensures not_overflow { result ≢ Err InputError.Overflow }
{
    if !has_layout(tree) {
        return Err(InputError::Layout);
    }
    let table = NamedTable::new(alloc, table)?;
    if !all_known(&table, tree) {
        return Err(InputError::UnknownLanguage);
    }
    if !all_once(&table, tree) {
        return Err(InputError::NamedTwice);
    }
    match languages_in(alloc, &table, tree) {
        Ok(languages) => Ok(languages),
        Err(_) => Err(InputError::Memory),
    }
}

/// The languages of a value. Refused is exactly what has a cause of `InputError` from `Layout` to
/// `NamedTwice`, and of those that apply the first is answered; `Memory` comes only where an
/// allocation failed.
#[tactic(auto, unfolding(crate::specs::Outcome::outcome_of_value, tokei_json::specs::Layout::has_layout))]
pub fn from_value(
    alloc: Global,
    table: &LanguageTable,
    value: &Value,
) -> Result<Languages, InputError>
    ensures languages { IfOk result (λ ls. outcome_of_value table.now (view value.now)
        ≡ Ok (languages_of ls)) }
    ensures refused { IfErr result (λ e. e ≢ InputError.Memory
        → outcome_of_value table.now (view value.now) ≡ Err e) }
    ensures not_unreadable { result ≢ Err InputError.Unreadable }
    ensures not_too_long { result ≢ Err InputError.TooLong }
    ensures not_overflow { result ≢ Err InputError.Overflow }
{
    if has_float(value) {
        return Err(InputError::Layout);
    }
    let bump = Bump::new(alloc);
    let tree = converted(alloc, &bump, value)?;
    from_tree(alloc, table, &tree)
}

/// The languages of a text that isn't empty, read without its total, of which nothing is asked but
/// that it stands there. None where the text isn't read so.
fn from_text_without_total(
    alloc: Global,
    table: &LanguageTable,
    text: &str,
) -> Option<Result<Languages, InputError>>
    requires { 1 ≤ length text.now }
    ensures languages { IfSome result (λ r. IfOk r (λ ls. outcome_of_text table.now text.now
        ≡ Ok (languages_of ls))) }
    ensures refused { IfSome result (λ r. IfErr r (λ e. e ≢ InputError.Memory
        → outcome_of_text table.now text.now ≡ Err e)) }
    ensures not_unreadable { IfSome result (λ r. r ≢ Err InputError.Unreadable) }
    ensures not_too_long { IfSome result (λ r. r ≢ Err InputError.TooLong) }
    ensures not_overflow { IfSome result (λ r. r ≢ Err InputError.Overflow) }
{
    tables_are_well_formed(table);
    let mut room = Room::new(alloc);
    match read_without(&mut room, text, "Total") {
        Ok(tree) => Some(from_tree(alloc, table, &tree)),
        Err(Missed::Memory) => Some(Err(InputError::Memory)),
        Err(Missed::Unusual) => None,
    }
}

/// Reads a text as a tree. One that has no reading is `NotJson`.
fn read_tree<'t>(
    alloc: Global,
    room: &'t mut Room,
    text: &'t str,
) -> Result<Reading<'t>, InputError>
    ensures tree { IfOk result (λ r. IsReadingOf text.now (value_view r.tree)) }
    ensures fraction { IfOk result
        (λ r. r.has_fraction ≡ has_float (data_of (value_view r.tree))) }
    ensures refused { IfErr result (λ e. e ≢ InputError.Memory
        → (e ≡ InputError.NotJson) × (read_data text.now ≡ None)) }
{
    match read(alloc, room, text) {
        Ok(reading) => Ok(reading),
        Err(ReadError::NotJson) => Err(InputError::NotJson),
        Err(ReadError::Memory) => Err(InputError::Memory),
    }
}

/// The languages of a text that isn't empty.
#[tactic(auto, unfolding(crate::specs::Outcome::outcome_of_value, tokei_json::specs::Layout::has_layout))]
fn from_whole_text(
    alloc: Global,
    table: &LanguageTable,
    text: &str,
) -> Result<Languages, InputError>
    requires { 1 ≤ length text.now }
    ensures languages { IfOk result (λ ls. outcome_of_text table.now text.now
        ≡ Ok (languages_of ls)) }
    ensures refused { IfErr result (λ e. e ≢ InputError.Memory
        → outcome_of_text table.now text.now ≡ Err e) }
    ensures not_unreadable { result ≢ Err InputError.Unreadable }
    ensures not_too_long { result ≢ Err InputError.TooLong }
    ensures not_overflow { result ≢ Err InputError.Overflow }
{
    let mut room = Room::new(alloc);
    let reading = read_tree(alloc, &mut room, text)?;
    if reading.has_fraction {
        return Err(InputError::Layout);
    }
    from_tree(alloc, table, &reading.tree)
}

/// The languages of a text. Refused is exactly what has a cause of `InputError` from `Empty` to
/// `NamedTwice`, and of those that apply the first is answered; `Memory` comes only where an
/// allocation failed.
pub fn from_text(alloc: Global, table: &LanguageTable, text: &str) -> Result<Languages, InputError>
    ensures languages { IfOk result (λ ls. outcome_of_text table.now text.now
        ≡ Ok (languages_of ls)) }
    ensures refused { IfErr result (λ e. e ≢ InputError.Memory
        → outcome_of_text table.now text.now ≡ Err e) }
    ensures not_unreadable { result ≢ Err InputError.Unreadable }
    ensures not_too_long { result ≢ Err InputError.TooLong }
    ensures not_overflow { result ≢ Err InputError.Overflow }
{
    match text.as_bytes() {
        [] => Err(InputError::Empty),
        _ => match from_text_without_total(alloc, table, text) {
            Some(outcome) => outcome,
            None => from_whole_text(alloc, table, text),
        },
    }
}

/// The languages of bytes, which may be no text.
#[tactic(auto, unfolding(crate::specs::Outcome::outcome_of_bytes))]
pub(crate) fn parse_bytes(
    alloc: Global,
    table: &LanguageTable,
    bytes: &[u8],
) -> Result<Languages, InputError>
    ensures languages { IfOk result (λ ls. outcome_of_bytes table.now bytes.now
        ≡ Ok (languages_of ls)) }
    ensures refused { IfErr result (λ e. e ≢ InputError.Memory
        → outcome_of_bytes table.now bytes.now ≡ Err e) }
    ensures not_unreadable { result ≢ Err InputError.Unreadable }
    ensures not_too_long { result ≢ Err InputError.TooLong }
    ensures not_overflow { result ≢ Err InputError.Overflow }
{
    match std::str::from_utf8(bytes) {
        Ok(text) => from_text(alloc, table, text),
        Err(_) => Err(InputError::NotJson),
    }
}
