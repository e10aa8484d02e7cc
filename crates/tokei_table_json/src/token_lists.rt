//! Members of a table's languages as its tokens come, without a tree. Each function answers None
//! where something else comes, or a text with an unknown escape. A list of the table is put
//! together in room that all share, so that what it takes at last is no more than its items do.
ghost use Rattle.std.specs.Prelude.{◌≡◌, ◌<◌, ◌∷◌, ℕ, true, Some, IfOk, IfSome, string_bytes};
ghost use Rattle.json.specs.Token.{Token as SpecToken};
ghost use Rattle.tokei_table_row.specs.RowOf.{pair_of, pairs_of, tokens_of};
ghost use Rattle.tokei_table_json.specs.Escaped.{is_escaped_value, is_escaped_list, are_escaped_pairs};
ghost use Rattle.tokei_table_json.specs.Escapes.{is_escaped_text, unescaped_text};
ghost use Rattle.tokei_table_json.specs.Layout.{is_text_pair};
ghost use Rattle.tokei_json_tree.specs.Shapes.{is_list, is_text, is_truth_value};
ghost use Rattle.tokei_table_json.specs.Next.{IsNext};
ghost use Rattle.tokei_table_json.specs.Rows.{text_of, pair_in, texts_at, pairs_at, truth_at};

use crate::escapes::{are_escapes, has_backslash, unescaped};
use json::{Reader, Token};
use std::alloc::{AllocError, Global};

/// Whether a list begins here: takes one token.
fn begins_list(reader: &mut Reader<'_>) -> bool
    ensures { result ≡ true → reader.old ≡ SpecToken.begin_array ∷ reader.new }
{
    matches!(reader.next(), Some(Token::BeginArray))
}

/// The text after escapes.
fn known_text(alloc: Global, text: &str) -> Result<Option<String>, AllocError>
    ensures { IfOk result (λ found. IfSome found (λ s. (is_escaped_text text.now ≡ true)
        × (string_bytes s ≡ unescaped_text text.now))) }
{
    if !has_backslash(text) {
        return Ok(Some(String::from_str(alloc, text)?));
    }
    if !are_escapes(text) {
        return Ok(None);
    }
    Ok(Some(unescaped(alloc, text)?))
}

/// The next text, after escapes.
pub(crate) fn next_text(
    alloc: Global,
    reader: &mut Reader<'_>,
) -> Result<Option<String>, AllocError>
    ensures { IfOk result (λ found. IfSome found (λ s. (depth : ℕ)
        → IsNext is_text is_escaped_value text_of depth reader.old reader.new (string_bytes s))) }
{
    match reader.next() {
        Some(Token::String(text)) => known_text(alloc, text),
        _ => Ok(None),
    }
}

/// The next truth value.
pub(crate) fn next_truth(reader: &mut Reader<'_>) -> Option<bool>
    ensures { IfSome result (λ b. (depth : ℕ)
        → IsNext is_truth_value (λ d. true) (λ d. truth_at (Some d)) depth
        reader.old reader.new b) }
{
    match reader.next() {
        Some(Token::Bool(truth)) => Some(truth),
        _ => None,
    }
}

/// The next pair of texts, after escapes.
fn next_pair(alloc: Global, reader: &mut Reader<'_>) -> Result<Option<(String, String)>, AllocError>
    ensures { IfOk result (λ found. IfSome found (λ p. (depth : ℕ) → 0 < depth
        → IsNext is_text_pair is_escaped_list pair_in depth reader.old reader.new (pair_of p))) }
{
    if !begins_list(reader) {
        return Ok(None);
    }
    let Some(opener) = next_text(alloc, reader)? else {
        return Ok(None);
    };
    let Some(closer) = next_text(alloc, reader)? else {
        return Ok(None);
    };
    if !reader.take_end_array() {
        return Ok(None);
    }
    Ok(Some((opener, closer)))
}

/// Moves the items into a list that has just room for them.
fn packed<T: Drop>(alloc: Global, room: &mut Vec<T>) -> Result<Vec<T>, AllocError>
    ensures { IfOk result (λ v. v.items ≡ room.old.items) }
{
    let mut made = Vec::with_capacity(alloc, room.len())?;
    made.append(room)?;
    Ok(made)
}

/// The next list of texts, after escapes.
pub(crate) fn next_texts(
    alloc: Global,
    reader: &mut Reader<'_>,
    room: &mut Vec<String>,
) -> Result<Option<Vec<String>>, AllocError>
    ensures { IfOk result (λ found. IfSome found (λ v. (depth : ℕ) → 0 < depth
        → IsNext (is_list is_text) is_escaped_list (λ d. texts_at (Some d)) depth reader.old
        reader.new (tokens_of v.items))) }
{
    if !begins_list(reader) {
        return Ok(None);
    }
    room.clear();
    while !reader.take_end_array() {
        let Some(text) = next_text(alloc, reader)? else {
            return Ok(None);
        };
        room.push(text)?;
    }
    Ok(Some(packed(alloc, room)?))
}

/// The next list of pairs of texts, after escapes.
pub(crate) fn next_pairs(
    alloc: Global,
    reader: &mut Reader<'_>,
    room: &mut Vec<(String, String)>,
) -> Result<Option<Vec<(String, String)>>, AllocError>
    ensures { IfOk result (λ found. IfSome found (λ v. (depth : ℕ) → 1 < depth
        → IsNext (is_list is_text_pair) are_escaped_pairs (λ d. pairs_at (Some d)) depth reader.old
        reader.new (pairs_of v.items))) }
{
    if !begins_list(reader) {
        return Ok(None);
    }
    room.clear();
    while !reader.take_end_array() {
        let Some(pair) = next_pair(alloc, reader)? else {
            return Ok(None);
        };
        room.push(pair)?;
    }
    Ok(Some(packed(alloc, room)?))
}
