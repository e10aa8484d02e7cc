//! Numbers that have a value: those too large for a float have none.
ghost use Rattle.std.specs.Prelude.{◌≡◌, true, false, is_some};
ghost use Rattle.json.specs.Value.{value_view, items_view, members_view};
ghost use Rattle.serde_json.specs.Read.{float_of, number_from, number_of};
ghost use Rattle.tokei_json_tree.specs.Unordered.{is_in_range, are_items_in_range, are_members_in_range};

use crate::counts::has_minus;
use crate::tree::{Tree, TreeItems, TreeMembers};
use fast_float::Numeral;
use json::Value;

/// Whether the nearest float is a number.
fn has_float(negative: bool, numeral: &Numeral<'_>) -> bool
    ensures { result ≡ is_some (float_of negative numeral.now) }
{
    numeral.to_float::<f64>(negative).is_finite()
}

/// Whether a number without a minus has a value.
fn is_unsigned_in_range(numeral: &Numeral<'_>) -> bool
    ensures { result ≡ is_some (number_from false numeral.now) }
{
    numeral.to_u64().is_some() || has_float(false, numeral)
}

/// Whether a number behind a minus has a value.
fn is_negative_in_range(numeral: &Numeral<'_>) -> bool
    ensures { result ≡ is_some (number_from true numeral.now) }
{
    if let Some(n) = numeral.to_i64(true) {
        if n < 0 {
            return true;
        }
    }
    has_float(true, numeral)
}

/// Whether the number that the text writes has a value: `serde_json` refuses one that has none.
pub fn is_number_in_range(text: &str) -> bool
    ensures { result ≡ is_some (number_of text.now) }
{
    let bytes = text.as_bytes();
    if has_minus(bytes) {
        is_negative_in_range(&Numeral::scan(&bytes[1..]))
    } else {
        is_unsigned_in_range(&Numeral::scan(bytes))
    }
}

/// Whether each number in the tree has a value.
#[cycle(is_in_range)]
#[inline(always)]
pub fn is_in_range(tree: &Tree<'_>) -> bool
    ensures { result ≡ is_in_range (value_view tree.now) }
{
    match tree {
        Value::Null => true,
        Value::Bool(_) => true,
        Value::String(_) => true,
        Value::Number(text) => is_number_in_range(text),
        Value::Array(items) => are_items_in_range(items),
        Value::Object(members) => are_members_in_range(members),
    }
}

#[cycle(is_in_range)]
#[inline(never)]
fn are_items_in_range(items: &TreeItems<'_>) -> bool
    ensures { result ≡ are_items_in_range (items_view items.now.items) }
{
    for item in items {
        if !is_in_range(item) {
            return false;
        }
    }
    true
}

#[cycle(is_in_range)]
#[inline(never)]
fn are_members_in_range(members: &TreeMembers<'_>) -> bool
    ensures { result ≡ are_members_in_range (members_view members.now.items) }
{
    for member in members {
        if !is_in_range(&member.1) {
            return false;
        }
    }
    true
}
