//! Numbers that aren't whole ones of 64 bits.
ghost use Rattle.std.specs.Prelude.{◌≡◌};
ghost use Rattle.serde_json.specs.View.{view, items_view, members_view};
ghost use Rattle.serde_json.specs.Written.{has_float as data_has_float, items_have_float as data_items_have_float};
ghost use Rattle.serde_json.specs.Written.{members_have_float as data_members_have_float};

use serde_json::{Map, Value};

/// Whether a number, wherever it stands in the value, is no whole one of 64 bits.
#[cycle(has_float)]
pub fn has_float(value: &Value) -> bool
    ensures { result ≡ data_has_float (view value.now) }
{
    match value {
        Value::Null => false,
        Value::Bool(_) => false,
        Value::Number(n) => n.is_f64(),
        Value::String(_) => false,
        Value::Array(items) => items_have_float(items),
        Value::Object(members) => members_have_float(members),
    }
}

#[cycle(has_float)]
fn items_have_float(items: &Vec<Value>) -> bool
    ensures { result ≡ data_items_have_float (items_view items.now.items) }
{
    for item in items {
        if has_float(item) {
            return true;
        }
    }
    false
}

#[cycle(has_float)]
fn members_have_float(members: &Map<String, Value>) -> bool
    ensures { result ≡ data_members_have_float (members_view members.now.entries) }
{
    for (_key, member) in members.iter() {
        if has_float(member) {
            return true;
        }
    }
    false
}
