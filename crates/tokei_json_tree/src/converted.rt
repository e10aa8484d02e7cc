//! A value of `serde_json` as a tree.
ghost use Rattle.std.specs.Prelude.{◌≡◌, IfOk};
ghost use Rattle.json.specs.Value.{value_view};
ghost use Rattle.serde_json.specs.Data.{array, object};
ghost use Rattle.serde_json.specs.View.{view, items_view as data_items_view, members_view as data_members_view};
ghost use Rattle.serde_json.specs.declared.number.Number.{Number as NumberModel};
ghost use Rattle.serde_json.specs.declared.value.Value.{Number as ANumber};
ghost use Rattle.tokei_json_tree.specs.Converted.{IsTreeOf};

use crate::tree::Tree;
use bumpalo::Bump;
use serde_json::{Map, Value};
use std::alloc::{AllocError, Global};

/// The tree of a number: its text as `serde_json` writes it.
fn number_converted<'t>(
    alloc: Global,
    bump: &'t Bump,
    value: &Value,
) -> Result<Tree<'t>, AllocError>
    ensures { IfOk result (λ t. (n : NumberModel) → value.now ≡ ANumber n
        → IsTreeOf (view value.now) (value_view t)) }
{
    let text = value.to_string(alloc)?;
    match bump.try_alloc_str(text.as_str()) {
        Ok(text) => Ok(json::Value::Number(text)),
        Err(refused) => Err(refused),
    }
}

/// The tree of a value. It fails where memory runs out.
#[cycle(converted)]
pub fn converted<'t>(
    alloc: Global,
    bump: &'t Bump,
    value: &'t Value,
) -> Result<Tree<'t>, AllocError>
    ensures { IfOk result (λ t. IsTreeOf (view value.now) (value_view t)) }
{
    match value {
        Value::Null => Ok(json::Value::Null),
        Value::Bool(truth) => Ok(json::Value::Bool(*truth)),
        Value::Number(_) => number_converted(alloc, bump, value),
        Value::String(text) => Ok(json::Value::String(text.as_str())),
        Value::Array(items) => items_converted(alloc, bump, items),
        Value::Object(members) => members_converted(alloc, bump, members),
    }
}

#[cycle(converted)]
fn items_converted<'t>(
    alloc: Global,
    bump: &'t Bump,
    items: &'t Vec<Value>,
) -> Result<Tree<'t>, AllocError>
    ensures { IfOk result
        (λ t. IsTreeOf (array (data_items_view items.now.items)) (value_view t)) }
{
    let mut made = match Vec::with_capacity(bump, items.len()) {
        Ok(made) => made,
        Err(refused) => return Err(refused),
    };
    for item in items {
        match converted(alloc, bump, item) {
            Ok(tree) => made.push_reserved(tree),
            Err(refused) => return Err(refused),
        }
    }
    Ok(json::Value::Array(made))
}

#[cycle(converted)]
fn members_converted<'t>(
    alloc: Global,
    bump: &'t Bump,
    members: &'t Map<String, Value>,
) -> Result<Tree<'t>, AllocError>
    ensures { IfOk result
        (λ t. IsTreeOf (object (data_members_view members.now.entries)) (value_view t)) }
{
    let mut made = match Vec::with_capacity(bump, members.len()) {
        Ok(made) => made,
        Err(refused) => return Err(refused),
    };
    for (key, member) in members.iter() {
        match converted(alloc, bump, member) {
            Ok(tree) => made.push_reserved((key.as_str(), tree)),
            Err(refused) => return Err(refused),
        }
    }
    Ok(json::Value::Object(made))
}
