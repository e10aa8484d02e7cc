//! What a JSON value is, as the layout of a table asks it.
ghost use Rattle.std.specs.Prelude.{◌≡◌};
ghost use Rattle.json.specs.Value.{value_view, items_view};
ghost use Rattle.tokei_json_tree.specs.TreeData.{data_of, items_data};
ghost use Rattle.tokei_json_tree.specs.Shapes.{is_text, is_truth_value, all_items};

use json::Value;
use tokei_json_tree::{Tree, TreeItems};

/// Whether the value is a text.
pub(crate) fn is_text(value: &Tree<'_>) -> bool
    ensures { result ≡ is_text (data_of (value_view value.now)) }
{
    match value {
        Value::String(_) => true,
        _ => false,
    }
}

/// Whether the value is `true` or `false`.
pub(crate) fn is_truth_value(value: &Tree<'_>) -> bool
    ensures { result ≡ is_truth_value (data_of (value_view value.now)) }
{
    match value {
        Value::Bool(_) => true,
        _ => false,
    }
}

/// Whether each of the values is a text.
pub(crate) fn all_texts(items: &TreeItems<'_>) -> bool
    ensures { result ≡ all_items is_text (items_data (items_view items.now.items)) }
{
    for item in items {
        if !is_text(item) {
            return false;
        }
    }
    true
}
