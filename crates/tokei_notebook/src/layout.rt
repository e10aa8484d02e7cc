//! The layout of a notebook.
ghost use Rattle.std.specs.Prelude.{◌≡◌, ◌||◌, option_map};
ghost use Rattle.json.specs.Value.{value_view, items_view};
ghost use Rattle.tokei_json_tree.specs.Unordered.{unordered_data, unordered_items};
ghost use Rattle.tokei_json_tree.specs.Shapes.{all_items, is_list, is_text, stands_and};
ghost use Rattle.tokei_notebook.specs.Layout.{is_markdown, is_code, is_cell, has_metadata, has_notebook_layout};

use json::Value;
use tokei_json_tree::{Tree, TreeItems, last_member};

/// Whether the member reads `markdown`.
pub(crate) fn is_markdown(member: Option<&Tree<'_>>) -> bool
    ensures { result ≡ stands_and is_markdown
        (option_map (λ v. unordered_data (value_view v.now)) member.entry) }
{
    match member {
        Some(Value::String(text)) => *text == "markdown",
        _ => false,
    }
}

fn is_kind(member: Option<&Tree<'_>>) -> bool
    ensures { result ≡ stands_and (λ k. is_markdown k || is_code k)
        (option_map (λ v. unordered_data (value_view v.now)) member.entry) }
{
    match member {
        Some(Value::String(text)) => *text == "markdown" || *text == "code",
        _ => false,
    }
}

fn is_text(value: &Tree<'_>) -> bool
    ensures { result ≡ is_text (unordered_data (value_view value.now)) }
{
    match value {
        Value::String(_) => true,
        _ => false,
    }
}

fn all_texts(items: &TreeItems<'_>) -> bool
    ensures { result ≡ all_items is_text (unordered_items (items_view items.now.items)) }
{
    for item in items {
        if !is_text(item) {
            return false;
        }
    }
    true
}

fn is_source(member: Option<&Tree<'_>>) -> bool
    ensures { result ≡ stands_and (is_list is_text)
        (option_map (λ v. unordered_data (value_view v.now)) member.entry) }
{
    match member {
        Some(Value::Array(items)) => all_texts(items),
        _ => false,
    }
}

#[tactic(auto, unfolding(crate::specs::Layout::is_cell))]
fn is_cell(value: &Tree<'_>) -> bool
    ensures { result ≡ is_cell (unordered_data (value_view value.now)) }
{
    is_kind(last_member(value, "cell_type")) && is_source(last_member(value, "source"))
}

fn all_cells(items: &TreeItems<'_>) -> bool
    ensures { result ≡ all_items is_cell (unordered_items (items_view items.now.items)) }
{
    for item in items {
        if !is_cell(item) {
            return false;
        }
    }
    true
}

fn are_cells(member: Option<&Tree<'_>>) -> bool
    ensures { result ≡ stands_and (is_list is_cell)
        (option_map (λ v. unordered_data (value_view v.now)) member.entry) }
{
    match member {
        Some(Value::Array(items)) => all_cells(items),
        _ => false,
    }
}

fn has_metadata(member: Option<&Tree<'_>>) -> bool
    ensures { result ≡ stands_and has_metadata
        (option_map (λ v. unordered_data (value_view v.now)) member.entry) }
{
    match member {
        Some(value) => last_member(value, "kernelspec").is_some()
            && last_member(value, "language_info").is_some(),
        None => false,
    }
}

/// Whether the value has the layout of a notebook.
#[tactic(auto, unfolding(crate::specs::Layout::has_notebook_layout))]
pub(crate) fn has_notebook_layout(value: &Tree<'_>) -> bool
    ensures { result ≡ has_notebook_layout (unordered_data (value_view value.now)) }
{
    are_cells(last_member(value, "cells")) && has_metadata(last_member(value, "metadata"))
}
