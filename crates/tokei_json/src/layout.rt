//! Whether a tree has the layout of a document.
ghost use Rattle.std.specs.Prelude.{◌≡◌, false, option_map, IfSome};
ghost use Rattle.json.specs.Value.{value_view, members_view};
ghost use Rattle.serde_json.specs.Written.{has_float};
ghost use Rattle.tokei_json_tree.specs.Shapes.{is_text, is_truth_value, stands_and};
ghost use Rattle.tokei_json_tree.specs.Ordered.{IsOrdered, AreMembersOrdered};
ghost use Rattle.tokei_json_tree.specs.TreeData.{data_of, members_data};
ghost use Rattle.tokei_json.specs.Layout.{is_count, has_counts, is_statistics, are_blobs, is_report};
ghost use Rattle.tokei_json.specs.Layout.{are_reports, are_children, is_language, are_languages, has_layout};

use json::Value;
use tokei_json_tree::{Tree, TreeMembers, count, member};

fn is_count(member: Option<&Tree<'_>>) -> bool
    ensures { result
        ≡ stands_and is_count (option_map (λ v. data_of (value_view v.now)) member.entry) }
{
    match member {
        Some(Value::Number(text)) => count(text).is_some(),
        _ => false,
    }
}

fn is_text(member: Option<&Tree<'_>>) -> bool
    ensures { result
        ≡ stands_and is_text (option_map (λ v. data_of (value_view v.now)) member.entry) }
{
    match member {
        Some(Value::String(_)) => true,
        _ => false,
    }
}

fn is_truth_value(member: Option<&Tree<'_>>) -> bool
    ensures { result
        ≡ stands_and is_truth_value (option_map (λ v. data_of (value_view v.now)) member.entry) }
{
    match member {
        Some(Value::Bool(_)) => true,
        _ => false,
    }
}

#[tactic(auto, unfolding(crate::specs::Layout::has_counts))]
fn has_counts(value: &Tree<'_>) -> bool
    requires { IsOrdered (value_view value.now) }
    ensures { result ≡ has_counts (data_of (value_view value.now)) }
{
    is_count(member(value, "blanks"))
        && is_count(member(value, "code"))
        && is_count(member(value, "comments"))
}

#[cycle(statistics)]
fn is_statistics(value: &Tree<'_>) -> bool
    requires { IsOrdered (value_view value.now) }
    ensures { result ≡ is_statistics (data_of (value_view value.now)) }
{
    match value {
        Value::Object(members) => {
            if !has_counts(value) {
                return false;
            }
            for member in members {
                if member.0 == "blobs" {
                    return are_blobs(&member.1);
                }
            }
            false
        }
        _ => false,
    }
}

#[cycle(statistics)]
fn are_blobs(value: &Tree<'_>) -> bool
    requires { IsOrdered (value_view value.now) }
    ensures { result ≡ are_blobs (data_of (value_view value.now)) }
{
    match value {
        Value::Object(members) => {
            for member in members {
                if !is_statistics(&member.1) {
                    return false;
                }
            }
            true
        }
        _ => false,
    }
}

fn is_report(value: &Tree<'_>) -> bool
    requires { IsOrdered (value_view value.now) }
    ensures { result ≡ is_report (data_of (value_view value.now)) }
{
    if !is_text(member(value, "name")) {
        return false;
    }
    match member(value, "stats") {
        Some(stats) => is_statistics(stats),
        None => false,
    }
}

fn reports_stand(member: Option<&Tree<'_>>) -> bool
    requires { IfSome member (λ v. IsOrdered (value_view v.now)) }
    ensures { result
        ≡ stands_and are_reports (option_map (λ v. data_of (value_view v.now)) member.entry) }
{
    match member {
        Some(value) => match value {
            Value::Array(items) => {
                for item in items {
                    if !is_report(item) {
                        return false;
                    }
                }
                true
            }
            _ => false,
        },
        None => false,
    }
}

fn children_stand(member: Option<&Tree<'_>>) -> bool
    requires { IfSome member (λ v. IsOrdered (value_view v.now)) }
    ensures { result
        ≡ stands_and are_children (option_map (λ v. data_of (value_view v.now)) member.entry) }
{
    match member {
        Some(value) => match value {
            Value::Object(members) => {
                for member in members {
                    if !reports_stand(Some(&member.1)) {
                        return false;
                    }
                }
                true
            }
            _ => false,
        },
        None => false,
    }
}

#[tactic(auto, unfolding(crate::specs::Layout::is_language))]
fn is_language(value: &Tree<'_>) -> bool
    requires { IsOrdered (value_view value.now) }
    ensures { result ≡ is_language (data_of (value_view value.now)) }
{
    has_counts(value)
        && reports_stand(member(value, "reports"))
        && children_stand(member(value, "children"))
        && is_truth_value(member(value, "inaccurate"))
}

fn are_languages(members: &TreeMembers<'_>) -> bool
    requires { AreMembersOrdered (members_view members.now.items) }
    ensures { result ≡ are_languages (members_data (members_view members.now.items)) }
{
    for member in members {
        if member.0 == "Total" {
            continue;
        }
        if !is_language(&member.1) {
            return false;
        }
    }
    true
}

/// Whether a tree whose numbers are whole ones of 64 bits has the layout of a document.
#[tactic(auto, unfolding(crate::specs::Layout::has_layout))]
pub fn has_layout(value: &Tree<'_>) -> bool
    requires ordered { IsOrdered (value_view value.now) }
    requires whole { has_float (data_of (value_view value.now)) ≡ false }
    ensures { result ≡ has_layout (data_of (value_view value.now)) }
{
    match value {
        Value::Object(members) => member(value, "Total").is_some() && are_languages(members),
        _ => false,
    }
}
