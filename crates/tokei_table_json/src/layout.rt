//! The layout of a table: which JSON values stand where.
ghost use Rattle.std.specs.Prelude.{◌≡◌, false, is_some, not, option_map, codes, IfSome};
ghost use Rattle.json.specs.Value.{value_view, items_view, members_view};
ghost use Rattle.serde_json.specs.Find.{get};
ghost use Rattle.serde_json.specs.Written.{has_float};
ghost use Rattle.tokei_json_tree.specs.Ordered.{IsOrdered, AreItemsOrdered, AreKeysInOrder, AreMembersOrdered};
ghost use Rattle.tokei_json_tree.specs.TreeData.{data_of, items_data, members_data};
ghost use Rattle.tokei_table_json.specs.Layout.{are_two_texts};
ghost use Rattle.tokei_json_tree.specs.Shapes.{all_items, is_list, is_text, stands_and};
ghost use Rattle.tokei_table_json.specs.Layout.{is_text_pair, is_html_kind, is_context};
ghost use Rattle.tokei_table_json.specs.Layout.{is_language, are_languages, object_in, has_layout};
ghost use Rattle.tokei_table_json.specs.MemberLayout.{all_members, fits};
ghost use Rattle.tokei_table_json.specs.Members.{fits_member};

use crate::members::{Member, member_of};
use crate::values::{all_texts, is_text, is_truth_value};
use json::Value;
use tokei_json_tree::{Tree, TreeItems, TreeMembers, member};

fn is_text_list(value: &Tree<'_>) -> bool
    ensures { result ≡ is_list is_text (data_of (value_view value.now)) }
{
    match value {
        Value::Array(items) => all_texts(items),
        _ => false,
    }
}

fn are_two_texts(items: &TreeItems<'_>) -> bool
    ensures { result ≡ are_two_texts (items_data (items_view items.now.items)) }
{
    match items.as_slice() {
        [first, second] => is_text(first) && is_text(second),
        _ => false,
    }
}

fn is_text_pair(value: &Tree<'_>) -> bool
    ensures { result ≡ is_text_pair (data_of (value_view value.now)) }
{
    match value {
        Value::Array(items) => are_two_texts(items),
        _ => false,
    }
}

fn all_pairs(items: &TreeItems<'_>) -> bool
    ensures { result ≡ all_items is_text_pair (items_data (items_view items.now.items)) }
{
    for item in items {
        if !is_text_pair(item) {
            return false;
        }
    }
    true
}

fn is_pair_list(value: &Tree<'_>) -> bool
    ensures { result ≡ is_list is_text_pair (data_of (value_view value.now)) }
{
    match value {
        Value::Array(items) => all_pairs(items),
        _ => false,
    }
}

/// Whether the member `kind` reads `html`.
fn is_html_kind(member: Option<&Tree<'_>>) -> bool
    ensures { result ≡ is_html_kind (option_map (λ v. data_of (value_view v.now)) member.entry) }
{
    match member {
        Some(Value::String(text)) => *text == "html",
        _ => false,
    }
}

/// Whether the language is of kind `html`.
pub(crate) fn is_html(language: &Tree<'_>) -> bool
    requires { IsOrdered (value_view language.now) }
    ensures { result ≡ is_html_kind (get (codes "kind") (data_of (value_view language.now))) }
{
    is_html_kind(member(language, "kind"))
}

/// Whether the context has a text `tag`.
fn has_tag(context: &Tree<'_>) -> bool
    requires { IsOrdered (value_view context.now) }
    ensures { result ≡ stands_and is_text (get (codes "tag") (data_of (value_view context.now))) }
{
    match member(context, "tag") {
        None => false,
        Some(tag) => is_text(tag),
    }
}

fn is_context(html: bool, value: &Tree<'_>) -> bool
    requires { IsOrdered (value_view value.now) }
    ensures { result ≡ is_context html (data_of (value_view value.now)) }
{
    match value {
        Value::Object(_) => !html || has_tag(value),
        _ => false,
    }
}

fn all_contexts(html: bool, items: &TreeItems<'_>) -> bool
    requires { AreItemsOrdered (items_view items.now.items) }
    ensures { result ≡ all_items (is_context html) (items_data (items_view items.now.items)) }
{
    for item in items {
        if !is_context(html, item) {
            return false;
        }
    }
    true
}

fn is_context_list(html: bool, value: &Tree<'_>) -> bool
    requires { IsOrdered (value_view value.now) }
    ensures { result ≡ is_list (is_context html) (data_of (value_view value.now)) }
{
    match value {
        Value::Array(items) => all_contexts(html, items),
        _ => false,
    }
}

/// Whether a member may have the value in a language, which is of kind `html` or not.
fn fits_member(html: bool, member: Member, value: &Tree<'_>) -> bool
    requires { IsOrdered (value_view value.now) }
    ensures { result ≡ fits_member html member (data_of (value_view value.now)) }
{
    match member {
        Member::Texts(_) => is_text_list(value),
        Member::Pairs(_) => is_pair_list(value),
        Member::Truth(_) => is_truth_value(value),
        Member::Name | Member::Kind => is_text(value),
        Member::Contexts => is_context_list(html, value),
        Member::Other => true,
    }
}

/// Whether the value may stand at its key in a language, which is of kind `html` or not.
pub(crate) fn fits(html: bool, key: &str, value: &Tree<'_>) -> bool
    requires { IsOrdered (value_view value.now) }
    ensures { result ≡ fits html key.now (data_of (value_view value.now)) }
{
    fits_member(html, member_of(key), value)
}

/// The name of the first member with a value that it can't have in a language of kind `html` or
/// not.
fn unfit_member<'v, 't>(html: bool, members: &'v TreeMembers<'t>) -> Option<&'v str>
    requires { AreMembersOrdered (members_view members.now.items) }
    ensures { is_some result
        ≡ not (all_members (fits html) (members_data (members_view members.now.items))) }
{
    for entry in members {
        if !fits(html, entry.0, &entry.1) {
            return Some(entry.0);
        }
    }
    None
}

fn is_language(value: &Tree<'_>) -> bool
    requires { IsOrdered (value_view value.now) }
    ensures { result ≡ is_language (data_of (value_view value.now)) }
{
    match value {
        Value::Object(members) => unfit_member(is_html(value), members).is_none(),
        _ => false,
    }
}

/// The key of the first of these languages that hasn't the layout of one, and its member that
/// doesn't fit, where it has members.
pub(crate) fn unfit_entry<'v, 't>(
    languages: &'v TreeMembers<'t>,
) -> Option<(&'v str, Option<&'v str>)>
    requires { AreMembersOrdered (members_view languages.now.items) }
    ensures { is_some result
        ≡ not (are_languages (members_data (members_view languages.now.items))) }
{
    for entry in languages {
        if !is_language(&entry.1) {
            let member = match &entry.1 {
                Value::Object(members) => unfit_member(is_html(&entry.1), members),
                _ => None,
            };
            return Some((entry.0, member));
        }
    }
    None
}

/// The object `languages` of a table, if it has one.
pub(crate) fn languages_of<'v, 't>(table: &'v Tree<'t>) -> Option<&'v TreeMembers<'t>>
    requires { IsOrdered (value_view table.now) }
    ensures value { option_map (λ ms. members_data (members_view ms.now.items)) result
        ≡ object_in (get (codes "languages") (data_of (value_view table.now))) }
    ensures keys { IfSome result (λ ms. AreKeysInOrder (members_view ms.now.items)) }
    ensures ordered { IfSome result (λ ms. AreMembersOrdered (members_view ms.now.items)) }
{
    match member(table, "languages") {
        Some(Value::Object(languages)) => Some(languages),
        _ => None,
    }
}

/// Whether the value, in which each number is a whole one of 64 bits, has the layout of a table.
#[tactic(auto, unfolding(crate::specs::Layout::has_layout))]
pub fn has_layout(value: &Tree<'_>) -> bool
    requires ordered { IsOrdered (value_view value.now) }
    requires whole { has_float (data_of (value_view value.now)) ≡ false }
    ensures { result ≡ has_layout (data_of (value_view value.now)) }
{
    match languages_of(value) {
        Some(languages) => unfit_entry(languages).is_none(),
        None => false,
    }
}
