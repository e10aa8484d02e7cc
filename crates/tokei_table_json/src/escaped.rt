//! Whether the texts of a table have no escapes but the known ones.
ghost use Rattle.std.specs.Prelude.{◌≡◌, is_some, not, option_map, codes};
ghost use Rattle.json.specs.Value.{value_view, items_view, members_view};
ghost use Rattle.serde_json.specs.Find.{get};
ghost use Rattle.tokei_json_tree.specs.Ordered.{IsOrdered, AreItemsOrdered, AreMembersOrdered};
ghost use Rattle.tokei_json_tree.specs.TreeData.{data_of, items_data, members_data};
ghost use Rattle.tokei_json_tree.specs.Shapes.{absent_or, all_items};
ghost use Rattle.tokei_table_json.specs.Escaped.{is_escaped_value, is_escaped_list};
ghost use Rattle.tokei_table_json.specs.Escaped.{are_escaped_pairs, is_escaped_context};
ghost use Rattle.tokei_table_json.specs.Escaped.{are_escaped_contexts, is_escaped_language, are_escaped_languages};
ghost use Rattle.tokei_table_json.specs.Escaped.{is_escaped_table};
ghost use Rattle.tokei_table_json.specs.MemberEscapes.{keeps_escapes};
ghost use Rattle.tokei_table_json.specs.MemberLayout.{all_members};
ghost use Rattle.tokei_table_json.specs.Members.{member_keeps_escapes};

use crate::escapes::is_escaped;
use crate::layout::{is_html, languages_of};
use crate::members::{Member, member_of};
use json::Value;
use tokei_json_tree::{Tree, TreeItems, TreeMembers, member};

fn is_escaped_value(value: &Tree<'_>) -> bool
    ensures { result ≡ is_escaped_value (data_of (value_view value.now)) }
{
    match value {
        Value::String(text) => is_escaped(*text),
        _ => true,
    }
}

fn is_escaped_text(member: Option<&Tree<'_>>) -> bool
    ensures { result ≡ absent_or is_escaped_value
        (option_map (λ v. data_of (value_view v.now)) member.entry) }
{
    match member {
        None => true,
        Some(value) => is_escaped_value(value),
    }
}

fn all_escaped(items: &TreeItems<'_>) -> bool
    ensures { result ≡ all_items is_escaped_value (items_data (items_view items.now.items)) }
{
    for item in items {
        if !is_escaped_value(item) {
            return false;
        }
    }
    true
}

fn is_escaped_list(value: &Tree<'_>) -> bool
    ensures { result ≡ is_escaped_list (data_of (value_view value.now)) }
{
    match value {
        Value::Array(items) => all_escaped(items),
        _ => true,
    }
}

fn all_escaped_lists(items: &TreeItems<'_>) -> bool
    ensures { result ≡ all_items is_escaped_list (items_data (items_view items.now.items)) }
{
    for item in items {
        if !is_escaped_list(item) {
            return false;
        }
    }
    true
}

fn are_escaped_pairs(value: &Tree<'_>) -> bool
    ensures { result ≡ are_escaped_pairs (data_of (value_view value.now)) }
{
    match value {
        Value::Array(items) => all_escaped_lists(items),
        _ => true,
    }
}

fn is_escaped_context(context: &Tree<'_>) -> bool
    requires { IsOrdered (value_view context.now) }
    ensures { result ≡ is_escaped_context (data_of (value_view context.now)) }
{
    is_escaped_text(member(context, "tag"))
}

fn all_escaped_contexts(items: &TreeItems<'_>) -> bool
    requires { AreItemsOrdered (items_view items.now.items) }
    ensures { result ≡ all_items is_escaped_context (items_data (items_view items.now.items)) }
{
    for item in items {
        if !is_escaped_context(item) {
            return false;
        }
    }
    true
}

fn are_escaped_contexts(value: &Tree<'_>) -> bool
    requires { IsOrdered (value_view value.now) }
    ensures { result ≡ are_escaped_contexts (data_of (value_view value.now)) }
{
    match value {
        Value::Array(items) => all_escaped_contexts(items),
        _ => true,
    }
}

/// Whether a member has but the known escapes in a language, which is of kind `html` or not.
fn member_keeps_escapes(html: bool, member: Member, value: &Tree<'_>) -> bool
    requires { IsOrdered (value_view value.now) }
    ensures { result ≡ member_keeps_escapes html member (data_of (value_view value.now)) }
{
    match member {
        Member::Texts(_) => is_escaped_list(value),
        Member::Pairs(_) => are_escaped_pairs(value),
        Member::Name => is_escaped_value(value),
        Member::Contexts => !html || are_escaped_contexts(value),
        Member::Truth(_) | Member::Kind | Member::Other => true,
    }
}

/// Whether the value has but the known escapes at its key in a language, which is of kind `html`
/// or not.
pub(crate) fn keeps_escapes(html: bool, key: &str, value: &Tree<'_>) -> bool
    requires { IsOrdered (value_view value.now) }
    ensures { result ≡ keeps_escapes html key.now (data_of (value_view value.now)) }
{
    member_keeps_escapes(html, member_of(key), value)
}

/// The name of the first member with an unknown escape.
fn misescaped_member<'v, 't>(html: bool, members: &'v TreeMembers<'t>) -> Option<&'v str>
    requires { AreMembersOrdered (members_view members.now.items) }
    ensures { is_some result
        ≡ not (all_members (keeps_escapes html) (members_data (members_view members.now.items))) }
{
    for entry in members {
        if !keeps_escapes(html, entry.0, &entry.1) {
            return Some(entry.0);
        }
    }
    None
}

fn is_escaped_language(value: &Tree<'_>) -> bool
    requires { IsOrdered (value_view value.now) }
    ensures { result ≡ is_escaped_language (data_of (value_view value.now)) }
{
    match value {
        Value::Object(members) => misescaped_member(is_html(value), members).is_none(),
        _ => true,
    }
}

/// The key of the first of these languages with an unknown escape, and the member that has it.
pub(crate) fn misescaped_entry<'v, 't>(
    languages: &'v TreeMembers<'t>,
) -> Option<(&'v str, Option<&'v str>)>
    requires { AreMembersOrdered (members_view languages.now.items) }
    ensures { is_some result
        ≡ not (are_escaped_languages (members_data (members_view languages.now.items))) }
{
    for entry in languages {
        if !is_escaped_language(&entry.1) {
            let member = match &entry.1 {
                Value::Object(members) => misescaped_member(is_html(&entry.1), members),
                _ => None,
            };
            return Some((entry.0, member));
        }
    }
    None
}

/// Whether the languages of a table have no escapes but the known ones.
pub fn is_escaped_table(value: &Tree<'_>) -> bool
    requires ordered { IsOrdered (value_view value.now) }
    ensures { result
        ≡ is_escaped_table (get (codes "languages") (data_of (value_view value.now))) }
{
    match languages_of(value) {
        Some(languages) => misescaped_entry(languages).is_none(),
        None => true,
    }
}
