//! The rows of a table that has its layout and but the known escapes.
ghost use Rattle.std.specs.Prelude.{◌≡◌, ℕ, Bool, List, Some, codes, map, IfOk, OnOk, string_bytes};
ghost use Rattle.serde_json.specs.Data.{Items, string, boolean, array};
ghost use Rattle.serde_json.specs.Find.{get};
ghost use Rattle.json.specs.Value.{value_view, items_view, members_view};
ghost use Rattle.tokei_json_tree.specs.Ordered.{IsOrdered, AreItemsOrdered, AreKeysInOrder, AreMembersOrdered};
ghost use Rattle.tokei_json_tree.specs.TreeData.{data_of, items_data, members_data};
ghost use Rattle.tokei_table_row.specs.NewRow.{new_row};
ghost use Rattle.tokei_table_row.specs.RowOf.{pair_of, pairs_of, tokens_of, row_of};
ghost use Rattle.tokei_table_json.specs.Escapes.{unescaped_text};
ghost use Rattle.tokei_table_json.specs.Filled.{with_member, filled};
ghost use Rattle.tokei_table.specs.KeyOrder.{IsInKeyOrder};
ghost use Rattle.tokei_table_json.specs.Members.{text_list_key, pair_list_key, truth_key, key_of};
ghost use Rattle.tokei_table_json.specs.Rows.{text_of, text_at, texts_of};
ghost use Rattle.tokei_table_json.specs.Rows.{two_texts, pair_in, pairs_in, tags_in, tags_at};
ghost use Rattle.tokei_table_json.specs.Rows.{row_in, rows_in, rows_at};

use crate::escapes::{has_backslash, unescaped};
use crate::layout::{is_html, languages_of};
use crate::members::{Member, PairList, TextList, TruthValue, member_of};
use json::Value;
use std::alloc::{AllocError, Global};
use tokei_json_tree::{Tree, TreeItems, TreeMembers, member};
use tokei_table_row::Syntax;

/// The text after escapes; without a backslash it is a copy of the text itself.
fn read_text(alloc: Global, text: &str) -> Result<String, AllocError>
    ensures { IfOk result (λ s. string_bytes s ≡ unescaped_text text.now) }
{
    if has_backslash(text) {
        unescaped(alloc, text)
    } else {
        String::from_str(alloc, text)
    }
}

fn text(alloc: Global, value: &Tree<'_>) -> Result<String, AllocError>
    ensures { IfOk result (λ s. string_bytes s ≡ text_of (data_of (value_view value.now))) }
{
    match value {
        Value::String(text) => read_text(alloc, *text),
        _ => Ok(String::new(alloc)),
    }
}

fn texts(alloc: Global, items: &TreeItems<'_>) -> Result<Vec<String>, AllocError>
    ensures { IfOk result
        (λ v. tokens_of v.items ≡ texts_of (items_data (items_view items.now.items))) }
{
    let mut out = Vec::with_capacity(alloc, items.len())?;
    for item in items {
        out.push(text(alloc, item)?)?;
    }
    Ok(out)
}

fn two_texts(alloc: Global, items: &TreeItems<'_>) -> Result<(String, String), AllocError>
    ensures { IfOk result (λ p. pair_of p ≡ two_texts (items_data (items_view items.now.items))) }
{
    match items.as_slice() {
        [opener, closer] => Ok((text(alloc, opener)?, text(alloc, closer)?)),
        _ => Ok((String::new(alloc), String::new(alloc))),
    }
}

fn pair(alloc: Global, value: &Tree<'_>) -> Result<(String, String), AllocError>
    ensures { IfOk result (λ p. pair_of p ≡ pair_in (data_of (value_view value.now))) }
{
    match value {
        Value::Array(items) => two_texts(alloc, items),
        _ => Ok((String::new(alloc), String::new(alloc))),
    }
}

fn pairs(alloc: Global, items: &TreeItems<'_>) -> Result<Vec<(String, String)>, AllocError>
    ensures { IfOk result
        (λ v. pairs_of v.items ≡ pairs_in (items_data (items_view items.now.items))) }
{
    let mut out = Vec::with_capacity(alloc, items.len())?;
    for item in items {
        out.push(pair(alloc, item)?)?;
    }
    Ok(out)
}

fn tag(alloc: Global, context: &Tree<'_>) -> Result<String, AllocError>
    requires { IsOrdered (value_view context.now) }
    ensures { IfOk result (λ s. string_bytes s
        ≡ text_at (get (codes "tag") (data_of (value_view context.now)))) }
{
    match member(context, "tag") {
        Some(value) => text(alloc, value),
        None => Ok(String::new(alloc)),
    }
}

fn tags(alloc: Global, items: &TreeItems<'_>) -> Result<Vec<String>, AllocError>
    requires { AreItemsOrdered (items_view items.now.items) }
    ensures { IfOk result
        (λ v. tokens_of v.items ≡ tags_in (items_data (items_view items.now.items))) }
{
    let mut out = Vec::with_capacity(alloc, items.len())?;
    for item in items {
        out.push(tag(alloc, item)?)?;
    }
    Ok(out)
}

/// Puts the texts in place of those of the member.
pub(crate) fn put_texts(row: &mut Syntax, list: TextList, texts: Vec<String>)
    ensures { (html : Bool) (ds : Items) → tokens_of texts.items ≡ texts_of ds
        → row_of row.new ≡ with_member html (text_list_key list) (array ds) (row_of row.old) }
{
    match list {
        TextList::Extensions => row.extensions = texts,
        TextList::LineComment => row.line_comment = texts,
        TextList::Env => row.env = texts,
        TextList::Filenames => row.filenames = texts,
        TextList::Shebangs => row.shebangs = texts,
        TextList::PathSuffixes => row.path_suffixes = texts,
        TextList::Mime => row.mime = texts,
        TextList::ImportantSyntax => row.important_syntax = texts,
    }
}

/// Puts the pairs in place of those of the member.
pub(crate) fn put_pairs(row: &mut Syntax, list: PairList, pairs: Vec<(String, String)>)
    ensures { (html : Bool) (ds : Items) → pairs_of pairs.items ≡ pairs_in ds
        → row_of row.new ≡ with_member html (pair_list_key list) (array ds) (row_of row.old) }
{
    match list {
        PairList::MultiLineComments => row.multi_line_comments = pairs,
        PairList::Quotes => row.quotes = pairs,
        PairList::VerbatimQuotes => row.verbatim_quotes = pairs,
        PairList::DocQuotes => row.doc_quotes = pairs,
        PairList::NestedComments => row.nested_comments = pairs,
    }
}

/// Puts the truth value in place of that of the member.
pub(crate) fn put_truth(row: &mut Syntax, member: TruthValue, truth: bool)
    ensures { (html : Bool)
        → row_of row.new ≡ with_member html (truth_key member) (boolean truth) (row_of row.old) }
{
    match member {
        TruthValue::Nested => row.nested = truth,
        TruthValue::Literate => row.literate = truth,
        TruthValue::Blank => row.blank = truth,
    }
}

/// Puts the tags, which only a language of kind `html` has, in place of those that are there.
fn put_tags(
    alloc: Global,
    list: &mut Vec<String>,
    html: bool,
    items: &TreeItems<'_>,
) -> Result<(), AllocError>
    requires { AreItemsOrdered (items_view items.now.items) }
    ensures { OnOk result (tokens_of list.new.items
        ≡ tags_at html (Some (array (items_data (items_view items.now.items))))) }
{
    *list = if html {
        tags(alloc, items)?
    } else {
        Vec::new(alloc)
    };
    Ok(())
}

/// Puts the name in place of the one that is there, where it isn't empty.
pub(crate) fn put_name(row: &mut Syntax, name: String)
    ensures { (html : Bool) (t : List ℕ) → string_bytes name ≡ unescaped_text t
        → row_of row.new ≡ with_member html (codes "name") (string t) (row_of row.old) }
{
    if !name.is_empty() {
        row.name = name;
    }
}

/// Reads a member whose value is a list.
fn read_list(
    alloc: Global,
    row: &mut Syntax,
    html: bool,
    member: Member,
    items: &TreeItems<'_>,
) -> Result<(), AllocError>
    requires { AreItemsOrdered (items_view items.now.items) }
    ensures { OnOk result (row_of row.new ≡ with_member html (key_of member)
        (array (items_data (items_view items.now.items))) (row_of row.old)) }
{
    match member {
        Member::Texts(list) => put_texts(row, list, texts(alloc, items)?),
        Member::Pairs(list) => put_pairs(row, list, pairs(alloc, items)?),
        Member::Contexts => put_tags(alloc, &mut row.contexts, html, items)?,
        Member::Truth(_) | Member::Name | Member::Kind | Member::Other => {}
    }
    Ok(())
}

/// Reads a member whose value is a text.
fn read_text_member(
    alloc: Global,
    row: &mut Syntax,
    html: bool,
    member: Member,
    text: &str,
) -> Result<(), AllocError>
    ensures { OnOk result
        (row_of row.new ≡ with_member html (key_of member) (string text.now) (row_of row.old)) }
{
    match member {
        Member::Name => put_name(row, read_text(alloc, text)?),
        Member::Kind => row.kind = String::from_str(alloc, text)?,
        _ => {}
    }
    Ok(())
}

/// Reads a member whose value is a truth value.
fn read_truth(row: &mut Syntax, html: bool, member: Member, truth: bool)
    ensures { row_of row.new
        ≡ with_member html (key_of member) (boolean truth) (row_of row.old) }
{
    match member {
        Member::Truth(member) => put_truth(row, member, truth),
        _ => {}
    }
}

/// Reads a member of a language, which is of kind `html` or not.
pub(crate) fn read_member(
    alloc: Global,
    row: &mut Syntax,
    html: bool,
    key: &str,
    value: &Tree<'_>,
) -> Result<(), AllocError>
    requires { IsOrdered (value_view value.now) }
    ensures { OnOk result (row_of row.new
        ≡ with_member html key.now (data_of (value_view value.now)) (row_of row.old)) }
{
    match value {
        Value::Array(items) => read_list(alloc, row, html, member_of(key), items),
        Value::String(text) => read_text_member(alloc, row, html, member_of(key), *text),
        Value::Bool(truth) => {
            read_truth(row, html, member_of(key), *truth);
            Ok(())
        }
        _ => Ok(()),
    }
}

fn read_members(
    alloc: Global,
    row: &mut Syntax,
    html: bool,
    members: &TreeMembers<'_>,
) -> Result<(), AllocError>
    requires { AreMembersOrdered (members_view members.now.items) }
    ensures { OnOk result (row_of row.new
        ≡ filled html (members_data (members_view members.now.items)) (row_of row.old)) }
{
    for entry in members {
        read_member(alloc, row, html, entry.0, &entry.1)?;
    }
    Ok(())
}

/// Reads a member of `languages` into a new row of its key.
#[tactic(auto, unfolding(crate::specs::Rows::row_in))]
fn read_language(
    alloc: Global,
    row: &mut Syntax,
    key: &str,
    value: &Tree<'_>,
) -> Result<(), AllocError>
    requires new { row_of row.old ≡ new_row key.now }
    requires ordered { IsOrdered (value_view value.now) }
    ensures { OnOk result (row_of row.new ≡ row_in key.now (data_of (value_view value.now))) }
{
    match value {
        Value::Object(members) => read_members(alloc, row, is_html(value), members),
        _ => Ok(()),
    }
}

fn row(alloc: Global, key: &str, value: &Tree<'_>) -> Result<Syntax, AllocError>
    requires { IsOrdered (value_view value.now) }
    ensures { IfOk result (λ s. row_of s ≡ row_in key.now (data_of (value_view value.now))) }
{
    let mut row = Syntax::new(alloc, key)?;
    read_language(alloc, &mut row, key, value)?;
    Ok(row)
}

fn rows(alloc: Global, members: &TreeMembers<'_>) -> Result<Vec<Syntax>, AllocError>
    requires keys { AreKeysInOrder (members_view members.now.items) }
    requires ordered { AreMembersOrdered (members_view members.now.items) }
    ensures value { IfOk result
        (λ v. map row_of v.items ≡ rows_in (members_data (members_view members.now.items))) }
    ensures ordered { IfOk result (λ v. IsInKeyOrder (map row_of v.items)) }
{
    let mut out = Vec::with_capacity(alloc, members.len())?;
    for entry in members {
        out.push(row(alloc, entry.0, &entry.1)?)?;
    }
    Ok(out)
}

/// The rows of the object `languages` of a table. It fails where memory runs out.
pub fn rows_of(alloc: Global, table: &Tree<'_>) -> Result<Vec<Syntax>, AllocError>
    requires ordered { IsOrdered (value_view table.now) }
    ensures value { IfOk result (λ v. map row_of v.items
        ≡ rows_at (get (codes "languages") (data_of (value_view table.now)))) }
    ensures ordered { IfOk result (λ v. IsInKeyOrder (map row_of v.items)) }
{
    match languages_of(table) {
        Some(languages) => rows(alloc, languages),
        None => Ok(Vec::new(alloc)),
    }
}
