//! Trees whose objects have their keys put in order.
ghost use Rattle.std.specs.Prelude.{◌≡◌, ◌≤◌, true, IfOk, IfSome, take, vec_len};
ghost use Rattle.std.specs.Cmp.Lexicographic.{slice_cmp};
ghost use Rattle.std.specs.Ordering.{nat_cmp};
ghost use Rattle.std.specs.declared.cmp.Ordering.TheVariants.{Less};
ghost use Rattle.json.specs.Json.{array, object};
ghost use Rattle.json.specs.Value.{value_view, items_view, members_view};
ghost use Rattle.tokei_json_tree.specs.Ordered.{AreBefore, AreKeysInOrder, keys_of};
ghost use Rattle.tokei_json_tree.specs.Orderings.{IsPut, IsOrderingOf, AreItemsOrderingOf, AreMembersOrderingOf};

use crate::counts::count;
use crate::tree::{Tree, TreeItems, TreeMembers};
use bumpalo::Bump;
use json::Value;
use std::alloc::AllocError;

/// How many members that stand before one in a text may belong behind it, so that they are put in
/// order here: it is compared with each of them.
const MOST: usize = 64;

/// Whether the key is behind all of that many first members, whose keys are in order.
fn is_behind(members: &TreeMembers<'_>, count: usize, key: &str) -> bool
    requires ordered { AreKeysInOrder (members_view members.now.items) }
    requires within { count ≤ vec_len members.now }
    ensures { result ≡ true
        → AreBefore (keys_of (members_view (take count members.now.items))) key.now }
{
    if count == 0 {
        return true;
    }
    members[count - 1].0 < key
}

/// Puts a member among others whose keys are in order, and tells whether it did: not where one of
/// its key is there, or more than `MOST` are to stand behind it.
fn put<'t>(members: &mut TreeMembers<'t>, key: &'t str, value: Tree<'t>) -> Result<bool, AllocError>
    requires { AreKeysInOrder (members_view members.old.items) }
    ensures { IfOk result (λ done. done ≡ true → IsPut key.now (value_view value.entry)
        (members_view members.old.items) (members_view members.new.items)) }
{
    let mut place = members.len();
    let first = place.saturating_sub(MOST);
    while place > first && key < members[place - 1].0 {
        place -= 1;
    }
    if !is_behind(members, place, key) {
        return Ok(false);
    }
    members.insert(place, (key, value))?;
    Ok(true)
}

/// Whether the key is behind the last one, if there is one.
#[inline(always)]
pub fn ascends(last: Option<&str>, key: &str) -> bool
    ensures { result ≡ true → IfSome last.entry (λ l. slice_cmp nat_cmp l.now key.now ≡ Less) }
{
    match last {
        Some(last) => last < key,
        None => true,
    }
}

/// Whether the keys of the tree's objects are in order as they stand and its numbers are whole ones
/// of 64 bits from 0 on: then it stands for what it reads as.
#[cycle(is_plain)]
#[inline(always)]
pub fn is_plain(tree: &Tree<'_>) -> bool
    ensures { result ≡ true → IsOrderingOf (value_view tree.now) (value_view tree.now) }
{
    match tree {
        Value::Null => true,
        Value::Bool(_) => true,
        Value::String(_) => true,
        Value::Number(text) => count(text).is_some(),
        Value::Array(items) => are_items_plain(items),
        Value::Object(members) => are_members_plain(members),
    }
}

#[cycle(is_plain)]
#[inline(never)]
fn are_items_plain(items: &TreeItems<'_>) -> bool
    ensures { result ≡ true
        → AreItemsOrderingOf (items_view items.now.items) (items_view items.now.items) }
{
    for item in items {
        if !is_plain(item) {
            return false;
        }
    }
    true
}

#[cycle(is_plain)]
#[inline(never)]
fn are_members_plain(members: &TreeMembers<'_>) -> bool
    ensures { result ≡ true
        → AreMembersOrderingOf (members_view members.now.items) (members_view members.now.items) }
{
    let mut last: Option<&str> = None;
    for member in members {
        if !ascends(last, member.0) || !is_plain(&member.1) {
            return false;
        }
        last = Some(member.0);
    }
    true
}

/// The tree with the keys of its objects in order. None where it has a number that isn't a whole
/// one of 64 bits from 0 on, a key twice in an object, or a member with more than `MOST` before it
/// that belong behind it. It fails where memory runs out.
#[cycle(ordered)]
#[inline(always)]
pub fn ordered<'t>(bump: &'t Bump, tree: &Tree<'t>) -> Result<Option<Tree<'t>>, AllocError>
    ensures { IfOk result
        (λ found. IfSome found (λ t. IsOrderingOf (value_view tree.entry.now) (value_view t))) }
{
    match tree {
        Value::Null => Ok(Some(Value::Null)),
        Value::Bool(truth) => Ok(Some(Value::Bool(*truth))),
        Value::String(text) => Ok(Some(Value::String(*text))),
        Value::Number(text) => {
            if count(text).is_some() {
                Ok(Some(Value::Number(*text)))
            } else {
                Ok(None)
            }
        }
        Value::Array(items) => items_ordered(bump, items),
        Value::Object(members) => members_ordered(bump, members),
    }
}

#[cycle(ordered)]
#[inline(never)]
fn items_ordered<'t>(bump: &'t Bump, items: &TreeItems<'t>) -> Result<Option<Tree<'t>>, AllocError>
    ensures { IfOk result (λ found. IfSome found
        (λ t. IsOrderingOf (array (items_view items.entry.now.items)) (value_view t))) }
{
    let mut made = match Vec::with_capacity(bump, items.len()) {
        Ok(made) => made,
        Err(refused) => return Err(refused),
    };
    for item in items {
        match ordered(bump, item) {
            Ok(Some(item)) => made.push_reserved(item),
            Ok(None) => return Ok(None),
            Err(refused) => return Err(refused),
        }
    }
    Ok(Some(Value::Array(made)))
}

#[cycle(ordered)]
#[inline(never)]
fn members_ordered<'t>(
    bump: &'t Bump,
    members: &TreeMembers<'t>,
) -> Result<Option<Tree<'t>>, AllocError>
    ensures { IfOk result (λ found. IfSome found
        (λ t. IsOrderingOf (object (members_view members.entry.now.items)) (value_view t))) }
{
    let mut made = match Vec::with_capacity(bump, members.len()) {
        Ok(made) => made,
        Err(refused) => return Err(refused),
    };
    for member in members {
        match ordered(bump, &member.1) {
            Ok(Some(value)) => match put(&mut made, member.0, value) {
                Ok(true) => {}
                Ok(false) => return Ok(None),
                Err(refused) => return Err(refused),
            },
            Ok(None) => return Ok(None),
            Err(refused) => return Err(refused),
        }
    }
    Ok(Some(Value::Object(made)))
}
