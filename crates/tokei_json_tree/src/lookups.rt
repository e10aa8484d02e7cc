//! Members of a tree by their names.
ghost use Rattle.std.specs.Prelude.{◌≡◌, option_map, IfSome};
ghost use Rattle.json.specs.Value.{value_view, members_view};
ghost use Rattle.serde_json.specs.Find.{get, get_member};
ghost use Rattle.tokei_json_tree.specs.Ordered.{AreKeysInOrder, AreMembersOrdered, IsOrdered};
ghost use Rattle.tokei_json_tree.specs.TreeData.{data_of, members_data};
ghost use Rattle.tokei_json_tree.specs.Unordered.{unordered_data};

use crate::tree::{Tree, TreeMembers};
use json::Value;
use std::cmp::Ordering;

/// The value of the member of that name, which is searched for by halves, since the keys are in
/// order.
fn find<'v, 't>(members: &'v TreeMembers<'t>, name: &str) -> Option<&'v Tree<'t>>
    requires keys { AreKeysInOrder (members_view members.now.items) }
    requires ordered { AreMembersOrdered (members_view members.now.items) }
    ensures value { option_map (λ v. data_of (value_view v.now)) result
        ≡ get_member name.now (members_data (members_view members.now.items)) }
    ensures ordered { IfSome result (λ v. IsOrdered (value_view v.now)) }
{
    let mut low = 0;
    let mut high = members.len();
    while low < high {
        let middle = low + (high - low) / 2;
        let found = &members[middle];
        match found.0.cmp(name) {
            Ordering::Less => low = middle + 1,
            Ordering::Greater => high = middle,
            Ordering::Equal => return Some(&found.1),
        }
    }
    None
}

/// The value of the member of that name, where the tree is an object that has one.
pub fn member<'v, 't>(tree: &'v Tree<'t>, name: &str) -> Option<&'v Tree<'t>>
    requires { IsOrdered (value_view tree.now) }
    ensures value { option_map (λ v. data_of (value_view v.now)) result
        ≡ get name.now (data_of (value_view tree.now)) }
    ensures ordered { IfSome result (λ v. IsOrdered (value_view v.now)) }
{
    match tree {
        Value::Object(members) => find(members, name),
        _ => None,
    }
}

/// The value of the last member of that name, where the tree is an object that has one. It walks
/// the members from the end, whose keys may stand in any order.
pub fn last_member<'v, 't>(tree: &'v Tree<'t>, name: &str) -> Option<&'v Tree<'t>>
    ensures { option_map (λ v. unordered_data (value_view v.now)) result
        ≡ get name.now (unordered_data (value_view tree.now)) }
{
    tree.get(name)
}
