//! Whether each object of a document whose members are languages names known languages, and each of
//! them once.
ghost use Rattle.std.specs.Prelude.{◌≡◌, ◌&&◌, ◌||◌, bytes_eq, codes, is_some, option_map, IfSome};
ghost use Rattle.json.specs.Value.{value_view, members_view};
ghost use Rattle.tokei_json_tree.specs.Shapes.{absent_or};
ghost use Rattle.tokei_json_tree.specs.Ordered.{IsOrdered, AreMembersOrdered};
ghost use Rattle.tokei_json_tree.specs.TreeData.{data_of, members_data};
ghost use Rattle.tokei_json.specs.LanguageMaps.{all_names, language_named, has_both, names_once, passes};
ghost use Rattle.tokei_json.specs.LanguageMaps.{statistics_pass, blobs_pass, report_passes, reports_pass};
ghost use Rattle.tokei_json.specs.LanguageMaps.{children_pass, language_passes, languages_pass, all_known, all_once};

use crate::named_table::NamedTable;
use json::Value;
use tokei_json_tree::{Tree, TreeMembers, member};

/// What is asked of the names.
#[derive(Clone, Copy)]
pub enum MapTest {
    /// Each is that of a language.
    Known,
    /// No language stands both by its key and by its name.
    Once,
}

fn has_both(table: &NamedTable, value: &Tree<'_>, name: &str) -> bool
    requires { IsOrdered (value_view value.now) }
    ensures { result ≡ has_both table.now (data_of (value_view value.now))
        (language_named table.now name.now) }
{
    match table.language(name) {
        Some(language) => {
            let listed = table.as_table();
            let key = language.key(listed);
            let name = language.name(listed);
            key != name && member(value, key).is_some() && member(value, name).is_some()
        }
        None => false,
    }
}

/// Whether every name is that of a language, save `Total` among a document's own members.
fn all_are_known(table: &NamedTable, members: &TreeMembers<'_>, of_document: bool) -> bool
    ensures { result ≡ all_names (λ k. of_document && bytes_eq k (codes "Total")
        || is_some (language_named table.now k))
        (members_data (members_view members.now.items)) }
{
    for member in members {
        let is_total = of_document && member.0 == "Total";
        if !is_total && table.language(member.0).is_none() {
            return false;
        }
    }
    true
}

/// Whether no language stands both by its key and by its name. It takes no look at the table where
/// there are fewer than two names.
fn names_once(table: &NamedTable, value: &Tree<'_>) -> bool
    requires { IsOrdered (value_view value.now) }
    ensures { result ≡ names_once table.now (data_of (value_view value.now)) }
{
    match value {
        Value::Object(members) => {
            if members.len() < 2 {
                return true;
            }
            for member in members {
                if has_both(table, value, member.0) {
                    return false;
                }
            }
            true
        }
        _ => true,
    }
}

fn passes(table: &NamedTable, test: MapTest, value: &Tree<'_>) -> bool
    requires { IsOrdered (value_view value.now) }
    ensures { result ≡ passes table.now test (data_of (value_view value.now)) }
{
    match test {
        MapTest::Known => match value {
            Value::Object(members) => all_are_known(table, members, false),
            _ => true,
        },
        MapTest::Once => names_once(table, value),
    }
}

#[cycle(statistics)]
fn statistics_pass(table: &NamedTable, test: MapTest, value: &Tree<'_>) -> bool
    requires { IsOrdered (value_view value.now) }
    ensures { result ≡ statistics_pass (passes table.now test) (data_of (value_view value.now)) }
{
    match value {
        Value::Object(members) => {
            for member in members {
                if member.0 == "blobs" {
                    return blobs_pass(table, test, &member.1);
                }
            }
            true
        }
        _ => true,
    }
}

#[cycle(statistics)]
fn blobs_pass(table: &NamedTable, test: MapTest, value: &Tree<'_>) -> bool
    requires { IsOrdered (value_view value.now) }
    ensures { result ≡ blobs_pass (passes table.now test) (data_of (value_view value.now)) }
{
    match value {
        Value::Object(members) => {
            if !passes(table, test, value) {
                return false;
            }
            for member in members {
                if !statistics_pass(table, test, &member.1) {
                    return false;
                }
            }
            true
        }
        _ => true,
    }
}

fn report_passes(table: &NamedTable, test: MapTest, value: &Tree<'_>) -> bool
    requires { IsOrdered (value_view value.now) }
    ensures { result ≡ report_passes (passes table.now test) (data_of (value_view value.now)) }
{
    match member(value, "stats") {
        Some(stats) => statistics_pass(table, test, stats),
        None => true,
    }
}

/// Whether the reports of a list pass, where it is there.
fn reports_pass(table: &NamedTable, test: MapTest, member: Option<&Tree<'_>>) -> bool
    requires { IfSome member (λ v. IsOrdered (value_view v.now)) }
    ensures { result ≡ absent_or (reports_pass (passes table.now test))
        (option_map (λ v. data_of (value_view v.now)) member.entry) }
{
    match member {
        Some(value) => match value {
            Value::Array(items) => {
                for item in items {
                    if !report_passes(table, test, item) {
                        return false;
                    }
                }
                true
            }
            _ => true,
        },
        None => true,
    }
}

/// Whether the children of a language pass, where they are there.
fn children_pass(table: &NamedTable, test: MapTest, member: Option<&Tree<'_>>) -> bool
    requires { IfSome member (λ v. IsOrdered (value_view v.now)) }
    ensures { result ≡ absent_or (children_pass (passes table.now test))
        (option_map (λ v. data_of (value_view v.now)) member.entry) }
{
    match member {
        Some(value) => match value {
            Value::Object(members) => {
                if !passes(table, test, value) {
                    return false;
                }
                for member in members {
                    if !reports_pass(table, test, Some(&member.1)) {
                        return false;
                    }
                }
                true
            }
            _ => true,
        },
        None => true,
    }
}

fn language_passes(table: &NamedTable, test: MapTest, value: &Tree<'_>) -> bool
    requires { IsOrdered (value_view value.now) }
    ensures { result ≡ language_passes (passes table.now test) (data_of (value_view value.now)) }
{
    reports_pass(table, test, member(value, "reports"))
        && children_pass(table, test, member(value, "children"))
}

fn languages_pass(table: &NamedTable, test: MapTest, members: &TreeMembers<'_>) -> bool
    requires { AreMembersOrdered (members_view members.now.items) }
    ensures { result ≡ languages_pass (passes table.now test)
        (members_data (members_view members.now.items)) }
{
    for member in members {
        if member.0 == "Total" {
            continue;
        }
        if !language_passes(table, test, &member.1) {
            return false;
        }
    }
    true
}

/// Whether every name is that of a language, save `Total` among the document's own members.
#[tactic(auto, unfolding(crate::specs::LanguageMaps::all_known))]
pub fn all_known(table: &NamedTable, value: &Tree<'_>) -> bool
    requires ordered { IsOrdered (value_view value.now) }
    ensures { result ≡ all_known table.now (data_of (value_view value.now)) }
{
    match value {
        Value::Object(members) => {
            all_are_known(table, members, true) && languages_pass(table, MapTest::Known, members)
        }
        _ => true,
    }
}

/// Whether no language stands twice in one object.
#[tactic(auto, unfolding(crate::specs::LanguageMaps::all_once))]
pub fn all_once(table: &NamedTable, value: &Tree<'_>) -> bool
    requires ordered { IsOrdered (value_view value.now) }
    ensures { result ≡ all_once table.now (data_of (value_view value.now)) }
{
    match value {
        Value::Object(members) => {
            names_once(table, value) && languages_pass(table, MapTest::Once, members)
        }
        _ => true,
    }
}
