//! The statistics and reports of a document that has its layout.
ghost use Rattle.std.specs.Prelude.{◌≡◌, map, option_map, string_bytes, [], IfOk, IfSome, OnOk};
ghost use Rattle.json.specs.Value.{value_view, items_view, members_view};
ghost use Rattle.tokei_earlier.specs.ReadReports.{count_in, counts_in, put_blob, put_named, statistics_in};
ghost use Rattle.tokei_earlier.specs.ReadReports.{blobs_in, text_in, statistics_at};
ghost use Rattle.tokei_earlier.specs.ReadReports.{report_in, all_reports_in, reports_in, with_children};
ghost use Rattle.tokei_earlier.specs.ReadReports.{children_in, truth_in};
ghost use Rattle.tokei_stats.specs.Reports.{children_of, report_of, reports_of};
ghost use Rattle.tokei_stats.specs.Seen.{blobs_of, entries_of, stats_of, sums_of};
ghost use Rattle.tokei_json_tree.specs.Ordered.{IsOrdered, AreItemsOrdered, AreMembersOrdered};
ghost use Rattle.tokei_json_tree.specs.TreeData.{data_of, items_data, members_data};

use json::Value;
use std::alloc::{AllocError, Global};
use std::collections::BTreeMap;
use tokei_json::NamedTable;
use tokei_json_tree::{Tree, TreeItems, TreeMembers, count, member};
use tokei_stats::{CodeStats, Report, Sums};
use tokei_table::LanguageType;

/// The number of a member; 0 where it is none, or too large.
pub fn count_in(member: Option<&Tree<'_>>) -> usize
    ensures { result ≡ count_in (option_map (λ v. data_of (value_view v.now)) member.entry) }
{
    match member {
        Some(Value::Number(text)) => count(text).unwrap_or(0) as usize,
        _ => 0,
    }
}

#[tactic(auto, unfolding(crate::specs::ReadReports::counts_in))]
fn counts_in(value: &Tree<'_>) -> Sums
    requires { IsOrdered (value_view value.now) }
    ensures { sums_of result ≡ counts_in (data_of (value_view value.now)) }
{
    Sums {
        blanks: count_in(member(value, "blanks")),
        code: count_in(member(value, "code")),
        comments: count_in(member(value, "comments")),
    }
}

/// The statistics of an object, whose blobs stand among its members; other values have none.
#[cycle(statistics)]
fn statistics_in(
    alloc: Global,
    table: &NamedTable,
    value: &Tree<'_>,
) -> Result<CodeStats, AllocError>
    requires { IsOrdered (value_view value.now) }
    ensures { IfOk result
        (λ s. stats_of s ≡ statistics_in table.now (data_of (value_view value.now))) }
{
    match value {
        Value::Object(members) => {
            for member in members {
                if member.0 == "blobs" {
                    let blobs = blobs_in(alloc, table, &member.1)?;
                    return Ok(CodeStats::assembled(alloc, counts_in(value), blobs));
                }
            }
            Ok(CodeStats::assembled(alloc, counts_in(value), BTreeMap::new(alloc)))
        }
        _ => Ok(CodeStats::new(alloc)),
    }
}

#[cycle(statistics)]
fn blobs_in(
    alloc: Global,
    table: &NamedTable,
    value: &Tree<'_>,
) -> Result<BTreeMap<LanguageType, CodeStats>, AllocError>
    requires { IsOrdered (value_view value.now) }
    ensures { IfOk result (λ m. blobs_of (entries_of m.entries)
        ≡ blobs_in table.now (data_of (value_view value.now))) }
{
    match value {
        Value::Object(members) => {
            let mut blobs = BTreeMap::new(alloc);
            for member in members {
                let stats = statistics_in(alloc, table, &member.1)?;
                put_blob(&mut blobs, table.language(member.0), stats)?;
            }
            Ok(blobs)
        }
        _ => Ok(BTreeMap::new(alloc)),
    }
}

/// Puts the statistics at the language, where there is one.
fn put_blob(
    blobs: &mut BTreeMap<LanguageType, CodeStats>,
    language: Option<LanguageType>,
    stats: CodeStats,
) -> Result<(), AllocError>
    ensures { OnOk result (blobs_of (entries_of blobs.new.entries)
        ≡ put_blob language (blobs_of (entries_of blobs.old.entries)) (stats_of stats)) }
{
    if let Some(language) = language {
        drop(blobs.insert(language, stats)?);
    }
    Ok(())
}

fn text_in(alloc: Global, member: Option<&Tree<'_>>) -> Result<String, AllocError>
    ensures { IfOk result (λ s. string_bytes s
        ≡ text_in (option_map (λ v. data_of (value_view v.now)) member.entry)) }
{
    match member {
        Some(Value::String(text)) => String::from_str(alloc, text),
        _ => Ok(String::new(alloc)),
    }
}

fn statistics_at(
    alloc: Global,
    table: &NamedTable,
    member: Option<&Tree<'_>>,
) -> Result<CodeStats, AllocError>
    requires { IfSome member (λ v. IsOrdered (value_view v.now)) }
    ensures { IfOk result (λ s. stats_of s
        ≡ statistics_at table.now (option_map (λ v. data_of (value_view v.now)) member.entry)) }
{
    match member {
        Some(value) => statistics_in(alloc, table, value),
        None => Ok(CodeStats::new(alloc)),
    }
}

fn report_in(alloc: Global, table: &NamedTable, value: &Tree<'_>) -> Result<Report, AllocError>
    requires { IsOrdered (value_view value.now) }
    ensures { IfOk result
        (λ r. report_of r ≡ report_in table.now (data_of (value_view value.now))) }
{
    Ok(Report {
        name: text_in(alloc, member(value, "name"))?,
        stats: statistics_at(alloc, table, member(value, "stats"))?,
    })
}

fn all_reports_in(
    alloc: Global,
    table: &NamedTable,
    items: &TreeItems<'_>,
) -> Result<Vec<Report>, AllocError>
    requires { AreItemsOrdered (items_view items.now.items) }
    ensures { IfOk result (λ v. map report_of v.items
        ≡ all_reports_in table.now (items_data (items_view items.now.items))) }
{
    let mut reports = Vec::with_capacity(alloc, items.len())?;
    for item in items {
        reports.push(report_in(alloc, table, item)?)?;
    }
    Ok(reports)
}

/// The reports of a member, in their order; none where it is no list. It fails where memory runs
/// out.
pub fn reports_in(
    alloc: Global,
    table: &NamedTable,
    member: Option<&Tree<'_>>,
) -> Result<Vec<Report>, AllocError>
    requires { IfSome member (λ v. IsOrdered (value_view v.now)) }
    ensures { IfOk result (λ v. reports_of v
        ≡ reports_in table.now (option_map (λ w. data_of (value_view w.now)) member.entry)) }
{
    match member {
        Some(Value::Array(items)) => all_reports_in(alloc, table, items),
        _ => Ok(Vec::new(alloc)),
    }
}

/// Puts the reports at the language, where there is one.
fn put_children(
    children: &mut BTreeMap<LanguageType, Vec<Report>>,
    language: Option<LanguageType>,
    reports: Vec<Report>,
) -> Result<(), AllocError>
    ensures { OnOk result (children_of children.new.entries
        ≡ put_named language (children_of children.old.entries) (reports_of reports)) }
{
    if let Some(language) = language {
        drop(children.insert(language, reports)?);
    }
    Ok(())
}

fn with_children(
    alloc: Global,
    table: &NamedTable,
    members: &TreeMembers<'_>,
) -> Result<BTreeMap<LanguageType, Vec<Report>>, AllocError>
    requires { AreMembersOrdered (members_view members.now.items) }
    ensures { IfOk result (λ m. children_of m.entries
        ≡ with_children table.now (members_data (members_view members.now.items)) []) }
{
    let mut children = BTreeMap::new(alloc);
    for member in members {
        let reports = reports_in(alloc, table, Some(&member.1))?;
        put_children(&mut children, table.language(member.0), reports)?;
    }
    Ok(children)
}

/// The reports of a member by the languages that the table knows; none where it is no object. It
/// fails where memory runs out.
pub fn children_in(
    alloc: Global,
    table: &NamedTable,
    member: Option<&Tree<'_>>,
) -> Result<BTreeMap<LanguageType, Vec<Report>>, AllocError>
    requires { IfSome member (λ v. IsOrdered (value_view v.now)) }
    ensures { IfOk result (λ m. children_of m.entries
        ≡ children_in table.now (option_map (λ v. data_of (value_view v.now)) member.entry)) }
{
    match member {
        Some(Value::Object(members)) => with_children(alloc, table, members),
        _ => Ok(BTreeMap::new(alloc)),
    }
}

/// Whether a member is `true`.
pub fn truth_in(member: Option<&Tree<'_>>) -> bool
    ensures { result ≡ truth_in (option_map (λ v. data_of (value_view v.now)) member.entry) }
{
    match member {
        Some(Value::Bool(truth)) => *truth,
        _ => false,
    }
}
