//! The text of a document, written language by language.
ghost use Rattle.std.specs.Prelude.{◌≡◌, ◌≤◌, map, IfOk, OnOk, IsErrOf, Some, string_bytes};
ghost use Rattle.serde_json.specs.Data.{depth, object, no_members};
ghost use Rattle.serde_json.specs.Read.{max_depth, read};
ghost use Rattle.serde_json.specs.Written.{compact_text};
ghost use Rattle.tokei_json.specs.CountedObjects.{language_object};
ghost use Rattle.tokei_json.specs.Document.{document, named_data, reports_data};
ghost use Rattle.tokei_json.specs.Members.{IsShown, member_data, member_value};
ghost use Rattle.tokei_json.specs.Tokens.{IsMember, IsWritten, children_members, members_by};
ghost use Rattle.tokei_languages.specs.Seen.{languages_of};
ghost use Rattle.tokei_languages.specs.Summaries.{languages_summary, reports_by_language};
ghost use Rattle.tokei_stats.specs.Overflow.{CountsFit};
ghost use Rattle.tokei_stats.specs.Reports.{report_of};
ghost use Rattle.tokei_stats.specs.Seen.{sums_of};

use crate::tokens::{by_name, text_of, write_children, write_count, write_reports};
use json::Writer;
use std::alloc::{AllocError, Global};
use std::collections::BTreeMap;
use tokei_languages::{Language, Languages, name_of};
use tokei_stats::{CountError, Report, Sums};
use tokei_table::LanguageTable;

/// Languages, the table that names them, and the counts of their total.
#[derive(Clone, Copy)]
struct Counted<'a> {
    table: &'a LanguageTable,
    languages: &'a Languages,
    total: Sums,
}

/// What stands under a name of a document.
#[derive(Clone, Copy)]
enum Member<'a> {
    Total,
    Language(&'a Language),
}

/// What a member shows of itself, without its children.
#[derive(Clone, Copy)]
struct Shown<'a> {
    counts: Sums,
    inaccurate: bool,
    reports: &'a [Report],
}

/// What the member shows; the total has no reports of its own.
fn shown_of<'a>(counted: &Counted<'a>, member: Member<'a>) -> Shown<'a>
    requires { sums_of counted.now.total
        ≡ languages_summary (languages_of counted.now.languages.now) }
    ensures { IsShown result (member_value (languages_of counted.now.languages.now) member.entry) }
{
    match member {
        Member::Total => Shown {
            counts: counted.total,
            inaccurate: counted.languages.is_inaccurate(),
            reports: &[],
        },
        Member::Language(language) => Shown {
            counts: Sums {
                blanks: language.blanks,
                code: language.code,
                comments: language.comments,
            },
            inaccurate: language.inaccurate,
            reports: language.reports.as_slice(),
        },
    }
}

/// The reports of each language, by its name.
fn reports_by_name<'a>(
    alloc: Global,
    counted: &Counted<'a>,
) -> Result<BTreeMap<&'a str, &'a Vec<Report>>, AllocError>
    ensures { IfOk result (λ m. children_members counted.now.table.now m.entries
        ≡ named_data counted.now.table.now (reports_data counted.now.table.now)
        (reports_by_language (languages_of counted.now.languages.now)) no_members) }
{
    let mut members = BTreeMap::new(alloc);
    for (language, value) in counted.languages.iter() {
        match members.insert(name_of(counted.table, *language), &value.reports) {
            Ok(_old) => {}
            Err(_refused) => return Err(AllocError),
        }
    }
    Ok(members)
}

/// The children of the member, by name; those of the total are the reports of all languages.
fn children_of<'a>(
    alloc: Global,
    counted: &Counted<'a>,
    member: Member<'a>,
) -> Result<BTreeMap<&'a str, &'a Vec<Report>>, AllocError>
    ensures { IfOk result (λ m. children_members counted.now.table.now m.entries
        ≡ named_data counted.now.table.now (reports_data counted.now.table.now)
        (member_value (languages_of counted.now.languages.now) member.entry).children
        no_members) }
{
    match member {
        Member::Total => reports_by_name(alloc, counted),
        Member::Language(language) => by_name(alloc, counted.table, language.children.iter()),
    }
}

/// Writes what is shown beside its children.
fn write_shown(
    alloc: Global,
    table: &LanguageTable,
    shown: Shown,
    children: &BTreeMap<&str, &Vec<Report>>,
    out: &mut Writer,
) -> Result<(), AllocError>
    ensures { OnOk result (IsWritten (language_object (sums_of shown.entry.counts)
        (object (children_members table.now children.now.entries)) shown.entry.inaccurate
        (reports_data table.now (map report_of shown.entry.reports.now))) out.old out.new) }
{
    out.begin_object()?;
    write_count(out, "blanks", shown.counts.blanks)?;
    out.key("children")?;
    write_children(alloc, table, children, out)?;
    write_count(out, "code", shown.counts.code)?;
    write_count(out, "comments", shown.counts.comments)?;
    out.key("inaccurate")?;
    out.boolean(shown.inaccurate)?;
    write_reports(alloc, table, "reports", shown.reports, out)?;
    out.end_object()
}

fn write_member(
    alloc: Global,
    counted: &Counted,
    name: &str,
    member: Member,
    out: &mut Writer,
) -> Result<(), AllocError>
    requires { sums_of counted.now.total
        ≡ languages_summary (languages_of counted.now.languages.now) }
    ensures { OnOk result (IsMember name.now (member_data counted.now.table.now
        (languages_of counted.now.languages.now) member.entry) out.old out.new) }
{
    out.key(name)?;
    let children = children_of(alloc, counted, member)?;
    write_shown(
        alloc,
        counted.table,
        shown_of(counted, member),
        &children,
        out,
    )
}

/// What stands under each name of the document.
fn members_of<'a>(
    alloc: Global,
    counted: &Counted<'a>,
) -> Result<BTreeMap<&'a str, Member<'a>>, AllocError>
    ensures { IfOk result (λ m.
        object (members_by (member_data counted.now.table.now
        (languages_of counted.now.languages.now)) (map (λ e. (e.0.now, e.1)) m.entries))
        ≡ document counted.now.table.now (languages_of counted.now.languages.now)) }
{
    let mut members = BTreeMap::new(alloc);
    for (language, value) in counted.languages.iter() {
        match members.insert(name_of(counted.table, *language), Member::Language(value)) {
            Ok(_old) => {}
            Err(_refused) => return Err(AllocError),
        }
    }
    match members.insert("Total", Member::Total) {
        Ok(_old) => Ok(members),
        Err(_refused) => Err(AllocError),
    }
}

fn write_document(
    alloc: Global,
    counted: &Counted,
    members: &BTreeMap<&str, Member>,
    out: &mut Writer,
) -> Result<(), AllocError>
    requires { sums_of counted.now.total
        ≡ languages_summary (languages_of counted.now.languages.now) }
    ensures { OnOk result (IsWritten (object (members_by (member_data counted.now.table.now
        (languages_of counted.now.languages.now)) (map (λ e. (e.0.now, e.1)) members.now.entries)))
        out.old out.new) }
{
    out.begin_object()?;
    for (name, member) in members {
        write_member(alloc, counted, *name, *member, out)?;
    }
    out.end_object()
}

fn document_text(alloc: Global, counted: &Counted) -> Result<String, AllocError>
    requires { sums_of counted.now.total
        ≡ languages_summary (languages_of counted.now.languages.now) }
    ensures text { IfOk result (λ s. string_bytes s
        ≡ compact_text (document counted.now.table.now (languages_of counted.now.languages.now))) }
    ensures reads_back { IfOk result (λ s.
        depth (document counted.now.table.now (languages_of counted.now.languages.now)) ≤ max_depth
        → read (string_bytes s)
        ≡ Some (document counted.now.table.now (languages_of counted.now.languages.now))) }
{
    let members = members_of(alloc, counted)?;
    let mut out = Writer::new(Vec::new(alloc));
    write_document(alloc, counted, &members, &mut out)?;
    Ok(text_of(out))
}

/// The compact text of `to_value`, which is made without a value of it. `Overflow` only where a
/// count of the total passes the greatest `usize`, or `Memory`.
pub fn to_text(
    alloc: Global,
    table: &LanguageTable,
    languages: &Languages,
) -> Result<String, CountError>
    ensures text { IfOk result (λ s. string_bytes s
        ≡ compact_text (document table.now (languages_of languages.now))) }
    ensures reads_back { IfOk result (λ s. depth (document table.now (languages_of languages.now))
        ≤ max_depth
        → read (string_bytes s) ≡ Some (document table.now (languages_of languages.now))) }
    ensures overflow { IsErrOf result CountError.Overflow
        → ¬ CountsFit (languages_summary (languages_of languages.now)) }
{
    let total = languages.summary_counts()?;
    let counted = Counted {
        table,
        languages,
        total,
    };
    let text = document_text(alloc, &counted)?;
    Ok(text)
}
