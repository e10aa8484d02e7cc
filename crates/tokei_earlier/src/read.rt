//! The languages of a document that has its layout.
ghost use Rattle.std.specs.Prelude.{◌≡◌, [], IfOk, OnOk, IfErr};
ghost use Rattle.json.specs.Value.{value_view, members_view};
ghost use Rattle.tokei_earlier.specs.Reading.{put_named, language_in, with_languages, languages_in};
ghost use Rattle.tokei_json.specs.LanguageMaps.{language_named};
ghost use Rattle.tokei_languages.specs.Seen.{language_of, languages_of};
ghost use Rattle.tokei_json_tree.specs.Ordered.{IsOrdered, AreMembersOrdered};
ghost use Rattle.tokei_json_tree.specs.TreeData.{data_of, members_data};

use crate::reading::{children_in, count_in, reports_in, truth_in};
use json::Value;
use std::alloc::{AllocError, Global};
use tokei_json::NamedTable;
use tokei_json_tree::{Tree, TreeMembers, member};
use tokei_languages::{Language, Languages};
use tokei_stats::CountError;

#[tactic(auto, unfolding(crate::specs::Reading::language_in, crate::specs::ReadReports::counts_in))]
fn language_in(alloc: Global, table: &NamedTable, value: &Tree<'_>) -> Result<Language, AllocError>
    requires { IsOrdered (value_view value.now) }
    ensures { IfOk result
        (λ l. language_of l ≡ language_in table.now (data_of (value_view value.now))) }
{
    let reports = reports_in(alloc, table, member(value, "reports"))?;
    let children = children_in(alloc, table, member(value, "children"))?;
    let mut language = Language::new(alloc);
    language.blanks = count_in(member(value, "blanks"));
    language.code = count_in(member(value, "code"));
    language.comments = count_in(member(value, "comments"));
    language.reports = reports;
    language.children = children;
    language.inaccurate = truth_in(member(value, "inaccurate"));
    Ok(language)
}

/// Puts the language of a member, where its name is one's; others, as `Total`, aren't read.
fn put_language(
    alloc: Global,
    table: &NamedTable,
    languages: &mut Languages,
    name: &str,
    value: &Tree<'_>,
) -> Result<(), CountError>
    requires { IsOrdered (value_view value.now) }
    ensures ok { OnOk result (languages_of languages.new
        ≡ put_named (language_named table.now name.now) (languages_of languages.old)
        (language_in table.now (data_of (value_view value.now)))) }
    ensures memory { IfErr result (λ e. e ≡ CountError.Memory) }
{
    if let Some(language) = table.language(name) {
        let value = language_in(alloc, table, value)?;
        drop(languages.insert(language, value)?);
    }
    Ok(())
}

fn with_languages(
    alloc: Global,
    table: &NamedTable,
    members: &TreeMembers<'_>,
) -> Result<Languages, CountError>
    requires { AreMembersOrdered (members_view members.now.items) }
    ensures ok { IfOk result (λ ls. languages_of ls
        ≡ with_languages table.now (members_data (members_view members.now.items)) []) }
    ensures memory { IfErr result (λ e. e ≡ CountError.Memory) }
{
    let mut languages = Languages::new(alloc);
    for member in members {
        put_language(alloc, table, &mut languages, member.0, &member.1)?;
    }
    Ok(languages)
}

/// The languages of the document, by the names that the table knows. It fails where memory runs
/// out.
pub(crate) fn languages_in(
    alloc: Global,
    table: &NamedTable,
    value: &Tree<'_>,
) -> Result<Languages, CountError>
    requires { IsOrdered (value_view value.now) }
    ensures ok { IfOk result
        (λ ls. languages_of ls ≡ languages_in table.now (data_of (value_view value.now))) }
    ensures memory { IfErr result (λ e. e ≡ CountError.Memory) }
{
    match value {
        Value::Object(members) => with_languages(alloc, table, members),
        _ => Ok(Languages::new(alloc)),
    }
}
