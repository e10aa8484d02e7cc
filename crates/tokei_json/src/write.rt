//! Languages as JSON values.
ghost use Rattle.std.specs.Prelude.{◌≡◌, IfOk, IsErrOf};
ghost use Rattle.serde_json.specs.Data.{no_members};
ghost use Rattle.serde_json.specs.View.{view, members_view};
ghost use Rattle.tokei_json.specs.Document.{reports_data, named_data, language_data, document};
ghost use Rattle.tokei_languages.specs.Seen.{language_of, languages_of};
ghost use Rattle.tokei_languages.specs.Summaries.{languages_summary, reports_by_language, total_of};
ghost use Rattle.tokei_stats.specs.Overflow.{CountsFit};
ghost use Rattle.tokei_stats.specs.Seen.{sums_of};

use crate::counted_objects::language_object;
use crate::reports::{children_value, put_named, reports_value};
use serde_json::{Map, Value, put};
use std::alloc::{AllocError, Global};
use tokei_languages::{Language, Languages};
use tokei_stats::{CountError, Sums};
use tokei_table::LanguageTable;

fn language_value(
    alloc: Global,
    table: &LanguageTable,
    language: &Language,
) -> Result<Value, AllocError>
    ensures { IfOk result (λ v. view v ≡ language_data table.now (language_of language.now)) }
{
    let counts = Sums {
        blanks: language.blanks,
        code: language.code,
        comments: language.comments,
    };
    let children = children_value(alloc, table, &language.children)?;
    let reports = reports_value(alloc, table, &language.reports)?;
    language_object(alloc, counts, children, language.inaccurate, reports)
}

fn languages_value(
    alloc: Global,
    table: &LanguageTable,
    languages: &Languages,
) -> Result<Map<String, Value>, AllocError>
    ensures { IfOk result (λ m. members_view m.entries
        ≡ named_data table.now (language_data table.now) (languages_of languages.now) no_members) }
{
    let mut members = Map::new(alloc);
    for (language, value) in languages.iter() {
        let value = language_value(alloc, table, value);
        put_named(&mut members, alloc, table, *language, value)?;
    }
    Ok(members)
}

/// The reports of each language, by its name.
fn reports_by_language_value(
    alloc: Global,
    table: &LanguageTable,
    languages: &Languages,
) -> Result<Map<String, Value>, AllocError>
    ensures { IfOk result (λ m. members_view m.entries
        ≡ named_data table.now (reports_data table.now)
        (reports_by_language (languages_of languages.now)) no_members) }
{
    let mut members = Map::new(alloc);
    for (language, value) in languages.iter() {
        let value = reports_value(alloc, table, &value.reports);
        put_named(&mut members, alloc, table, *language, value)?;
    }
    Ok(members)
}

/// The total with these counts.
fn total_value(
    alloc: Global,
    table: &LanguageTable,
    languages: &Languages,
    counts: Sums,
) -> Result<Value, AllocError>
    requires { sums_of counts ≡ languages_summary (languages_of languages.now) }
    ensures { IfOk result (λ v. view v
        ≡ language_data table.now (total_of (languages_of languages.now))) }
{
    let children = reports_by_language_value(alloc, table, languages)?;
    let reports = Value::Array(Vec::new(alloc));
    language_object(alloc, counts, children, languages.is_inaccurate(), reports)
}

/// The languages by name beside their total, members in byte order; a language that isn't of the
/// table has an empty name. `Overflow` only where a count of the total passes the greatest `usize`,
/// or `Memory`.
pub fn to_value(
    alloc: Global,
    table: &LanguageTable,
    languages: &Languages,
) -> Result<Value, CountError>
    ensures value { IfOk result (λ v. view v ≡ document table.now (languages_of languages.now)) }
    ensures overflow { IsErrOf result CountError.Overflow
        → ¬ CountsFit (languages_summary (languages_of languages.now)) }
{
    let counts = languages.summary_counts()?;
    let total = total_value(alloc, table, languages, counts)?;
    let mut members = languages_value(alloc, table, languages)?;
    put(&mut members, alloc, "Total", total)?;
    Ok(Value::Object(members))
}
