//! The law of documents, as the contract of a function that does nothing, and languages that are
//! written and read back.
ghost use Rattle.std.specs.Prelude.{◌≡◌, ◌≢◌, length, IfErr, IfOk};
ghost use Rattle.std.specs.List.Sorted.{IsStrictlySortedBy};
ghost use Rattle.std.specs.Map.{keys_of};
ghost use Rattle.std.specs.Ordering.{nat_cmp};
ghost use Rattle.tokei_json_laws.specs.InOrder.{LanguageIsInOrder, LanguagesAreInOrder, ListsAreInOrder, ReportsAreInOrder};
ghost use Rattle.tokei_json_laws.specs.Known.{LanguagesAreKnown};
ghost use Rattle.tokei_json_laws.specs.Levels.{LanguagesWithin};
ghost use Rattle.tokei_json_laws.specs.ReadingBack.{DocumentsReadBack};
ghost use Rattle.tokei_languages.specs.Seen.{children_of, language_of, languages_of, reports_of};

use std::alloc::Global;
use std::collections::BTreeMap;
use tokei_earlier::{Format, InputError, from_value};
use tokei_json::to_value;
use tokei_languages::{Language, Languages};
use tokei_stats::sum_laws::statistics_are_ordered;
use tokei_stats::{CountError, Report};
use tokei_table::{LanguageTable, LanguageType};

/// How many levels of blobs a text can hold that is read.
const MAX_LEVELS: usize = 60;

/// The document of a table's languages, in its order, is read as these languages.
pub fn documents_read_back()
    ensures { DocumentsReadBack }
{}

fn reports_are_in_order(reports: &Vec<Report>)
    ensures { ReportsAreInOrder (reports_of reports.now) }
{
    for report in reports {
        statistics_are_ordered(&report.stats);
    }
}

fn children_are_in_order(children: &BTreeMap<LanguageType, Vec<Report>>)
    ensures lists { ListsAreInOrder (children_of children.now.entries) }
    ensures keys { IsStrictlySortedBy nat_cmp (keys_of (children_of children.now.entries)) }
{
    for (_language, reports) in children.iter() {
        reports_are_in_order(reports);
    }
}

fn language_is_in_order(language: &Language)
    ensures { LanguageIsInOrder (language_of language.now) }
{
    reports_are_in_order(&language.reports);
    children_are_in_order(&language.children);
}

/// The languages of every value are in the table's order, at every depth.
pub fn languages_are_in_order(languages: &Languages)
    ensures { LanguagesAreInOrder (languages_of languages.now) }
{
    for (_language, value) in languages.iter() {
        language_is_in_order(value);
    }
}

/// Writes languages of the table as a value and reads it: they are the same. Refused for `Overflow`
/// or `Memory` alone.
pub fn written_and_read(
    alloc: Global,
    table: &LanguageTable,
    languages: &Languages,
) -> Result<Languages, InputError>
    requires { LanguagesAreKnown (length table.now) (languages_of languages.now) }
    ensures same { IfOk result (λ read. languages_of read ≡ languages_of languages.now) }
    ensures refused { IfErr result (λ e. e ≢ InputError.Memory → e ≡ InputError.Overflow) }
{
    let _count = table.len();
    languages_are_in_order(languages);
    match to_value(alloc, table, languages) {
        Ok(value) => from_value(alloc, table, &value),
        Err(CountError::Overflow) => Err(InputError::Overflow),
        Err(CountError::Memory) => Err(InputError::Memory),
    }
}

/// Prints languages of the table, in which no statistics hold more than 60 levels of blobs, and
/// reads the text: they are the same. Refused for `Overflow` or `Memory` alone.
pub fn printed_and_read(
    alloc: Global,
    table: &LanguageTable,
    languages: &Languages,
) -> Result<Languages, InputError>
    requires known { LanguagesAreKnown (length table.now) (languages_of languages.now) }
    requires shallow { LanguagesWithin MAX_LEVELS (languages_of languages.now) }
    ensures same { IfOk result (λ read. languages_of read ≡ languages_of languages.now) }
    ensures refused { IfErr result (λ e. e ≢ InputError.Memory → e ≡ InputError.Overflow) }
{
    let _count = table.len();
    languages_are_in_order(languages);
    match Format::Json.print(alloc, table, languages) {
        Ok(text) => Format::parse(alloc, table, text.as_str()),
        Err(CountError::Overflow) => Err(InputError::Overflow),
        Err(CountError::Memory) => Err(InputError::Memory),
    }
}
