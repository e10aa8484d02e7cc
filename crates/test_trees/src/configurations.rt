//! Configurations of counting, as rows tell them.
use crate::given_languages::named;
use std::collections::BTreeMap;
use test_answers::{Answers, Row, RowError};
use tokei_config::{Config, LanguageConfig};
use tokei_table::{LanguageTable, LanguageType};

/// A configuration in which the switches of the row are on, and the others off.
fn switched(row: &Row, answers: &mut Answers) -> Config {
    let mut config = Config::new();
    config.treat_doc_strings_as_comments = answers.flag_if(row, "doc_strings_are_comments");
    config.hidden = Some(false);
    config.no_ignore = Some(false);
    config.no_ignore_parent = Some(false);
    config.no_ignore_dot = Some(false);
    config.no_ignore_vcs = Some(false);
    for value in answers.list(row, "switches") {
        match answers.text_of("switches", value) {
            "hidden" => config.hidden = Some(true),
            "no_ignore" => config.no_ignore = Some(true),
            "no_ignore_parent" => config.no_ignore_parent = Some(true),
            "no_ignore_dot" => config.no_ignore_dot = Some(true),
            "no_ignore_vcs" => config.no_ignore_vcs = Some(true),
            _ => answers.fail(RowError::Kind("switches", "a list of switches")),
        }
    }
    config
}

/// The languages that are counted alone.
fn types(table: &LanguageTable, row: &Row, answers: &mut Answers) -> Vec<LanguageType> {
    let mut types = Vec::new(answers.alloc);
    for value in answers.list(row, "types") {
        let name = answers.text_of("types", value);
        if let Some(language) = named(table, name, answers) {
            answers.done(types.push(language));
        }
    }
    types
}

/// The extensions that languages gain, as a table in a member tells them.
pub fn gains(
    table: &LanguageTable,
    told: &Row,
    member: &'static str,
    answers: &mut Answers,
) -> BTreeMap<LanguageType, LanguageConfig> {
    let mut languages = BTreeMap::new(answers.alloc);
    for (name, value) in told.members {
        if let Some(language) = named(table, name.as_str(), answers) {
            let mut gained = LanguageConfig::new(answers.alloc);
            gained.extensions(answers.strings_of(member, value));
            answers.done(languages.insert(language, gained));
        }
    }
    languages
}

/// The configuration of a row: its `switches`, the `types` that are counted alone, the `extensions`
/// that languages gain, and whether `doc_strings_are_comments`.
pub fn configuration(table: &LanguageTable, row: &Row, answers: &mut Answers) -> Config {
    let mut config = switched(row, answers);
    if row.has("types") {
        config.types = Some(types(table, row, answers));
    }
    if let Some(told) = answers.table_if(row, "extensions") {
        config.languages = Some(gains(table, &told, "extensions", answers));
    }
    config
}
