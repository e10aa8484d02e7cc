//! Rows of configuration files: what they make of a run, and which languages gain extensions.
use std::alloc::AllocError;
use test_answers::{Answers, Asked, Members, Row, RowError, Said};
use test_trees::configurations::gains;
use test_trees::folders_of;
use tokei::{Config, ConfigDirs, LanguageConfig, LanguageTable, LanguageType};
use tokei_memory::FailingFolders;

/// The members of these rows. `configuration` has all members of a configuration as its `Debug`
/// shows them; `languages` and `language` tell how many languages the table has by the
/// configuration, and the one of an `extension`.
pub const MEMBERS: Members = Members {
    given: &[
        "files",
        "files_hex",
        "table_json",
        "extension",
        "calls",
        "adds",
        "default",
    ],
    wanted: &[
        "configuration",
        "languages",
        "language",
        "error",
        "new_language_adds",
    ],
    optional: &[],
    by_table: false,
};

/// The three folders of a user.
fn dirs(answers: &mut Answers) -> ConfigDirs {
    ConfigDirs {
        config: Some(answers.string("/home/me/.config")),
        home: Some(answers.string("/home/me/")),
        current: Some(answers.string(".")),
    }
}

/// The configuration of a user who has a row's files, where the folders fail behind so many calls.
fn read(
    table: &LanguageTable,
    row: &Row,
    calls: u64,
    answers: &mut Answers,
) -> Result<Config, AllocError> {
    let mut folders = FailingFolders::new(folders_of(row, answers), calls);
    let dirs = dirs(answers);
    Config::from_config_files(answers.alloc, table, &mut folders, &dirs)
}

/// The configuration of a row's files; none where it is refused, which is answered where the
/// folders fail behind so many `calls`.
fn config_of_files(table: &LanguageTable, row: &Row, answers: &mut Answers) -> Option<Config> {
    let calls = answers.number_if(row, "calls");
    match read(table, row, calls.unwrap_or(u64::MAX), answers) {
        Ok(config) => Some(config),
        Err(_) => {
            if calls.is_some() {
                answers.say("error", Said::Text("out of memory"));
            } else {
                answers.fail(RowError::Memory);
            }
            None
        }
    }
}

/// A configuration made by hand, by which languages gain extensions.
fn made_by_hand(table: &LanguageTable, adds: &Row, answers: &mut Answers) -> Config {
    let mut config = Config::default();
    config.languages = Some(gains(table, adds, "adds", answers));
    config
}

/// Answers how many extensions a new language adds.
fn say_new(answers: &mut Answers) {
    let new = LanguageConfig::new(answers.alloc);
    answers.say(
        "new_language_adds",
        Said::Number(new.extensions.len() as u128),
    );
}

/// The configuration that a row has: one made by hand, the default one, or that of its files.
fn config_of(table: &LanguageTable, row: &Row, answers: &mut Answers) -> Option<Config> {
    if let Some(adds) = answers.table_if(row, "adds") {
        Some(made_by_hand(table, &adds, answers))
    } else if answers.flag(row, "default") {
        say_new(answers);
        Some(Config::default())
    } else {
        config_of_files(table, row, answers)
    }
}

/// Answers how many languages the table has by a configuration, and the one of an extension.
fn say_language(table: &LanguageTable, config: &Config, extension: &str, answers: &mut Answers) {
    if let Some(extended) = answers.got(config.extended_table(answers.alloc, table)) {
        answers.say("languages", Said::Number(extended.len() as u128));
        if let Some(language) = LanguageType::from_file_extension(&extended, extension) {
            if extended.has(language) {
                answers.say("language", Said::Text(language.key(&extended)));
            }
        }
    }
}

/// What a configuration makes of the table, or all its members.
pub fn came(asked: &Asked, row: &Row, answers: &mut Answers) {
    if let Some(table) = answers.got(asked.table()) {
        if let Some(config) = config_of(table, row, answers) {
            match answers.text_if(row, "extension") {
                Some(extension) => say_language(table, &config, extension, answers),
                None => answers.say_debug("configuration", &config),
            }
        }
    }
}
