//! Rows of one file: its report, or the language of its path or of its head.
use crate::configurations::configuration;
use crate::folders::folders_of;
use crate::given_languages::NO_LANGUAGE;
use crate::shown_languages::put_stats;
use test_answers::{Answers, Members, Page, Row, RowError, Said};
use tokei_count::Counter;
use tokei_files::{ParseFault, from_path, from_shebang, parse_file};
use tokei_languages::name_of;
use tokei_memory::MemoryFolders;
use tokei_stats::Report;
use tokei_table::{LanguageTable, LanguageType};

/// The members of these rows: a tree and a configuration, and of the file at a path its report in a
/// `language`, where that is told, or its language by its path, or by its head alone. `report` is
/// that report, `back` the path that comes back with an `error`, and `found` the language, where
/// one is found.
pub const MEMBERS: Members = Members {
    given: &[
        "table_json",
        "files",
        "files_hex",
        "unread",
        "headless",
        "unlisted",
        "path",
        "language",
        "head_alone",
        "types",
        "switches",
        "extensions",
        "doc_strings_are_comments",
    ],
    wanted: &["report", "found", "error", "back"],
    optional: &[],
    by_table: true,
};

/// Says the report of a file, or why it has none.
fn say_parsed(
    table: &LanguageTable,
    parsed: Result<Report, (ParseFault, String)>,
    answers: &mut Answers,
) {
    match parsed {
        Ok(report) => {
            let mut page = Page::new(answers.alloc);
            put_stats(&report.stats, table, 0, report.name.as_str(), &mut page);
            answers.say_page("report", &page);
        }
        Err((fault, path)) => {
            if fault == ParseFault::Memory {
                answers.fail(RowError::Memory);
            } else {
                answers.say_shown("error", &fault);
                answers.say("back", Said::Text(path.as_str()));
            }
        }
    }
}

/// What the file at a path is counted as in the row's language.
fn came_of_report(
    table: &LanguageTable,
    row: &Row,
    path: &str,
    folders: &mut MemoryFolders,
    answers: &mut Answers,
) {
    let Some(language) = LanguageType::from_name(table, answers.text(row, "language")) else {
        return answers.fail(NO_LANGUAGE);
    };
    match Counter::new(answers.alloc, table) {
        Ok(counter) => {
            let path = answers.string(path);
            let config = configuration(table, row, answers);
            let parsed = parse_file(answers.alloc, &counter, language, folders, path, &config);
            say_parsed(table, parsed, answers);
        }
        Err(_) => answers.fail(RowError::Memory),
    }
}

/// The word for the language that was found, where one was.
fn word(table: &LanguageTable, found: Option<LanguageType>) -> &str {
    match found {
        Some(language) => name_of(table, language),
        None => "no language",
    }
}

/// Says the language of a path, or of the head alone of the file there, where it has one.
fn say_language(
    table: &LanguageTable,
    row: &Row,
    path: &str,
    folders: &mut MemoryFolders,
    answers: &mut Answers,
) {
    let alloc = answers.alloc;
    let found = if answers.flag(row, "head_alone") {
        from_shebang(alloc, table, folders, path)
    } else {
        let config = configuration(table, row, answers);
        from_path(alloc, table, folders, path, &config)
    };
    let found = answers.read(found, None);
    answers.say("found", Said::Text(word(table, found)));
}

/// What the calls answer.
pub fn came(table: &LanguageTable, row: &Row, answers: &mut Answers) {
    let mut folders = folders_of(row, answers);
    let path = answers.text(row, "path");
    if row.has("language") {
        came_of_report(table, row, path, &mut folders, answers);
    } else {
        say_language(table, row, path, &mut folders, answers);
    }
}
