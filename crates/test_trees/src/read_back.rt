//! Rows of documents that are read back: what trees count, and languages that a row has.
use crate::folders::folders_of;
use crate::given_languages::given;
use crate::statistics::{Tree, run};
use test_answers::{Answers, Members, Row, RowError, Said};
use tokei_config::Config;
use tokei_earlier::{Format, InputError};
use tokei_languages::Languages;
use tokei_table::LanguageTable;

/// The members of these rows. A row has a tree, and how many reports there are of it; or languages.
pub const MEMBERS: Members = Members {
    given: &[
        "files",
        "files_hex",
        "unread",
        "root",
        "exclude",
        "languages",
    ],
    wanted: &[
        "reports",
        "reports_by_git_alone",
        "reports_of_all_files",
        "is_read_back",
    ],
    optional: &[],
    by_table: true,
};

/// Whether what is printed of the languages is read back as the same languages.
fn is_read_back(table: &LanguageTable, languages: &Languages, answers: &mut Answers) -> bool {
    let Some(text) = answers.got(Format::Json.print(answers.alloc, table, languages)) else {
        return false;
    };
    match Format::parse(answers.alloc, table, text.as_str()) {
        Ok(read) => read == *languages,
        Err(InputError::Memory) => {
            answers.fail(RowError::Memory);
            false
        }
        Err(_) => false,
    }
}

/// A list of the text of a member, or of another one where the row hasn't the member.
fn one(row: &Row, member: &'static str, other: &str, answers: &mut Answers) -> Vec<String> {
    let text = answers.text_if(row, member).unwrap_or(other);
    answers.one_string(text)
}

/// How many reports there are.
fn reports(languages: &Languages) -> usize {
    let mut reports: usize = 0;
    for (_, language) in languages.iter() {
        reports = reports.saturating_add(language.reports.len());
    }
    reports
}

/// Answers how many reports the languages of a tree have, which have to be read back.
fn say_reports(
    member: &'static str,
    table: &LanguageTable,
    tree: &mut Tree,
    answers: &mut Answers,
) {
    let mut languages = Languages::new(answers.alloc);
    let _notes = run(table, tree, &mut languages, answers);
    if !is_read_back(table, &languages, answers) {
        answers.fail(RowError::Kind("files", "a tree whose document is read back"));
    }
    answers.say(member, Said::Number(reports(&languages) as u128));
}

/// Answers how many reports there are of a row's tree: where all ignore files are obeyed, where
/// only those of git are, and where none is and names that begin with a dot are counted.
fn came_of_tree(table: &LanguageTable, row: &Row, answers: &mut Answers) {
    let mut tree = Tree {
        folders: folders_of(row, answers),
        roots: one(row, "root", ".", answers),
        excludes: one(row, "exclude", "", answers),
        config: Config::new(),
    };
    say_reports("reports", table, &mut tree, answers);
    tree.config.no_ignore_dot = Some(true);
    say_reports("reports_by_git_alone", table, &mut tree, answers);
    tree.config.no_ignore_dot = None;
    tree.config.no_ignore = Some(true);
    tree.config.hidden = Some(true);
    say_reports("reports_of_all_files", table, &mut tree, answers);
}

/// What is answered of a row's tree, or of its languages.
pub fn came(table: &LanguageTable, row: &Row, answers: &mut Answers) {
    if row.has("languages") {
        let languages = given(table, row, "languages", answers);
        let is_read_back = is_read_back(table, &languages, answers);
        answers.say("is_read_back", Said::Flag(is_read_back));
    } else {
        came_of_tree(table, row, answers);
    }
}
