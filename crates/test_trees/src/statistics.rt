//! Rows of what trees in memory count.
use crate::configurations::configuration;
use crate::folders::{folders_of, roots};
use crate::given_languages::given;
use crate::shown_languages::say_languages;
use test_answers::{Answers, Members, Row, Said};
use tokei_config::Config;
use tokei_languages::Languages;
use tokei_memory::MemoryFolders;
use tokei_statistics::CountFiles;
use tokei_table::LanguageTable;

/// The members of these rows: a tree, roots, excludes, a configuration, the languages that are
/// there before, and how many `runs` there are. `counted` are the languages behind them, `notes`
/// how many notes the last run leaves.
pub const MEMBERS: Members = Members {
    given: &[
        "table_json",
        "files",
        "files_hex",
        "unread",
        "headless",
        "unlisted",
        "roots",
        "excludes",
        "types",
        "switches",
        "extensions",
        "doc_strings_are_comments",
        "languages",
        "runs",
    ],
    wanted: &["counted"],
    optional: &["notes"],
    by_table: true,
};

/// What is counted: a tree, and how.
#[derive(Drop)]
pub struct Tree {
    pub folders: MemoryFolders,
    pub roots: Vec<String>,
    pub excludes: Vec<String>,
    pub config: Config,
}

/// Counts the files below the roots once; how many notes that leaves.
pub fn run(
    table: &LanguageTable,
    tree: &mut Tree,
    languages: &mut Languages,
    answers: &mut Answers,
) -> usize {
    let (roots, excludes) = (tree.roots.as_slice(), tree.excludes.as_slice());
    let config = &tree.config;
    let notes = languages.get_statistics(table, &mut tree.folders, roots, excludes, config);
    match answers.got(notes) {
        Some(notes) => notes.len(),
        None => 0,
    }
}

/// Adds what a row has counted to languages, and says how many notes the last run leaves.
fn count(table: &LanguageTable, row: &Row, languages: &mut Languages, answers: &mut Answers) {
    let runs = answers.number_if(row, "runs").unwrap_or(1);
    let mut tree = Tree {
        folders: folders_of(row, answers),
        roots: roots(row, answers),
        excludes: answers.strings(row, "excludes"),
        config: configuration(table, row, answers),
    };
    let mut notes = 0;
    for _ in 0..runs {
        notes = run(table, &mut tree, languages, answers);
    }
    answers.say("notes", Said::Number(notes as u128));
}

/// What the calls answer.
pub fn came(table: &LanguageTable, row: &Row, answers: &mut Answers) {
    let mut languages = given(table, row, "languages", answers);
    count(table, row, &mut languages, answers);
    say_languages("counted", table, &languages, answers);
}
