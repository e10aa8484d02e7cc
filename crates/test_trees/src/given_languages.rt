//! Languages as rows tell them: each by its key or name, with its counts, its reports, and those of
//! the languages inside it.
use test_answers::{Answers, Row, RowError, put_blobs};
use tokei_languages::{Language, Languages};
use tokei_stats::Report;
use tokei_table::{LanguageTable, LanguageType};

/// The members of a language.
static MEMBERS: [&str; 5] = ["name", "counts", "inaccurate", "reports", "children"];

/// Why a row can't be asked whose table hasn't a language that it names.
pub const NO_LANGUAGE: RowError = RowError::Kind("name", "a language of the table");

/// The language of that key or name.
pub fn named(table: &LanguageTable, name: &str, answers: &mut Answers) -> Option<LanguageType> {
    let language = LanguageType::from_name(table, name);
    if language.is_none() {
        answers.fail(NO_LANGUAGE);
    }
    language
}

/// The counts of a row; none where they are left out.
fn counts(row: &Row, answers: &mut Answers) -> (usize, usize, usize) {
    if row.has("counts") {
        answers.three(row, "counts")
    } else {
        (0, 0, 0)
    }
}

/// The report that a row tells.
pub fn report(table: &LanguageTable, row: &Row, answers: &mut Answers) -> Report {
    answers.only(row, "reports", &["language", "name", "counts", "blobs"]);
    let name = answers.text(row, "name");
    let name = answers.string(name);
    let mut report = Report::new(answers.alloc, name);
    let stats = &mut report.stats;
    (stats.blanks, stats.code, stats.comments) = counts(row, answers);
    if let Some(blobs) = answers.table_if(row, "blobs") {
        put_blobs(table, &blobs, stats, answers);
    }
    report
}

/// The reports that a row tells.
fn reports(table: &LanguageTable, row: &Row, answers: &mut Answers) -> Vec<Report> {
    let mut reports = Vec::new(answers.alloc);
    for value in answers.list(row, "reports") {
        if let Some(told) = answers.inner(row, "reports", value) {
            let report = report(table, &told, answers);
            answers.done(reports.push(report));
        }
    }
    reports
}

/// Adds the reports that a row tells.
fn add_reports(table: &LanguageTable, row: &Row, language: &mut Language, answers: &mut Answers) {
    for value in answers.list(row, "reports") {
        if let Some(told) = answers.inner(row, "reports", value) {
            let report = report(table, &told, answers);
            answers.done(language.add_report(report));
        }
    }
}

/// Puts the reports of the languages inside a language.
fn put_children(table: &LanguageTable, row: &Row, language: &mut Language, answers: &mut Answers) {
    for value in answers.list(row, "children") {
        if let Some(told) = answers.inner(row, "children", value) {
            answers.only(&told, "children", &["language", "reports"]);
            let name = answers.text(&told, "language");
            if let Some(inside) = named(table, name, answers) {
                let reports = reports(table, &told, answers);
                answers.done(language.children.insert(inside, reports));
            }
        }
    }
}

/// Puts the language that a row tells.
fn put(table: &LanguageTable, row: &Row, languages: &mut Languages, answers: &mut Answers) {
    answers.only(row, "languages", &MEMBERS);
    let name = answers.text(row, "name");
    if let Some(name) = named(table, name, answers) {
        let mut language = Language::new(answers.alloc);
        add_reports(table, row, &mut language, answers);
        put_children(table, row, &mut language, answers);
        (language.blanks, language.code, language.comments) = counts(row, answers);
        language.inaccurate = answers.flag(row, "inaccurate");
        answers.done(languages.insert(name, language));
    }
}

/// The languages of a member; none where it is left out.
pub fn given(
    table: &LanguageTable,
    row: &Row,
    member: &'static str,
    answers: &mut Answers,
) -> Languages {
    let mut languages = Languages::new(answers.alloc);
    for value in answers.list(row, member) {
        if let Some(told) = answers.inner(row, member, value) {
            put(table, &told, &mut languages, answers);
        }
    }
    languages
}
