//! Tables in which languages gain extensions.
use test_answers::{Answers, Row, RowError};
use tokei_table::{LanguageTable, LanguageType};

/// A language, and the extensions that it gains.
type Gain = (LanguageType, Vec<String>);

/// Puts what one table of a row's `gains` adds.
fn put_gain(table: &LanguageTable, row: &Row, gains: &mut Vec<Gain>, answers: &mut Answers) {
    answers.only(row, "gains", &["language", "extensions"]);
    match LanguageType::from_name(table, answers.text(row, "language")) {
        Some(language) => {
            let extensions = answers.strings(row, "extensions");
            answers.done(gains.push((language, extensions)));
        }
        None => answers.fail(RowError::Words("the table hasn't a language that gains")),
    }
}

/// The table in which languages gain these.
fn extended(table: &LanguageTable, gains: &[Gain], answers: &mut Answers) -> Option<LanguageTable> {
    let mut more = Vec::new(answers.alloc);
    for (language, extensions) in gains {
        match more.push((*language, extensions.as_slice())) {
            Ok(()) => {}
            Err(_) => answers.fail(RowError::Memory),
        }
    }
    answers.got(table.extended(answers.alloc, &more))
}

/// The table in which languages gain what a row says: a list of tables with `language` and
/// `extensions`.
pub fn gained(table: &LanguageTable, row: &Row, answers: &mut Answers) -> Option<LanguageTable> {
    let mut gains = Vec::new(answers.alloc);
    for value in answers.list(row, "gains") {
        if let Some(gain) = answers.inner(row, "gains", value) {
            put_gain(table, &gain, &mut gains, answers);
        }
    }
    extended(table, &gains, answers)
}
