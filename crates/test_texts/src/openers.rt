//! Rows of searches for the first opener in a text.
use crate::asking::NO_LANGUAGE;
use std::alloc::AllocError;
use test_answers::{Answers, Members, Row, RowError, Said};
use tokei_table::{LanguageTable, LanguageType};
use tokei_table_search::OpenerIndex;

/// The members of these rows. The openers are those of a language of the bench table, or a list of
/// texts. `first` is the place of the first opener in the text, or `none`, or `an empty opener`.
pub const MEMBERS: Members = Members {
    given: &["language", "openers", "text"],
    wanted: &["first"],
    optional: &[],
    by_table: true,
};

/// Answers by the first opener in a text.
fn say_first(index: Result<OpenerIndex, AllocError>, text: &str, answers: &mut Answers) {
    if let Some(index) = answers.got(index) {
        answers.say("first", Said::Place(index.first_in(text.as_bytes())));
    }
}

/// The answers for the openers of a language.
fn of_language(table: &LanguageTable, key: &str, text: &str, answers: &mut Answers) {
    match LanguageType::from_name(table, key) {
        Some(language) => match language.openers(answers.alloc, table) {
            Ok(openers) => say_first(OpenerIndex::of_texts(answers.alloc, openers), text, answers),
            Err(_) => answers.fail(RowError::Memory),
        },
        None => answers.fail(NO_LANGUAGE),
    }
}

/// The answers for a list of openers.
fn of_texts(row: &Row, text: &str, answers: &mut Answers) {
    let openers = answers.texts(row, "openers");
    if OpenerIndex::are_nonempty(&openers) {
        say_first(OpenerIndex::new(answers.alloc, &openers), text, answers);
    } else {
        answers.say("first", Said::Text("an empty opener"));
    }
}

/// What the calls answer: for the openers of a language where a row names one.
pub fn came(table: &LanguageTable, row: &Row, answers: &mut Answers) {
    let text = answers.text(row, "text");
    match answers.text_if(row, "language") {
        Some(key) => of_language(table, key, text, answers),
        None => of_texts(row, text, answers),
    }
}
