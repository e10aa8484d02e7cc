//! Rows of texts that are tables of languages, or aren't, for each cause.
use crate::gains::gained;
use test_answers::{Answers, Members, Page, Row, RowError, Said};
use tokei_table::LanguageTable;
use tokei_table_json::{FromJson, TableError, TableFlaw};

/// The members of these rows. The text is `json`, or that of one language `X` with these `members`;
/// without both it is the bench table. Wanted is how many languages it has, or why it is refused;
/// `words` are those of the cause, which a row may name alone as `cause`, and `flaw` says where it
/// goes wrong, or is `none`.
pub const MEMBERS: Members = Members {
    given: &["json", "json_hex", "members", "gains", "cause"],
    wanted: &["languages", "error"],
    optional: &["words", "flaw"],
    by_table: true,
};

/// The answers that a text gives: how many languages it has, or why it is refused, and where it
/// goes wrong.
fn read(text: &[u8], answers: &mut Answers) {
    match LanguageTable::from_json(answers.alloc, text) {
        Ok(table) => answers.say("languages", Said::Number(table.len() as u128)),
        Err(TableError::Memory) => answers.fail(RowError::Memory),
        Err(cause) => {
            answers.say_debug("error", &cause);
            answers.say_shown("words", &cause);
            match TableFlaw::find(answers.alloc, text) {
                Ok(Some(flaw)) => answers.say_shown("flaw", &flaw),
                Ok(None) => answers.say("flaw", Said::Text("none")),
                Err(_) => answers.fail(RowError::Memory),
            }
        }
    }
}

/// The answers that a cause alone gives: its words.
fn words(name: &str, answers: &mut Answers) {
    let cause = match name {
        "NotJson" => TableError::NotJson,
        "Layout" => TableError::Layout,
        "Escape" => TableError::Escape,
        "Token" => TableError::Token,
        "NamedTwice" => TableError::NamedTwice,
        "NamedTotal" => TableError::NamedTotal,
        "Fallback" => TableError::Fallback,
        "Memory" => TableError::Memory,
        _ => {
            answers.fail(RowError::Words("there is no such cause"));
            return;
        }
    };
    answers.say_shown("words", &cause);
}

/// The answers that the table of one language gives.
fn read_members(members: &str, answers: &mut Answers) {
    let mut text = Page::new(answers.alloc);
    text.put_all(&["{\"languages\":{\"X\":{", members, "}}}"]);
    match text.text() {
        Some(text) => read(text.as_bytes(), answers),
        None => answers.fail(RowError::Memory),
    }
}

/// What the calls answer. In the bench table languages may gain extensions.
pub fn came(table: &LanguageTable, row: &Row, answers: &mut Answers) {
    if let Some(name) = answers.text_if(row, "cause") {
        words(name, answers);
    } else if let Some(members) = answers.text_if(row, "members") {
        read_members(members, answers);
    } else if row.has("json") || row.has("json_hex") {
        let text = answers.bytes(row, "json", "json_hex");
        read(&text, answers);
    } else if let Some(table) = gained(table, row, answers) {
        if !table.is_empty() {
            answers.say("languages", Said::Number(table.len() as u128));
        }
    }
}
