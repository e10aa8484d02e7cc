//! Rows of look-ups in a table.
use crate::gains::gained;
use std::str::from_utf8;
use test_answers::{Answers, Members, Row, RowError, Said};
use tokei_table::{LanguageTable, LanguageType, has_extension};

/// The members of these rows. `by` is what the text is looked up as; `found` is the key of the
/// language, or `none`.
pub const MEMBERS: Members = Members {
    given: &["by", "asked", "asked_hex", "table_json", "gains"],
    wanted: &["found", "has_extension"],
    optional: &[],
    by_table: true,
};

/// The key of a language that was found, or `none`.
pub fn key_of<'a>(table: &'a LanguageTable, found: Option<LanguageType>) -> &'a str {
    match found {
        Some(language) => if table.has(language) {
            language.key(table)
        } else {
            "not of the table"
        },
        None => "none",
    }
}

/// The language that a text finds.
fn found_by(
    table: &LanguageTable,
    by: &str,
    text: &str,
    answers: &mut Answers,
) -> Option<LanguageType> {
    match by {
        "name" => LanguageType::from_name(table, text),
        "word" => LanguageType::from_str(table, text),
        "media type" => LanguageType::from_mime(table, text),
        "extension" => LanguageType::from_file_extension(table, text),
        "file name" => {
            let found = LanguageType::from_file_name(answers.alloc, table, text);
            answers.read(found, None)
        }
        _ => {
            answers.fail(RowError::Words("nothing is looked up by that"));
            None
        }
    }
}

/// Says the key of the language that a row's bytes find.
fn look_up(table: &LanguageTable, by: &str, row: &Row, answers: &mut Answers) {
    let asked = answers.bytes(row, "asked", "asked_hex");
    let found = if by == "first line" {
        LanguageType::from_shebang_bytes(table, &asked)
    } else if let Ok(text) = from_utf8(&asked) {
        found_by(table, by, text, answers)
    } else {
        answers.fail(RowError::Words("the text that is looked up isn't UTF-8"));
        None
    };
    answers.say("found", Said::Text(key_of(table, found)));
}

/// What the calls answer, by a table in which languages may gain extensions.
pub fn came(table: &LanguageTable, row: &Row, answers: &mut Answers) {
    let by = answers.text(row, "by");
    if by == "no table" {
        let has = has_extension(answers.text(row, "asked"));
        answers.say("has_extension", Said::Flag(has));
    } else if row.has("gains") {
        if let Some(table) = gained(table, row, answers) {
            look_up(&table, by, row, answers);
        }
    } else {
        look_up(table, by, row, answers);
    }
}
