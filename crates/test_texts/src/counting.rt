//! Rows of the four calls that count a text, all of which have to tell the same.
use crate::asking::NO_LANGUAGE;
use crate::every_call::{agreed, told};
use crate::look_ups::key_of;
use crate::made::answers_of;
use test_answers::{Answers, Members, Page, Row, RowError, Said};
use tokei_count::Counter;
use tokei_options::CountConfig;
use tokei_stats::CodeStats;
use tokei_table::{LanguageTable, LanguageType};

/// The members of these rows. `counts` are the blank, code and comment lines; `blobs` those of the
/// texts inside it, by the key of their language, and of texts inside these by both keys, as
/// `"Markdown/Rust"`; `summary` all together.
pub const MEMBERS: Members = Members {
    given: &[
        "language",
        "text",
        "text_hex",
        "table_json",
        "table_file",
        "doc_strings_are_comments",
    ],
    wanted: &["counts", "blobs"],
    optional: &["steps", "summary", "lines"],
    by_table: true,
};

/// A text of a language, and how it is counted.
#[derive(Drop)]
struct Text<'a> {
    language: &'a str,
    config: CountConfig,
    text: &'a [u8],
}

/// Puts the lines of a text under the key of its language, and in brackets those of the texts
/// inside.
fn put_stats(stats: &CodeStats, table: &LanguageTable, key: &str, page: &mut Page) {
    page.put_counts(key, (stats.blanks, stats.code, stats.comments), " (");
    for (language, blob) in &stats.blobs {
        put_stats(blob, table, key_of(table, Some(*language)), page);
    }
    page.put(")\n");
}

/// What all calls tell of the beginning of a text, as one text.
fn told_by(counter: &Counter, text: &Text, beginning: &[u8], answers: &mut Answers) -> Page {
    let mut page = Page::new(answers.alloc);
    match LanguageType::from_name(counter.table(), text.language) {
        Some(language) => match agreed(answers.alloc, counter, language, beginning, &text.config) {
            Ok(Some((stats, _))) => put_stats(&stats, counter.table(), text.language, &mut page),
            Ok(None) => answers.fail(RowError::Words("two calls count otherwise")),
            Err(cause) => answers.fail(RowError::from(cause)),
        },
        None => answers.fail(NO_LANGUAGE),
    }
    page
}

/// Keeps that two tables tell otherwise of a beginning of a text, where they do.
fn compare(one: &Counter, other: &Counter, text: &Text, beginning: &[u8], answers: &mut Answers) {
    let one = told_by(one, text, beginning, answers);
    let other = told_by(other, text, beginning, answers);
    match (one.text(), other.text()) {
        (Some(one), Some(other)) => if one != other {
            answers.fail(RowError::Words(
                "the two tables tell otherwise of a beginning of the text",
            ));
        },
        _ => answers.fail(RowError::Memory),
    }
}

/// The same of each beginning; each table is made ready once.
fn compare_each(one: &LanguageTable, other: &LanguageTable, text: &Text, answers: &mut Answers) {
    if let Some(one) = answers.got(Counter::new(answers.alloc, one)) {
        if let Some(other) = answers.got(Counter::new(answers.alloc, other)) {
            for end in 0..text.text.len() {
                compare(&one, &other, text, &text.text[..end], answers);
            }
        }
    }
}

/// Answers by what all calls tell.
fn say(table: &LanguageTable, text: &Text, answers: &mut Answers) {
    let strings = text.config.treat_doc_strings_as_comments;
    match told(answers.alloc, table, text.language, strings, text.text) {
        Ok(Some((stats, steps))) => {
            answers.say("steps", Said::Number(steps));
            answers_of(table, &stats, answers);
        }
        Ok(None) => answers.fail(RowError::Words(
            "the table hasn't the language, or two calls count otherwise",
        )),
        Err(cause) => answers.fail(RowError::from(cause)),
    }
}

/// What the calls answer. Where the table isn't the bench table, both have to tell the same of each
/// beginning of the text too, but for the steps, which may be others.
pub fn came(
    table: &LanguageTable,
    bench: Option<&LanguageTable>,
    row: &Row,
    answers: &mut Answers,
) {
    let language = answers.text(row, "language");
    let strings = answers.flag_if(row, "doc_strings_are_comments");
    let bytes = answers.bytes(row, "text", "text_hex");
    let text = Text {
        language,
        config: CountConfig {
            treat_doc_strings_as_comments: strings,
        },
        text: &bytes,
    };
    if let Some(bench) = bench {
        answers.leave("steps");
        compare_each(bench, table, &text, answers);
    }
    say(table, &text, answers);
}
