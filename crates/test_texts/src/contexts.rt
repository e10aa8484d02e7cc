//! Rows of the debug texts of rules by which a text of another language opens, and of such a text.
use crate::asking::NO_LANGUAGE;
use crate::made::stats_of;
use test_answers::{Answers, Members, Row, RowError};
use tokei_count::{FileContext, LanguageContext};
use tokei_table::{LanguageTable, LanguageType};

/// The members of these rows: a rule and its members, and where a text inside is shown too where it
/// ends and its statistics.
pub const MEMBERS: Members = Members {
    given: &[
        "rule",
        "language",
        "balanced",
        "table_json",
        "end",
        "counts",
        "blobs",
    ],
    wanted: &["debug"],
    optional: &[],
    by_table: true,
};

/// What the calls answer.
pub fn came(table: &LanguageTable, row: &Row, answers: &mut Answers) {
    let name = answers.text(row, "rule");
    let balanced = answers.flag(row, "balanced");
    let language = answers.text(row, "language");
    let Some(language) = LanguageType::from_name(table, language) else {
        return answers.fail(NO_LANGUAGE);
    };
    let rule = match name {
        "Html" => LanguageContext::Html { language },
        "LinguaFranca" => LanguageContext::LinguaFranca,
        "Markdown" => LanguageContext::Markdown { balanced, language },
        "Rust" => LanguageContext::Rust,
        _ => return answers.fail(RowError::Words("there is no such rule")),
    };
    if row.has("end") {
        let stats = stats_of(table, row, answers);
        let end = answers.place(row, "end");
        answers.say_debug("debug", &FileContext::new(rule, end, stats));
    } else {
        answers.say_debug("debug", &rule);
    }
}
