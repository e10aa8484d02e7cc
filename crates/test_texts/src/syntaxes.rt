//! Rows of what a table says of a language.
ghost use Rattle.std.specs.Prelude.{◌<◌, length};

use crate::asking::{NO_LANGUAGE, say_all};
use test_answers::{Answers, Members, Row, Said};
use tokei_table::{LanguageTable, LanguageType};

/// The members of these rows. A row says those of its language's members that it is about.
pub const MEMBERS: Members = Members {
    given: &["language", "table_json"],
    wanted: &[],
    optional: &[
        "place",
        "called",
        "kind",
        "is_html",
        "family",
        "is_literate",
        "allows_nested",
        "line_comments",
        "multi_line_comments",
        "nested_comments",
        "quotes",
        "verbatim_quotes",
        "doc_quotes",
        "shebangs",
        "extensions",
        "important_syntax",
        "openers",
        "debug",
    ],
    by_table: true,
};

/// Answers by what the language is: its name, its kind, whether it is literate or nested.
fn say_kind(table: &LanguageTable, language: LanguageType, answers: &mut Answers)
    requires { language < length table.now }
{
    let syntax = table.syntax(language);
    let all = [
        ("place", Said::Number(language.index() as u128)),
        ("called", Said::Text(language.name(table))),
        ("kind", Said::Text(syntax.kind.as_str())),
        ("is_html", Said::Flag(syntax.is_html())),
        ("is_literate", Said::Flag(language.is_literate(table))),
        ("allows_nested", Said::Flag(language.allows_nested(table))),
    ];
    say_all(&all, answers);
    answers.say_debug("family", &language.family(table));
}

/// Answers by the texts of the language, and by the pairs that open and close something in it.
fn say_texts(table: &LanguageTable, language: LanguageType, answers: &mut Answers)
    requires { language < length table.now }
{
    let all = [
        ("multi_line_comments", language.multi_line_comments(table)),
        ("nested_comments", language.nested_comments(table)),
        ("quotes", language.quotes(table)),
        ("verbatim_quotes", language.verbatim_quotes(table)),
        ("doc_quotes", language.doc_quotes(table)),
    ];
    for (member, pairs) in &all {
        answers.say(*member, Said::Pairs(*pairs));
    }
    answers.say("line_comments", Said::Texts(language.line_comments(table)));
    answers.say("shebangs", Said::Texts(language.shebangs(table)));
    answers.say_debug("debug", &language);
}

/// Answers by the texts that are made of those of the language.
fn say_made(table: &LanguageTable, language: LanguageType, answers: &mut Answers)
    requires { language < length table.now }
{
    if let Some(important) = answers.got(language.important_syntax(answers.alloc, table)) {
        answers.say("important_syntax", Said::Texts(&important));
    }
    if let Some(openers) = answers.got(language.openers(answers.alloc, table)) {
        answers.say("openers", Said::Texts(&openers));
    }
}

/// Answers by the extensions that the list of all languages has for one.
fn say_listed(table: &LanguageTable, wanted: LanguageType, answers: &mut Answers) {
    if let Some(list) = answers.got(LanguageType::list(answers.alloc, table)) {
        for (language, extensions) in &list {
            if *language == wanted {
                answers.say("extensions", Said::Texts(extensions));
            }
        }
    }
}

/// What the calls answer.
pub fn came(table: &LanguageTable, row: &Row, answers: &mut Answers) {
    match LanguageType::from_name(table, answers.text(row, "language")) {
        Some(language) => {
            say_kind(table, language, answers);
            say_texts(table, language, answers);
            say_made(table, language, answers);
            say_listed(table, language, answers);
        }
        None => answers.fail(NO_LANGUAGE),
    }
}
