//! Rows of command lines, and what they answer.
use crate::program_rows::taken::taken;
use test_answers::{Answers, Members, Row, RowError, Said};
use tokei_cli::{Cli, CliError, HELP, VERSION_LINE, command, crate_version};

/// The members of these rows. Words that are taken have `members`, `readers` or `options`; those
/// that are refused, or ask for a text, a `status`.
pub const MEMBERS: Members = Members {
    given: &["words"],
    wanted: &[
        "status",
        "refused",
        "text",
        "text_has",
        "text_is",
        "parser_text_is",
        "crate_version",
        "members",
        "readers",
        "options",
    ],
    optional: &[],
    by_table: false,
};

/// Whether the text of an error names its cause and says where help is.
fn is_error_text(text: &str) -> bool {
    text.starts_with("error: ") && text.contains("For more information, try '--help'.\n")
}

/// What a text is, in words, where it is one of the two that can be asked for.
fn name_of(text: &str) -> &str {
    match text {
        HELP => "the text of help",
        VERSION_LINE => "the line of the version",
        _ => text,
    }
}

/// Says what the text is that the parser itself answers.
fn say_parsed(words: &[&str], answers: &mut Answers) {
    if let Some(command) = answers.got(command(answers.alloc)) {
        match command.try_get_matches_from(words) {
            Ok(_) => answers.fail(RowError::Kind("words", "an error of the parser")),
            Err(error) => {
                let text = answers.made(format!(in answers.alloc; "{error}"));
                answers.say("parser_text_is", Said::Text(name_of(text.as_str())));
            }
        }
    }
}

/// Answers what a text is that was asked for.
fn say_asked(row: &Row, text: &str, answers: &mut Answers) {
    if row.has("text") {
        answers.say("text", Said::Text(text));
    }
    if row.has("text_has") {
        answers.say_standing("text_has", text);
    }
    if row.has("text_is") {
        answers.say("text_is", Said::Text(name_of(text)));
    }
    if row.has("crate_version") {
        answers.say("crate_version", Said::Text(crate_version()));
    }
}

/// Answers why words aren't taken.
fn say_refusal(row: &Row, refusal: &CliError, answers: &mut Answers) {
    match refusal {
        CliError::Memory => answers.fail(RowError::Memory),
        CliError::Refused(text) => answers.say("refused", Said::Flag(is_error_text(text.as_str()))),
        CliError::Asked(text) => say_asked(row, text.as_str(), answers),
    }
    answers.say("status", Said::Number(refusal.status() as u128));
}

/// What words answer.
pub fn came(row: &Row, answers: &mut Answers) {
    let alloc = answers.alloc;
    let words = answers.texts(row, "words");
    if row.has("parser_text_is") {
        say_parsed(&words, answers);
    }
    match Cli::from_words(alloc, &words) {
        Ok(cli) => taken(row, &cli, answers),
        Err(refusal) => say_refusal(row, &refusal, answers),
    }
}
