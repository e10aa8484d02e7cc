//! Rows of documents: what is printed, what is read, and what earlier results add.
use crate::given_languages::given;
use crate::shown_languages::say_languages;
use std::alloc::{AllocError, Global};
use test_answers::{Answers, Members, Row, RowError, Said};
use tokei_earlier::{Format, InputError, add_input, from_value};
use tokei_io::Counted;
use tokei_json::to_value;
use tokei_languages::Languages;
use tokei_table::LanguageTable;

/// The members of these rows. `languages` are printed as `document`, or `earlier` results are added
/// to them. A `text` is read, or one whose texts inside texts are so many `levels` deep. `stand`
/// are the languages that are read, or those to which results were added, and `error` the cause of
/// a refusal. A document that is so deep is `read_back` as it was.
pub const MEMBERS: Members = Members {
    given: &[
        "table_json",
        "languages",
        "text",
        "levels",
        "earlier",
        "earlier_hex",
    ],
    wanted: &["document", "stand", "read_back", "error"],
    optional: &[],
    by_table: false,
};

/// Says why a text was refused.
fn say_cause(answers: &mut Answers, cause: InputError) {
    if cause == InputError::Memory {
        answers.fail(RowError::Memory);
    } else {
        answers.say_shown("error", &cause);
    }
}

/// Keeps that what was read isn't these languages: where nothing was, by the first words, else by
/// the second ones.
fn check(
    read: Result<Languages, InputError>,
    languages: &Languages,
    (unread, other): (&'static str, &'static str),
    answers: &mut Answers,
) {
    match read {
        Ok(read) if read == *languages => {}
        Ok(_) => answers.fail(RowError::Words(other)),
        Err(InputError::Memory) => answers.fail(RowError::Memory),
        Err(_) => answers.fail(RowError::Words(unread)),
    }
}

/// The document of languages, which is read as these, as their value is; none where it can't be
/// made.
fn printed(table: &LanguageTable, languages: &Languages, answers: &mut Answers) -> Option<String> {
    let of_value = (
        "the value of the languages isn't read",
        "their value is read as other languages",
    );
    let of_text = (
        "what is printed isn't read",
        "what is printed is read as other languages",
    );
    if let Some(value) = answers.got(to_value(answers.alloc, table, languages)) {
        let read = from_value(answers.alloc, table, &value);
        check(read, languages, of_value, answers);
    }
    let printed = answers.got(Format::Json.print(answers.alloc, table, languages));
    if let Some(text) = &printed {
        let read = Format::parse(answers.alloc, table, text.as_str());
        check(read, languages, of_text, answers);
    }
    printed
}

/// What is printed of languages.
fn came_of_print(table: &LanguageTable, row: &Row, answers: &mut Answers) {
    let languages = given(table, row, "languages", answers);
    if let Some(text) = printed(table, &languages, answers) {
        answers.say("document", Said::Text(text.as_str()));
    }
}

/// What is read from a text, where it isn't refused. What is then printed of the languages is read
/// as these.
fn read(table: &LanguageTable, text: &str, answers: &mut Answers) -> Option<Languages> {
    match Format::parse(answers.alloc, table, text) {
        Ok(languages) => {
            let _text = printed(table, &languages, answers);
            Some(languages)
        }
        Err(cause) => {
            say_cause(answers, cause);
            None
        }
    }
}

/// A document of one report whose texts inside texts are so many levels deep.
fn nested(alloc: Global, levels: usize) -> Result<String, AllocError> {
    let begun = "{\"blanks\":0,\"blobs\":{\"C\":".repeat(alloc, levels)?;
    let ended = "},\"code\":0,\"comments\":0}".repeat(alloc, levels)?;
    let inner = "{\"blanks\":0,\"blobs\":{},\"code\":0,\"comments\":0}";
    let head = "{\"C\":{\"blanks\":0,\"children\":{},\"code\":0,\"comments\":0,";
    let report = "\"inaccurate\":false,\"reports\":[{\"name\":\"a\",\"stats\":";
    format!(in alloc; "{head}{report}{begun}{inner}{ended}}}]}},\"Total\":0}}")
}

/// Whether a document so deep is read, printed and read again as the same.
fn came_of_levels(table: &LanguageTable, levels: u64, answers: &mut Answers) {
    let text = answers.made(nested(answers.alloc, levels as usize));
    if read(table, text.as_str(), answers).is_some() {
        answers.say("read_back", Said::Flag(true));
    }
}

/// What earlier results add to languages, and why they are refused where they are.
fn came_of_earlier(table: &LanguageTable, row: &Row, answers: &mut Answers) {
    let mut languages = given(table, row, "languages", answers);
    let bytes = answers.bytes(row, "earlier", "earlier_hex");
    let mut reader = Counted::new(bytes.as_slice());
    if let Err(cause) = add_input(answers.alloc, table, &mut reader, &mut languages) {
        say_cause(answers, cause);
    }
    say_languages("stand", table, &languages, answers);
}

/// What the calls answer.
pub fn came(table: &LanguageTable, row: &Row, answers: &mut Answers) {
    if row.has("text") {
        let text = answers.text(row, "text");
        if let Some(languages) = read(table, text, answers) {
            say_languages("stand", table, &languages, answers);
        }
    } else if row.has("levels") {
        let levels = answers.number(row, "levels");
        came_of_levels(table, levels, answers);
    } else if row.has("earlier") || row.has("earlier_hex") {
        came_of_earlier(table, row, answers);
    } else {
        came_of_print(table, row, answers);
    }
}
