//! Rows of words: of formats, of styles of numbers, of streams and of columns.
use std::fmt::{Debug, Display};
use test_answers::{Answers, Members, Page, Row, RowError, Said};
use tokei_earlier::Format;
use tokei_options::{NumberFormatStyle, Sort, Streaming};

/// The members of these rows: the word of a `format`, of a `style`, of a `stream` or of a `column`;
/// a `number` that is written in the style; the name of a list of formats; or whether the style
/// without a word is asked for.
pub const MEMBERS: Members = Members {
    given: &[
        "format",
        "formats",
        "style",
        "number",
        "default_style",
        "stream",
        "column",
    ],
    wanted: &["answer"],
    optional: &[],
    by_table: false,
};

/// Says what a word stands for, or why it stands for nothing.
fn say_read<T: Debug + Drop, E: Display + Drop>(read: Result<T, E>, answers: &mut Answers) {
    match read {
        Ok(value) => answers.say_debug("answer", &value),
        Err(cause) => answers.say_shown("answer", &cause),
    }
}

/// The words of the list of formats of that name.
fn formats(list: &str, answers: &mut Answers) -> &'static [&'static str] {
    match list {
        "supported" => Format::supported(),
        "all" => Format::all(),
        "all_feature_names" => Format::all_feature_names(),
        "not_supported" => Format::not_supported(),
        _ => {
            answers.fail(RowError::Kind("formats", "a list of formats"));
            &[]
        }
    }
}

/// Says some words, with a blank between two.
fn say_words(words: &[&str], answers: &mut Answers) {
    let mut page = Page::new(answers.alloc);
    for word in words {
        if !page.is_empty() {
            page.put(" ");
        }
        page.put(word);
    }
    answers.say_page("answer", &page);
}

/// Says what the word of a style stands for, or the row's number in it.
fn say_style(word: &str, row: &Row, answers: &mut Answers) {
    match (
        word.parse::<NumberFormatStyle>(),
        answers.number_if(row, "number"),
    ) {
        (Ok(style), Some(number)) => {
            let text = style.get_format().grouped(answers.alloc, number as usize);
            if let Some(text) = answers.got(text) {
                answers.say("answer", Said::Text(text.as_str()));
            }
        }
        (read, _) => say_read(read, answers),
    }
}

/// What the row's word stands for.
pub fn came(row: &Row, answers: &mut Answers) {
    if let Some(word) = answers.text_if(row, "format") {
        say_read(word.parse::<Format>(), answers);
    } else if let Some(list) = answers.text_if(row, "formats") {
        say_words(formats(list, answers), answers);
    } else if let Some(word) = answers.text_if(row, "style") {
        say_style(word, row, answers);
    } else if answers.flag(row, "default_style") {
        answers.say_debug("answer", &NumberFormatStyle::default());
    } else if let Some(word) = answers.text_if(row, "column") {
        say_read(word.parse::<Sort>(), answers);
    } else {
        say_read(answers.text(row, "stream").parse::<Streaming>(), answers);
    }
}
