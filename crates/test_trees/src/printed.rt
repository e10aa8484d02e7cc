//! Rows of what is printed: the rows of languages, of files and of a stream, 81 columns wide.
use crate::given_languages::{given, named, report};
use test_answers::{Answers, Members, Row, RowError};
use tokei_io::{Counted, OutputError};
use tokei_languages::Languages;
use tokei_options::NumberFormatStyle;
use tokei_print::{Printer, print_stream_heading, print_stream_row};
use tokei_table::LanguageTable;

/// The members of these rows. `calls` print languages in turn; a `language_name` is printed alone,
/// behind a `prefix`; the reports of a `stream` are printed behind its heading. `rows` are what is
/// printed, `error` why a call printed nothing.
pub const MEMBERS: Members = Members {
    given: &[
        "table_json",
        "languages",
        "calls",
        "style",
        "files",
        "compact",
        "sorted",
        "language_name",
        "prefix",
        "inaccurate",
        "stream",
    ],
    wanted: &["rows", "error"],
    optional: &[],
    by_table: false,
};

/// A printer into memory.
type Page = Printer<Counted<Vec<u8>>>;

/// How a call that prints ended.
type Printed = Result<(), OutputError>;

/// The style of a row's word.
fn style(row: &Row, answers: &mut Answers) -> NumberFormatStyle {
    match answers.text_if(row, "style") {
        Some(word) => match word.parse::<NumberFormatStyle>() {
            Ok(style) => style,
            Err(_) => {
                answers.fail(RowError::Kind("style", "a style of numbers"));
                NumberFormatStyle::Plain
            }
        },
        None => NumberFormatStyle::Plain,
    }
}

/// An empty page; none where memory runs out.
fn page(row: &Row, answers: &mut Answers) -> Option<Page> {
    let alloc = answers.alloc;
    let format = style(row, answers).get_format();
    let files = answers.flag(row, "files");
    match Printer::new(alloc, 81, files, Counted::new(Vec::new(alloc)), format) {
        Ok(page) => Some(page),
        Err(_) => {
            answers.fail(RowError::Memory);
            None
        }
    }
}

/// What a row prints.
#[derive(Clone, Copy)]
struct Of<'t, 'r, 'l> {
    table: &'t LanguageTable,
    row: Row<'r>,
    languages: &'l Languages,
}

/// Prints the rows of the languages, in the order of the table.
fn print_results(of: &Of, page: &mut Page, answers: &mut Answers) -> Printed {
    let compact = answers.flag(&of.row, "compact");
    let sorted = answers.flag(&of.row, "sorted");
    let mut list = Vec::new(answers.alloc);
    for (language, value) in of.languages.iter() {
        if list.push((*language, value)).is_err() {
            answers.fail(RowError::Memory);
        }
    }
    page.print_results(of.table, list.as_slice(), compact, sorted)
}

/// Prints the row of the language of that name.
fn print_language(of: &Of, name: &str, page: &mut Page, answers: &mut Answers) -> Printed {
    if let Some(language) = named(of.table, name, answers) {
        match of.languages.get(language) {
            Some(found) => return page.print_language(found, name),
            None => answers.fail(RowError::Kind(
                "calls",
                "a list of calls of languages that are there",
            )),
        }
    }
    Ok(())
}

/// Makes a call that prints.
fn print(of: &Of, call: &str, page: &mut Page, answers: &mut Answers) -> Printed {
    match call {
        "header" => page.print_header(),
        "warning" => page.print_inaccuracy_warning(),
        "results" => print_results(of, page, answers),
        "total" => page.print_total(of.languages),
        other => match other.strip_prefix("language ") {
            Some(name) => print_language(of, name, page, answers),
            None => {
                answers.fail(RowError::Kind("calls", "a list of calls that print"));
                Ok(())
            }
        },
    }
}

/// Makes the calls of a row, up to one that is refused.
fn print_all(of: &Of, page: &mut Page, answers: &mut Answers) -> Printed {
    for call in answers.list(&of.row, "calls") {
        let call = answers.text_of("calls", call);
        let printed = print(of, call, page, answers);
        if printed.is_err() {
            return printed;
        }
    }
    Ok(())
}

/// Says what a page holds, and why a call was refused where one was.
fn say(page: &[u8], printed: Printed, answers: &mut Answers) {
    answers.say_written("rows", page);
    match printed {
        Ok(()) => {}
        Err(OutputError::Memory) => answers.fail(RowError::Memory),
        Err(cause) => answers.say_shown("error", &cause),
    }
}

/// What the calls of a row print of its languages.
fn came_of_languages(table: &LanguageTable, row: &Row, answers: &mut Answers) {
    let languages = given(table, row, "languages", answers);
    let of = Of {
        table,
        row: *row,
        languages: &languages,
    };
    if let Some(mut page) = page(row, answers) {
        let printed = print_all(&of, &mut page, answers);
        say(page.writer.inner.as_slice(), printed, answers);
    }
}

/// What is printed of a language's name alone.
fn came_of_name(row: &Row, answers: &mut Answers) {
    let name = answers.text(row, "language_name");
    let prefix = answers.text_if(row, "prefix");
    let inaccurate = answers.flag(row, "inaccurate");
    if let Some(mut page) = page(row, answers) {
        let printed = page.print_language_name(inaccurate, name, prefix);
        say(page.writer.inner.as_slice(), printed, answers);
    }
}

/// Prints the row of a report of a stream.
fn print_report(
    table: &LanguageTable,
    told: &Row,
    writer: &mut Counted<Vec<u8>>,
    answers: &mut Answers,
) {
    let language = answers.text(told, "language");
    let report = report(table, told, answers);
    if print_stream_row(answers.alloc, writer, language, &report).is_err() {
        answers.fail(RowError::Memory);
    }
}

/// What is printed of a stream: its heading, and the row of each of its reports.
fn came_of_stream(table: &LanguageTable, row: &Row, answers: &mut Answers) {
    let mut writer = Counted::new(Vec::new(answers.alloc));
    if print_stream_heading(&mut writer).is_err() {
        answers.fail(RowError::Memory);
    }
    for value in answers.list(row, "stream") {
        if let Some(told) = answers.inner(row, "stream", value) {
            print_report(table, &told, &mut writer, answers);
        }
    }
    say(writer.inner.as_slice(), Ok(()), answers);
}

/// What the calls answer.
pub fn came(table: &LanguageTable, row: &Row, answers: &mut Answers) {
    if row.has("language_name") {
        came_of_name(row, answers);
    } else if row.has("stream") {
        came_of_stream(table, row, answers);
    } else {
        came_of_languages(table, row, answers);
    }
}
