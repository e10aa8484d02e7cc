//! Rows of languages: what their calls answer, made in turn, and how they stand then.
use crate::given_languages::{given, named};
use crate::shown_languages::{put_language, say_languages};
use std::mem;
use test_answers::{Answers, Members, Page, Row, RowError};
use tokei_languages::{Language, Languages};
use tokei_options::Sort;
use tokei_stats::CountError;
use tokei_table::{LanguageTable, LanguageType};

/// The members of these rows: languages, others that are added, and calls. Where `of` names a
/// language, these are calls of that language alone. `answers` has a line for each call, `stand`
/// how the languages stand then.
pub const MEMBERS: Members = Members {
    given: &["table_json", "languages", "other", "of", "calls"],
    wanted: &["answers", "stand"],
    optional: &[],
    by_table: false,
};

/// What a row is asked by.
#[derive(Clone, Copy)]
struct Of<'t, 'r> {
    table: &'t LanguageTable,
    row: Row<'r>,
}

/// Adds the line of an answer.
fn put_answer(answer: Result<(), CountError>, page: &mut Page, answers: &mut Answers) {
    match answer {
        Ok(()) => page.put("done\n"),
        Err(CountError::Overflow) => page.put("a sum passes the greatest usize\n"),
        Err(CountError::Memory) => answers.fail(RowError::Memory),
    }
}

/// The column of that word.
fn column(word: &str, answers: &mut Answers) -> Sort {
    match word.parse::<Sort>() {
        Ok(sort) => sort,
        Err(_) => {
            answers.fail(RowError::Kind("calls", "a list of calls with a column"));
            Sort::Files
        }
    }
}

/// Adds how many lines a language made of others has, and the language under a name; or why none
/// was made.
fn put_made(
    table: &LanguageTable,
    name: &str,
    made: Result<Language, CountError>,
    page: &mut Page,
    answers: &mut Answers,
) {
    match made {
        Ok(language) => {
            page.put_shown(&answers.read(language.lines(), 0));
            page.put(" lines\n");
            put_language(table, name, &language, page);
        }
        Err(refused) => put_answer(Err(refused), page, answers),
    }
}

/// Sorts the reports of all languages.
fn sort_all(languages: &mut Languages, column: Sort, answers: &mut Answers) {
    let taken = mem::replace(languages, Languages::new(answers.alloc));
    if let Some(sorted) = answers.got(taken.with_sorted_reports(column)) {
        *languages = sorted;
    }
}

/// Whether the language of that name is there and empty.
fn is_empty(table: &LanguageTable, languages: &Languages, name: &str) -> bool {
    match LanguageType::from_name(table, name) {
        Some(language) => match languages.get(language) {
            Some(found) => found.is_empty(),
            None => false,
        },
        None => false,
    }
}

/// Makes a call of languages, and adds what it answers.
fn put_of_all(
    of: &Of,
    languages: &mut Languages,
    call: &str,
    page: &mut Page,
    answers: &mut Answers,
) {
    let answer = match call {
        "add" => languages.add(given(of.table, &of.row, "other", answers)),
        "renew_counts" => languages.renew_counts(),
        "total" => return put_made(of.table, "Total", languages.total(), page, answers),
        "debug" => {
            page.put_debug(languages);
            return page.put("\n");
        }
        _ => return put_with_word(of.table, languages, call, page, answers),
    };
    put_answer(answer, page, answers);
}

/// Makes a call of languages that has a word behind its name, and adds what it answers.
fn put_with_word(
    table: &LanguageTable,
    languages: &mut Languages,
    call: &str,
    page: &mut Page,
    answers: &mut Answers,
) {
    let (name, word) = call.split_once(' ').unwrap_or((call, ""));
    let answer = match name {
        "mark_inaccurate" => match named(table, word, answers) {
            Some(language) => languages.mark_inaccurate(language),
            None => Ok(()),
        },
        "with_sorted_reports" => {
            sort_all(languages, column(word, answers), answers);
            Ok(())
        }
        "is_empty" => {
            page.put_shown(&is_empty(table, languages, word));
            return page.put("\n");
        }
        _ => return answers.fail(RowError::Kind("calls", "a list of calls of languages")),
    };
    put_answer(answer, page, answers);
}

/// The language of that name that a member has; an empty one where it can't be read.
fn language_of(of: &Of, member: &'static str, name: &str, answers: &mut Answers) -> Language {
    let languages = given(of.table, &of.row, member, answers);
    if let Some(language) = named(of.table, name, answers) {
        match languages.get(language) {
            Some(found) => return answers.read(found.try_clone(), Language::new(answers.alloc)),
            None => answers.fail(RowError::Kind("of", "a language of the row")),
        }
    }
    Language::new(answers.alloc)
}

/// Makes a call of one language, and adds what it answers.
fn put_of_one(
    of: &Of,
    name: &str,
    one: &mut Language,
    call: &str,
    page: &mut Page,
    answers: &mut Answers,
) {
    let answer = match call {
        "add" => one.add(language_of(of, "other", name, answers)),
        "total" => one.total(),
        "summarise" => return put_made(of.table, "Summary", one.summarise(), page, answers),
        "lines" => {
            page.put_shown(&answers.read(one.lines(), 0));
            return page.put("\n");
        }
        _ => match call.strip_prefix("sort_by ") {
            Some(word) => one.sort_by(column(word, answers)),
            None => {
                return answers.fail(RowError::Kind("calls", "a list of calls of a language"));
            }
        },
    };
    put_answer(answer, page, answers);
}

/// Makes the calls of a row that are of one language, and says what they answer and how it stands
/// then.
fn came_of_one(of: &Of, name: &str, answers: &mut Answers) {
    let mut one = language_of(of, "languages", name, answers);
    let mut page = Page::new(answers.alloc);
    for value in answers.list(&of.row, "calls") {
        let call = answers.text_of("calls", value);
        page.put_all(&[call, ": "]);
        put_of_one(of, name, &mut one, call, &mut page, answers);
    }
    answers.say_page("answers", &page);
    let mut page = Page::new(answers.alloc);
    put_language(of.table, name, &one, &mut page);
    answers.say_page("stand", &page);
}

/// Makes the calls of a row that are of all its languages, and says what they answer and how these
/// stand then.
fn came_of_all(of: &Of, answers: &mut Answers) {
    let mut languages = given(of.table, &of.row, "languages", answers);
    let mut page = Page::new(answers.alloc);
    for value in answers.list(&of.row, "calls") {
        let call = answers.text_of("calls", value);
        page.put_all(&[call, ": "]);
        put_of_all(of, &mut languages, call, &mut page, answers);
    }
    answers.say_page("answers", &page);
    say_languages("stand", of.table, &languages, answers);
}

/// What the calls answer.
pub fn came(table: &LanguageTable, row: &Row, answers: &mut Answers) {
    let of = Of { table, row: *row };
    match answers.text_if(row, "of") {
        Some(name) => came_of_one(&of, name, answers),
        None => came_of_all(&of, answers),
    }
}
