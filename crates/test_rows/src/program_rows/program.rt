//! Rows of the program over folders in memory: how it ends, and what it writes.
use crate::program_rows::reports::{say_first_words, say_lines, say_narrowed};
use std::str::from_utf8;
use test_answers::{Answers, Members, Row, RowError, Said, bench_json};
use test_trees::{add_texts, folders_of};
use tokei::{Counted, Sink, Source};
use tokei_invocation::Env;
use tokei_memory::{FailingFolders, MemoryFolders};
use tokei_program::program;

/// The members of these rows. `languages.json` beside the row's files is the bench table, unless
/// the row is `without_table`; with `hidden_table` or a table of its own, `table_json`, the table
/// is `.table.json`, which isn't counted, and the program is told of it. `beside` are further
/// files. `input` is what standard input holds, `xdg_config_home` and `home` are variables, and
/// `table` is the place of the table that the program is told of; one that is left out isn't set.
pub const MEMBERS: Members = Members {
    given: &[
        "words",
        "files",
        "files_hex",
        "unread",
        "beside",
        "without_table",
        "hidden_table",
        "table_json",
        "xdg_config_home",
        "home",
        "table",
        "input",
        "wider",
    ],
    wanted: &[
        "status",
        "out",
        "out_begins",
        "out_has",
        "out_lacks",
        "out_first_words",
        "out_lines",
        "out_narrowed",
        "err",
        "err_has",
    ],
    optional: &[],
    by_table: false,
};

/// A text as an owned one, where there is one.
fn owned(text: Option<&str>, answers: &mut Answers) -> Option<String> {
    match text {
        Some(text) => Some(answers.string(text)),
        None => None,
    }
}

/// The place of a table that isn't counted beside the files of a row.
const HIDDEN_TABLE: &str = ".table.json";

/// Whether the table of a row stands there.
fn has_hidden_table(row: &Row, answers: &mut Answers) -> bool {
    row.has("table_json") || answers.flag(row, "hidden_table")
}

/// The variables of a row.
fn variables(row: &Row, answers: &mut Answers) -> Env {
    let xdg_config_home = answers.text_if(row, "xdg_config_home");
    let home = answers.text_if(row, "home");
    let table = if has_hidden_table(row, answers) {
        Some(HIDDEN_TABLE)
    } else {
        answers.text_if(row, "table")
    };
    Env {
        xdg_config_home: owned(xdg_config_home, answers),
        home: owned(home, answers),
        table: owned(table, answers),
    }
}

/// Adds the table of a row, unless it has none.
fn add_table(folders: &mut MemoryFolders, row: &Row, answers: &mut Answers) {
    if !answers.flag(row, "without_table") {
        let place = if has_hidden_table(row, answers) {
            HIDDEN_TABLE
        } else {
            "languages.json"
        };
        let bytes = match answers.text_if(row, "table_json") {
            Some(text) => text.as_bytes(),
            None => bench_json(),
        };
        answers.done(folders.add_file(place, bytes));
    }
}

/// The folders of a row, with its table and the files beside in them.
fn around(row: &Row, answers: &mut Answers) -> MemoryFolders {
    let mut folders = folders_of(row, answers);
    add_table(&mut folders, row, answers);
    add_texts(&mut folders, row, "beside", answers);
    folders
}

/// The status of the program with a row's words over its folders, which fail behind so many calls.
pub fn status<S: Source, W: Sink>(
    row: &Row,
    calls: u64,
    input: &mut S,
    out: &mut W,
    err: &mut W,
    answers: &mut Answers,
) -> u8 {
    let words = answers.texts(row, "words");
    let env = variables(row, answers);
    let mut folders = FailingFolders::new(around(row, answers), calls);
    program(answers.alloc, &words, &env, &mut folders, input, out, err)
}

/// How a run of the program ended, and what it wrote.
#[derive(Clone, Copy)]
struct Outcome<'a> {
    status: u8,
    out: &'a [u8],
    err: &'a [u8],
    /// Whether `err` had a fault, as only where its own allocation fails.
    is_mute: bool,
}

/// The text that bytes are.
fn text_of<'a>(member: &'static str, bytes: &'a [u8], answers: &mut Answers) -> &'a str {
    match from_utf8(bytes) {
        Ok(text) => text,
        Err(_) => {
            answers.fail(RowError::Kind(member, "what came: that is no text"));
            ""
        }
    }
}

/// Answers for a member of a row by what stands on standard output and standard error.
fn say_member(row: &Row, member: &str, out: &str, err: &str, answers: &mut Answers) {
    match member {
        "out" => answers.say("out", Said::Text(out)),
        "out_begins" => answers.say_begun("out_begins", out),
        "out_has" => answers.say_standing("out_has", out),
        "out_lacks" => answers.say_absent("out_lacks", out),
        "out_first_words" => say_first_words(out, answers),
        "out_lines" => say_lines(out, row, answers),
        "wider" => say_narrowed(out, row, answers),
        "err" => answers.say("err", Said::Text(err)),
        "err_has" => answers.say_standing("err_has", err),
        _ => {}
    }
}

/// Answers how a run of the program ended.
fn say(row: &Row, ended: &Outcome, answers: &mut Answers) {
    answers.say("status", Said::Number(ended.status as u128));
    let out = text_of("out", ended.out, answers);
    let err = text_of("err", ended.err, answers);
    for (member, _) in row.members {
        say_member(row, member.as_str(), out, err, answers);
    }
}

/// Whether bytes are the line of a run that memory ended.
fn is_line_without_memory(err: &[u8]) -> bool {
    err == "Error: out of memory\n".as_bytes()
        || err == "Error: the output can't be written: out of memory\n".as_bytes()
}

/// Whether a run that should have succeeded was ended by memory, and its output is the beginning
/// of what is wanted. The writers are in memory too, and have a fault where their own allocation
/// fails: then nothing may be said.
fn is_without_memory(row: &Row, ended: &Outcome, answers: &mut Answers) -> bool {
    let out = answers.text_if(row, "out").unwrap_or("").as_bytes();
    ended.status == 1
        && answers.number(row, "status") == 0
        && out.starts_with(ended.out)
        && (ended.is_mute || is_line_without_memory(ended.err))
}

/// What a run of the program answers.
pub fn came(row: &Row, answers: &mut Answers) {
    let mut input = Counted::new(answers.text_if(row, "input").unwrap_or("").as_bytes());
    let mut out = Counted::new(Vec::new(answers.alloc));
    let mut err = Counted::new(Vec::new(answers.alloc));
    let ended = Outcome {
        status: status(row, u64::MAX, &mut input, &mut out, &mut err, answers),
        out: out.inner.as_slice(),
        err: err.inner.as_slice(),
        is_mute: err.faults != 0,
    };
    if is_without_memory(row, &ended, answers) {
        answers.fail(RowError::Memory);
    } else {
        say(row, &ended, answers);
    }
}
