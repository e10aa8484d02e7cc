//! Rows of contents that are decoded, of boundaries of characters, and of blanks and slices of
//! texts.
use crate::asking::say_all;
use test_answers::{Answers, Members, Row, RowError, Said};
use tokei_bytes::{decode_text, find_char_boundary};
use tokei_table_row::ext::{
    contains_slice, is_line_ending_whitespace, is_whitespace, trim,
    trim_first_and_last_line_of_whitespace, trim_start,
};
use tokei_table_search::blanks_end;

/// The members of these rows. `call` is `decode_text`, `find_char_boundary` at a place, `trim`,
/// which trims the front alone too, `trim_lines`, `contains_slice` or `is_whitespace`, of a text of
/// one byte.
pub const MEMBERS: Members = Members {
    given: &["call", "text", "text_hex", "place", "slice"],
    wanted: &[
        "decoded",
        "boundary",
        "trimmed",
        "front_trimmed",
        "blanks_end",
        "left",
        "holds",
        "is_whitespace",
    ],
    optional: &["is_line_ending"],
    by_table: false,
};

/// The answers of the tests of one byte.
fn kinds(text: &[u8], answers: &mut Answers) {
    match text {
        [byte] => {
            answers.say("is_whitespace", Said::Flag(is_whitespace(*byte)));
            let ends = is_line_ending_whitespace(*byte);
            answers.say("is_line_ending", Said::Flag(ends));
        }
        _ => answers.fail(RowError::Words("the text isn't one byte")),
    }
}

/// The answer of the search for a boundary.
fn boundary(row: &Row, answers: &mut Answers) {
    let text = answers.text(row, "text");
    let place = answers.place(row, "place");
    if place > text.len() {
        return answers.fail(RowError::Words("the place isn't within the text"));
    }
    let boundary = find_char_boundary(text, place);
    answers.say("boundary", Said::Number(boundary as u128));
}

/// The answer of the decoding.
fn decoded(text: &[u8], answers: &mut Answers) {
    let alloc = answers.alloc;
    if let Some(bytes) = answers.got(Vec::from_slice(alloc, text)) {
        if let Some(decoded) = answers.got(decode_text(alloc, bytes)) {
            answers.say("decoded", Said::Bytes(&decoded));
        }
    }
}

/// The answers of trimming.
fn trimmed(text: &[u8], answers: &mut Answers) {
    let end = blanks_end(text, 0, text.len());
    let all = [
        ("front_trimmed", Said::Bytes(trim_start(text))),
        ("trimmed", Said::Bytes(trim(text))),
        ("blanks_end", Said::Number(end as u128)),
    ];
    say_all(&all, answers);
}

/// The answers of a call.
fn came_in(row: &Row, text: &[u8], answers: &mut Answers) {
    match answers.text(row, "call") {
        "decode_text" => decoded(text, answers),
        "find_char_boundary" => boundary(row, answers),
        "trim" => trimmed(text, answers),
        "trim_lines" => {
            let left = trim_first_and_last_line_of_whitespace(text);
            answers.say("left", Said::Bytes(left));
        }
        "contains_slice" => {
            let slice = answers.text(row, "slice").as_bytes();
            answers.say("holds", Said::Flag(contains_slice(text, slice)));
        }
        "is_whitespace" => kinds(text, answers),
        _ => answers.fail(RowError::Words("there is no such call")),
    }
}

/// What the calls answer.
pub fn came(row: &Row, answers: &mut Answers) {
    let text = answers.bytes(row, "text", "text_hex");
    came_in(row, &text, answers);
}
