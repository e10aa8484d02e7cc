//! Rows of searches for one of a few bytes.
use crate::asking::say_all;
use test_answers::{Answers, Members, Row, RowError, Said};
use tokei_bytes::{BitSet, ByteSet, first_of_four};

/// The members of these rows. Either one of the bytes `four` is searched for between two places;
/// where the text has a `hit`, each of the four is put there in turn, and all have to be found at
/// the same place. Or the text is read up to a byte of a `set`, and up to such a byte or another
/// one, `other`.
pub const MEMBERS: Members = Members {
    given: &[
        "four", "text", "text_hex", "from", "to", "hit", "set", "other",
    ],
    wanted: &["first", "clear_end", "clear_end_with", "has_slash"],
    optional: &[],
    by_table: false,
};

/// What the search answers, where the places are in order and within the text.
fn search(four: [u8; 4], text: &[u8], from: usize, to: usize) -> Option<usize> {
    if from <= to && to <= text.len() {
        Some(first_of_four(four, text, from, to))
    } else {
        None
    }
}

/// What the search answers where each of the four stands in that place in turn; none where it
/// answers otherwise of two.
fn search_each(
    four: [u8; 4],
    text: &mut [u8],
    hit: usize,
    from: usize,
    to: usize,
) -> Option<usize> {
    let mut first = None;
    for byte in four {
        if hit < text.len() {
            text[hit] = byte;
        }
        let found = search(four, text, from, to);
        if first.is_some() && found != first {
            return None;
        }
        first = found;
    }
    first
}

/// The answers of a search for one of four.
fn of_four(row: &Row, text: &mut [u8], answers: &mut Answers) {
    let [one, two, three, four] = answers.text(row, "four").as_bytes() else {
        return answers.fail(RowError::Words("these aren't four bytes"));
    };
    let four = [*one, *two, *three, *four];
    let from = answers.place(row, "from");
    let to = answers.place(row, "to");
    let first = if row.has("hit") {
        let hit = answers.place(row, "hit");
        search_each(four, text, hit, from, to)
    } else {
        search(four, text, from, to)
    };
    match first {
        Some(first) => answers.say("first", Said::Number(first as u128)),
        None => answers.fail(RowError::Words(
            "two bytes are found elsewhere, or the places aren't within the text",
        )),
    }
}

/// The answers of a set.
fn of_set(row: &Row, text: &[u8], answers: &mut Answers) {
    let mut set = ByteSet::empty();
    let mut bits = BitSet::empty();
    for byte in answers.text(row, "set").as_bytes() {
        set.insert(*byte);
        bits.insert(*byte);
    }
    let [other] = answers.text(row, "other").as_bytes() else {
        return answers.fail(RowError::Words("the other one isn't one byte"));
    };
    let end = set.clear_end(text, 0, text.len());
    if bits.clear_end(text, 0, text.len()) != end {
        return answers.fail(RowError::Words("the two sets answer otherwise"));
    }
    let end_with = bits.clear_end_with(*other, text, 0, text.len());
    let all = [
        ("clear_end", Said::Number(end as u128)),
        ("clear_end_with", Said::Number(end_with as u128)),
        ("has_slash", Said::Flag(set.has(b'/'))),
    ];
    say_all(&all, answers);
}

/// What the calls answer.
pub fn came(row: &Row, answers: &mut Answers) {
    let mut text = answers.bytes(row, "text", "text_hex");
    if row.has("set") {
        of_set(row, &text, answers);
    } else {
        of_four(row, &mut text, answers);
    }
}
