//! Rows of what opens at a place of a text, and what it holds.
use test_answers::{Answers, Members, Row, RowError, Said};
use tokei_embedding::{BlockSearch, FenceAt, Tag, TagAt, doc_text, fence_at, target_at};

/// The members of these rows. `block` is `fence`, `script`, `style`, `template`, `doc comment`,
/// `target block` or `target`; reading begins at `from`, and the line of `place` ends at `to`.
/// Where no block opens, `opens` is false.
pub const MEMBERS: Members = Members {
    given: &["block", "text", "text_hex", "from", "place", "to"],
    wanted: &["opens", "contents", "size", "info", "closed", "value"],
    optional: &[],
    by_table: false,
};

/// The answers that contents and their size are.
fn block(contents: &[u8], size: usize, answers: &mut Answers) {
    answers.say("contents", Said::Bytes(contents));
    answers.say("size", Said::Number(size as u128));
}

/// The answers of the search for a fence.
fn fence(found: Option<FenceAt<'_>>, answers: &mut Answers) {
    match found {
        Some(found) => {
            block(found.contents, found.size, answers);
            answers.say("info", Said::Bytes(found.info));
            answers.say("closed", Said::Flag(found.closed));
        }
        None => answers.say("opens", Said::Flag(false)),
    }
}

/// The answers of the search for an element.
fn element(found: Option<TagAt<'_>>, answers: &mut Answers) {
    match found {
        Some(found) => {
            block(found.contents, found.size, answers);
            if let Some(value) = found.value {
                answers.say("value", Said::Bytes(value));
            }
        }
        None => answers.say("opens", Said::Flag(false)),
    }
}

/// The answers of the search for a doc comment.
fn doc_comment(text: &[u8], place: usize, answers: &mut Answers) {
    if text.len() <= place {
        return answers.fail(RowError::Words("the place isn't within the text"));
    }
    let Some(size) = BlockSearch::new(answers.alloc, text).doc_at(place) else {
        return answers.say("opens", Said::Flag(false));
    };
    match text[place..].get(..size) {
        Some(comment) => {
            if let Some(contents) = answers.got(doc_text(answers.alloc, comment)) {
                block(&contents, size, answers);
            }
        }
        None => answers.fail(RowError::Words("the doc comment is longer than the text")),
    }
}

/// The answers of the search for the target, which is asked twice.
fn target(text: &[u8], answers: &mut Answers) {
    let mut search = BlockSearch::new(answers.alloc, text);
    let first = search.target();
    if search.target() != first {
        answers.fail(RowError::Words("the second question is answered otherwise"));
    } else if let Some(found) = first {
        answers.say("contents", Said::Bytes(found));
    } else {
        answers.say("opens", Said::Flag(false));
    }
}

/// The answers of a search between places.
fn between(name: &str, row: &Row, text: &[u8], answers: &mut Answers) {
    let from = answers.place(row, "from");
    let place = answers.place(row, "place");
    let to = answers.place(row, "to");
    if place < from || to <= place || text.len() < to {
        return answers.fail(RowError::Words("the places aren't within the text"));
    }
    let tag = match name {
        "fence" => return fence(fence_at(text, from, place, to), answers),
        "target block" => return match target_at(text, from, place, to) {
            Some(found) => block(found.contents, found.size, answers),
            None => answers.say("opens", Said::Flag(false)),
        },
        "script" => Tag::Script,
        "style" => Tag::Style,
        "template" => Tag::Template,
        _ => return answers.fail(RowError::Words("there is no such block")),
    };
    let found = BlockSearch::new(answers.alloc, text).tag_at(tag, from, place, to);
    element(found, answers);
}

/// The answers of a search in a text.
fn came_in(row: &Row, text: &[u8], answers: &mut Answers) {
    match answers.text(row, "block") {
        "target" => target(text, answers),
        "doc comment" => {
            let place = answers.place(row, "place");
            doc_comment(text, place, answers);
        }
        name => between(name, row, text, answers),
    }
}

/// What the calls answer.
pub fn came(row: &Row, answers: &mut Answers) {
    let text = answers.bytes(row, "text", "text_hex");
    came_in(row, &text, answers);
}
