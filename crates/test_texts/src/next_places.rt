//! Rows of the next place at which a block can open.
use test_answers::{Answers, Members, Row, RowError, Said};
use tokei_embedding::{BlockSearch, Tag, first_line, next_doc, next_fence, next_target};

/// The members of these rows. `block` is `fence`, `script`, `style`, `template`, `doc comment` or
/// `target block`; reading begins at `start`, the search at `at`, whose line ends at `to`. That of
/// a doc comment begins at `at`, and its line is read there, unless `to` says that it ends there
/// too.
pub const MEMBERS: Members = Members {
    given: &["block", "text", "start", "at", "to"],
    wanted: &["next"],
    optional: &[],
    by_table: false,
};

/// The next place of a doc comment; none where it isn't within the text.
fn next_doc_of(row: &Row, text: &[u8], at: usize) -> Option<usize> {
    if at > text.len() {
        return None;
    }
    let to = if row.has("to") {
        at
    } else {
        at + first_line(&text[at..]).len()
    };
    Some(next_doc(text, at, to))
}

/// The next place between places that a row asks for; none where they aren't within the text, or
/// there is no such block.
fn next_of(name: &str, row: &Row, text: &[u8], at: usize, answers: &mut Answers) -> Option<usize> {
    let start = answers.place(row, "start");
    let to = answers.place(row, "to");
    if at < start || to < at || text.len() < to {
        return None;
    }
    let tag = match name {
        "fence" => return Some(next_fence(text, start, at, to)),
        "target block" => return Some(next_target(text, start, at, to)),
        "script" => Tag::Script,
        "style" => Tag::Style,
        "template" => Tag::Template,
        _ => return None,
    };
    Some(BlockSearch::new(answers.alloc, text).next_tag(tag, start, at, to))
}

/// What the calls answer.
pub fn came(row: &Row, answers: &mut Answers) {
    let name = answers.text(row, "block");
    let text = answers.text(row, "text").as_bytes();
    let at = answers.place(row, "at");
    let next = if name == "doc comment" {
        next_doc_of(row, text, at)
    } else {
        next_of(name, row, text, at, answers)
    };
    match next {
        Some(next) => answers.say("next", Said::Number(next as u128)),
        None => answers.fail(RowError::Words(
            "there is no such block, or its places aren't within the text",
        )),
    }
}
