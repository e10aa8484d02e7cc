//! Rows of a walk's notes: their lines, by how often `--verbose` was given.
use log::sink::Lines;
use test_answers::{Answers, Members, Page, Row, RowError};
use tokei::{Note, NoteKind, Text};
use tokei_invocation::log_notes;

/// The members of these rows: the notes, each by its kind and place, and how often `--verbose` was
/// given.
pub const MEMBERS: Members = Members {
    given: &["verbose", "notes"],
    wanted: &["lines"],
    optional: &[],
    by_table: false,
};

/// The kinds of a walk's notes, each behind its word.
const KINDS: [(&str, NoteKind); 10] = [
    ("BadExclude", NoteKind::BadExclude),
    ("BadLine", NoteKind::BadLine),
    ("LostEntry", NoteKind::LostEntry),
    ("MissingRoot", NoteKind::MissingRoot),
    ("TooDeep", NoteKind::TooDeep),
    ("Unlisted", NoteKind::Unlisted),
    ("Unnamed", NoteKind::Unnamed),
    ("UnreadContent", NoteKind::UnreadContent),
    ("UnreadIgnore", NoteKind::UnreadIgnore),
    ("UnresolvedRoot", NoteKind::UnresolvedRoot),
];

/// The kind of that word.
fn kind_of(word: &str) -> Option<NoteKind> {
    for (known, kind) in KINDS {
        if known == word {
            return Some(kind);
        }
    }
    None
}

/// Adds the note that a text tells.
fn push_note(notes: &mut Vec<Note>, text: &str, answers: &mut Answers) {
    let Some((word, place)) = text.split_once(' ') else {
        return answers.fail(RowError::Kind("notes", "a list of notes with a place"));
    };
    let Some(kind) = kind_of(word) else {
        return answers.fail(RowError::Kind("notes", "a list of kinds of notes"));
    };
    if let Some(place) = answers.got(Text::from_str(answers.alloc, place)) {
        answers.done(notes.push(Note { kind, place }));
    }
}

/// How often `--verbose` was given.
fn verbose(row: &Row, answers: &mut Answers) -> u8 {
    match u8::try_from(answers.number(row, "verbose")) {
        Ok(verbose) => verbose,
        Err(_) => {
            answers.fail(RowError::Kind("verbose", "a number below 256"));
            0
        }
    }
}

/// What the calls answer.
pub fn came(row: &Row, answers: &mut Answers) {
    let verbose = verbose(row, answers);
    let mut notes = Vec::new(answers.alloc);
    for value in answers.list(row, "notes") {
        let text = answers.text_of("notes", value);
        push_note(&mut notes, text, answers);
    }
    let mut lines = Lines::new(answers.alloc);
    answers.done(log_notes(notes.as_slice(), verbose, &mut lines));
    let mut page = Page::new(answers.alloc);
    for line in lines.as_slice() {
        page.put_all(&[line.as_str(), "\n"]);
    }
    answers.say_page("lines", &page);
}
