//! Rows of ignore files: what the lines of one decide about a file.
use test_answers::{Answers, Members, Row, RowError, Said};
use tokei_folders::Text;
use tokei_folders::names::names;
use tokei_ignore::{IgnoreFile, Verdict};

/// The members of these rows: an ignore file's text, or its bytes in hexadecimal digits, and the
/// path of a file.
pub const MEMBERS: Members = Members {
    given: &["text", "text_hex", "path"],
    wanted: &["verdict", "bad_lines"],
    optional: &[],
    by_table: false,
};

/// The word for what an ignore file decides about a file of these names.
fn verdict(file: &IgnoreFile, names: &[Text]) -> Option<&'static str> {
    if names.is_empty() {
        return None;
    }
    match file.verdict(names, false) {
        Some(Verdict::Ignore) => Some("ignored"),
        Some(Verdict::Keep) => Some("kept"),
        None => Some("not decided"),
    }
}

/// What the calls answer about an ignore file.
fn came_of_file(file: &IgnoreFile, row: &Row, answers: &mut Answers) {
    let path = answers.text(row, "path");
    if let Some(names) = answers.got(names(answers.alloc, path)) {
        match verdict(file, names.as_slice()) {
            Some(verdict) => answers.say("verdict", Said::Text(verdict)),
            None => answers.fail(RowError::Kind("path", "a path of one name at least")),
        }
    }
    answers.say("bad_lines", Said::Number(file.bad_lines as u128));
}

/// What the calls answer.
pub fn came(row: &Row, answers: &mut Answers) {
    let bytes = answers.bytes(row, "text", "text_hex");
    let made = IgnoreFile::parse(answers.alloc, &bytes);
    if let Ok(file) = &made {
        came_of_file(file, row, answers);
    }
    answers.done(made);
}
