//! Rows of ignore patterns: whether the pattern of a line fits a path.
use test_answers::{Answers, Members, Row, RowError, Said};
use tokei_folders::Text;
use tokei_folders::names::names;
use tokei_ignore::{Pattern, PatternError};

/// The members of these rows: a `line` of an ignore file or an `exclude` of a command line, and a
/// `path` of a file or a `folder`.
pub const MEMBERS: Members = Members {
    given: &["line", "exclude", "path", "folder"],
    wanted: &["answer"],
    optional: &[],
    by_table: false,
};

/// Whether a pattern fits, by both calls.
fn fitting(pattern: &Pattern, names: &[Text], folder: bool) -> &'static str {
    let fits = pattern.fits(names, folder);
    if !names.is_empty() && pattern.matches(names, folder) != fits {
        "one call fits, another doesn't"
    } else if fits {
        "fits"
    } else {
        "doesn't fit"
    }
}

/// What a pattern answers of a path.
fn answer(pattern: &Pattern, path: &str, folder: bool, answers: &mut Answers) -> &'static str {
    match answers.got(names(answers.alloc, path)) {
        Some(names) => fitting(pattern, names.as_slice(), folder),
        None => "",
    }
}

/// What the pattern of the row's line or exclude answers.
pub fn came(row: &Row, answers: &mut Answers) {
    let folder = answers.flag(row, "folder");
    let path = answers.text(row, "path");
    let pattern = if row.has("exclude") {
        Pattern::parse_exclude(answers.alloc, answers.text(row, "exclude"))
    } else {
        Pattern::parse(answers.alloc, answers.text(row, "line"))
    };
    let answer = match &pattern {
        Ok(Some(pattern)) => answer(pattern, path, folder, answers),
        Ok(None) => "no pattern",
        Err(PatternError::Bad) => "bad line",
        Err(PatternError::Memory) => {
            answers.fail(RowError::Memory);
            ""
        }
    };
    answers.say("answer", Said::Text(answer));
}
