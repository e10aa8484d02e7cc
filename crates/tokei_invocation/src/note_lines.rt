//! The notes of a walk as lines of a log.

ghost use Rattle.std.specs.Prelude.{◌≡◌, ◌++◌, ◌∷◌, [], OnOk, OnErr};
ghost use Rattle.tokei_invocation.specs.NoteLines.{level_of, words_of, filter_of, note_line, lines_of, IsBeginning};

use log::sink::Lines;
use log::{Level, LevelFilter, Record};
use std::alloc::AllocError;
use tokei_walk::{Note, NoteKind};

/// How severe a note is.
fn level(kind: NoteKind) -> Level
    ensures { result ≡ level_of kind }
{
    match kind {
        NoteKind::MissingRoot
        | NoteKind::Unlisted
        | NoteKind::UnreadIgnore
        | NoteKind::BadExclude
        | NoteKind::LostEntry
        | NoteKind::UnreadContent
        | NoteKind::UnresolvedRoot => Level::Error,
        NoteKind::BadLine | NoteKind::Unnamed | NoteKind::TooDeep => Level::Warn,
    }
}

/// What a note says of its place.
fn words(kind: NoteKind) -> &'static str
    ensures { result.now ≡ words_of kind }
{
    match kind {
        NoteKind::MissingRoot => "not found",
        NoteKind::Unlisted => "folder can't be listed",
        NoteKind::UnreadIgnore => "ignore file can't be read",
        NoteKind::BadLine => "bad line in ignore file",
        NoteKind::BadExclude => "exclude is no pattern",
        NoteKind::Unnamed => "name isn't UTF-8 in folder",
        NoteKind::TooDeep => "folder too deep",
        NoteKind::LostEntry => "entry can't be told",
        NoteKind::UnreadContent => "file can't be read",
        NoteKind::UnresolvedRoot => "folders above can't be told",
    }
}

/// The levels that are shown where `--verbose` was given so often.
pub(crate) fn filter(verbose: u8) -> LevelFilter
    ensures { result ≡ filter_of verbose }
{
    match verbose {
        1 => LevelFilter::Warn,
        2 => LevelFilter::Debug,
        3 => LevelFilter::Trace,
        _ => LevelFilter::Error,
    }
}

/// Adds the line of a note.
fn push_note(note: &Note, lines: &mut Lines) -> Result<(), AllocError>
    ensures ok { OnOk result (lines.new ≡ lines.old ++ note_line note.now ∷ []) }
    ensures err { OnErr result (lines.new ≡ lines.old) }
{
    let record = Record::builder()
        .level(level(note.kind))
        .target(words(note.kind))
        .args(note.place.as_str())
        .build();
    lines.push(&record)
}

/// Adds, in order, the line of each note whose level is shown where `--verbose` was given so often:
/// errors alone, with 1 warnings too, with 2 or 3 everything, and errors alone with any other
/// count. Where memory is refused a beginning of these lines has been added.
pub fn log_notes(notes: &[Note], verbose: u8, lines: &mut Lines) -> Result<(), AllocError>
    ensures ok { OnOk result (lines.new ≡ lines.old ++ lines_of (filter_of verbose) notes.now) }
    ensures err { OnErr result (IsBeginning (filter_of verbose) lines.old lines.new notes.now) }
{
    let filter = filter(verbose);
    for note in notes {
        if filter.allows(level(note.kind)) {
            push_note(note, lines)?;
        }
    }
    Ok(())
}
