//! How notes are shown: with why their places gave no answer, where that is known, and with what
//! controls a terminal escaped.
ghost use Rattle.std.specs.Prelude.{◌≡◌, [], false, IfOk, map, string_bytes};
ghost use Rattle.tokei_folders.specs.Answers.{Told};
ghost use Rattle.tokei_invocation.specs.Shown.{AreShown, IsShown, followed, is_of_refusal, shown_note};

use std::alloc::{AllocError, Global};
use tokei_folders::{Folders, Text};
use tokei_stats::shown::shown;
use tokei_walk::{Note, NoteKind};

/// A text, with words behind it, where there are some.
pub fn followed(alloc: Global, text: &str, words: &str) -> Result<String, AllocError>
    ensures { IfOk result (λ whole. string_bytes whole ≡ followed text.now words.now) }
{
    if words.is_empty() {
        return String::from_str(alloc, text);
    }
    let words = shown(alloc, words)?;
    format!(in alloc; "{text}: {words}")
}

/// Whether a note of this kind says that a call on its place was refused.
fn is_of_refusal(kind: NoteKind) -> bool
    ensures { result ≡ is_of_refusal kind }
{
    match kind {
        NoteKind::MissingRoot
        | NoteKind::Unlisted
        | NoteKind::UnreadIgnore
        | NoteKind::LostEntry
        | NoteKind::UnreadContent
        | NoteKind::UnresolvedRoot => true,
        NoteKind::BadLine | NoteKind::BadExclude | NoteKind::Unnamed | NoteKind::TooDeep => false,
    }
}

/// Why a call on a note's place was refused, in the words that the folders have for it; empty where
/// none was, or they have none.
fn cause<F: Folders>(alloc: Global, folders: &F, note: &Note) -> Result<String, AllocError>
    ensures none { is_of_refusal note.now.kind ≡ false
        → IfOk result (λ text. string_bytes text ≡ []) }
    ensures silent { Told (F.tree folders.now) (λ t. IfOk result (λ text.
        string_bytes text ≡ [])) }
{
    if !is_of_refusal(note.kind) {
        return Ok(String::new(alloc));
    }
    folders.cause_at(alloc, note.place.as_str())
}

/// A note as it is shown, with why its place gave no answer.
fn shown_note<F: Folders>(alloc: Global, folders: &F, note: &Note) -> Result<Note, AllocError>
    ensures some { IfOk result (IsShown note.now) }
    ensures silent { Told (F.tree folders.now) (λ t. IfOk result (λ n. n ≡ shown_note note.now)) }
{
    let words = cause(alloc, folders, note)?;
    let place = shown(alloc, note.place.as_str())?;
    let place = followed(alloc, place.as_str(), words.as_str())?;
    Ok(Note {
        kind: note.kind,
        place: Text::from_string(place),
    })
}

/// The notes as they are shown, each with why its place gave no answer, where the folders have
/// words for that.
pub fn shown_notes<F: Folders>(
    alloc: Global,
    folders: &F,
    notes: &[Note],
) -> Result<Vec<Note>, AllocError>
    ensures some { IfOk result (λ v. AreShown notes.now v.items) }
    ensures silent { Told (F.tree folders.now) (λ t. IfOk result (λ v.
        v.items ≡ map shown_note notes.now)) }
{
    let mut all = Vec::with_capacity(alloc, notes.len())?;
    for note in notes {
        all.push(shown_note(alloc, folders, note)?)?;
    }
    Ok(all)
}
