//! The notes of files whose content can't be read.
ghost use Rattle.std.specs.Prelude.{◌≡◌, ◌++◌, ◌∷◌, [], OnOk};
ghost use Rattle.tokei_files.specs.Unread.{unread_note};

use std::alloc::AllocError;
use tokei_walk::{KeptFile, Note, NoteKind};

/// Adds the note of a file that counts in a language and whose content can't be read: it has the
/// path that is shown.
pub fn note_unread(notes: &mut Vec<Note>, file: KeptFile) -> Result<(), AllocError>
    ensures { OnOk result (notes.new.items ≡ notes.old.items ++ unread_note file ∷ []) }
{
    notes.push(Note {
        kind: NoteKind::UnreadContent,
        place: file.path,
    })?;
    Ok(())
}
