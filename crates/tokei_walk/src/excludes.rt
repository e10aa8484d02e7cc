//! The patterns of the excludes.
ghost use Rattle.std.specs.Prelude.{◌≡◌, ◌++◌, OnOk, IfOk};
ghost use Rattle.tokei_walk.specs.Notes.{exclude_notes, notes_of_excludes};
ghost use Rattle.tokei_walk.specs.Walks.{exclude_patterns, excludes_of, texts_of};

use crate::kept_file::{Note, NoteKind};
use crate::rules_files::note;
use std::alloc::{AllocError, Global};
use tokei_folders::Items;
use tokei_ignore::{Pattern, PatternError};

/// Adds the pattern of an exclude, where it has one.
fn push_exclude(
    alloc: Global,
    notes: &mut Items<Note>,
    excludes: &mut Items<Pattern>,
    text: &str,
) -> Result<(), AllocError>
    ensures patterns { OnOk result (excludes.new ≡ excludes.old ++ exclude_patterns text.now) }
    ensures notes { OnOk result (notes.new ≡ notes.old ++ exclude_notes text.now) }
{
    match Pattern::parse_exclude(alloc, text) {
        Ok(Some(pattern)) => {
            excludes.push(pattern)?;
            Ok(())
        }
        Ok(None) => Ok(()),
        Err(PatternError::Bad) => note(alloc, notes, NoteKind::BadExclude, text),
        Err(PatternError::Memory) => Err(AllocError),
    }
}

/// The patterns of the excludes.
#[tactic(auto, unfolding(crate::specs::Walks::excludes_of, crate::specs::Notes::notes_of_excludes))]
pub fn read_excludes(
    alloc: Global,
    notes: &mut Items<Note>,
    texts: &[String],
) -> Result<Items<Pattern>, AllocError>
    ensures patterns { IfOk result (λ ps. ps ≡ excludes_of (texts_of texts.now)) }
    ensures notes { OnOk result (notes.new ≡ notes.old ++ notes_of_excludes (texts_of texts.now)) }
{
    let mut excludes = Items::new(alloc);
    for text in texts {
        push_exclude(alloc, notes, &mut excludes, text.as_str())?;
    }
    Ok(excludes)
}
