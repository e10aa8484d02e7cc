//! All kept files at once.
ghost use Rattle.std.specs.Prelude.{◌≡◌, IfOk, OnOk};
ghost use Rattle.tokei_folders.specs.Answers.{Told};
ghost use Rattle.tokei_folders.specs.AsTheyWere.{AsTheyWere};
ghost use Rattle.tokei_walk.specs.Kept.{kept_in};
ghost use Rattle.tokei_walk.specs.Met.{noted_in};
ghost use Rattle.tokei_walk.specs.Noted.{NotesSay};
ghost use Rattle.tokei_walk.specs.Notes.{Grows, notes_of, notes_of_excludes};
ghost use Rattle.tokei_walk.specs.Walks.{excludes_of, noted_to_come, texts_of, to_come};

use crate::kept_file::{KeptFile, Note};
use crate::levels::Rules;
use crate::walking::Walk;
use std::alloc::{AllocError, Global};
use tokei_folders::{Folders, Items};

/// The files that the ignore rules keep, and what was passed over.
#[derive(Drop)]
pub struct Kept {
    pub files: Vec<KeptFile>,
    pub notes: Vec<Note>,
}

/// The files that a walk still has to come.
fn files_to_come<F: Folders>(
    alloc: Global,
    folders: &mut F,
    walk: &mut Walk,
) -> Result<Vec<KeptFile>, AllocError>
    ensures folders { AsTheyWere F.tree F.memory_faults folders.old folders.new result }
    ensures told { Told (F.tree folders.old) (λ t. IfOk result
        (λ files. files.items ≡ to_come t walk.old)) }
    ensures notes { Grows (notes_of walk.old) (notes_of walk.new) }
    ensures noted { Told (F.tree folders.old) (λ t. OnOk result
        (NotesSay (notes_of walk.old) (notes_of walk.new) (noted_to_come t walk.old))) }
{
    let mut files = Items::new(alloc);
    while let Some(file) = walk.next(folders)? {
        files.push(file)?;
    }
    Ok(files.into_vec())
}

/// All files that the ignore rules keep: the roots that are files, and those below a root, which a
/// filter of all places keeps, in order of the roots and of the places. The notes are those of bad
/// excludes, and then of what the walk passes over, as it meets it. It is refused out of memory
/// alone.
pub fn kept_files<F: Folders>(
    alloc: Global,
    folders: &mut F,
    roots: &[String],
    excludes: &[String],
    rules: &Rules,
) -> Result<Kept, AllocError>
    ensures folders { AsTheyWere F.tree F.memory_faults folders.old folders.new result }
    ensures told { Told (F.tree folders.old) (λ t. IfOk result (λ k. k.files.items
        ≡ kept_in (excludes_of (texts_of excludes.now)) rules.now t (texts_of roots.now))) }
    ensures notes { IfOk result (λ k. Grows (notes_of_excludes (texts_of excludes.now))
        k.notes.items) }
    ensures noted { Told (F.tree folders.old) (λ t. IfOk result (λ k.
        NotesSay (notes_of_excludes (texts_of excludes.now)) k.notes.items
        (noted_in (excludes_of (texts_of excludes.now)) rules.now t (texts_of roots.now)))) }
{
    let mut walk = Walk::new(alloc, roots, excludes, rules)?;
    let files = files_to_come(alloc, folders, &mut walk);
    let notes = walk.into_notes();
    Ok(Kept {
        files: files?,
        notes,
    })
}
