//! What the folders list that are walked, with notes of what is passed over.
ghost use Rattle.std.specs.Prelude.{◌≡◌, ◌++◌, MatchOption, OnOk, IfOk, Ok, Err};
ghost use Rattle.tokei_folders.specs.Answers.{Told, list_answer};
ghost use Rattle.tokei_folders.specs.AsTheyWere.{AsTheyWere};
ghost use Rattle.tokei_folders.specs.declared.fs.Fault.TheVariants.{Refused as RefusedFault};
ghost use Rattle.tokei_folders.specs.Tree.{names_of};
ghost use Rattle.tokei_walk.specs.Noted.{NotesSay, noted_unlisted};
ghost use Rattle.tokei_walk.specs.Notes.{Grows, lost_notes, unnamed_notes, listing_notes};

use crate::kept_file::{Note, NoteKind};
use crate::rules_files::note;
use std::alloc::{AllocError, Global};
use tokei_folders::places::joined;
use tokei_folders::{Fault, Folders, Items, Listing, Text};

/// Leaves a note where a folder has names that aren't UTF-8.
#[tactic(auto, using(crate::proofs::Growing::grows_same))]
fn note_unnamed(
    alloc: Global,
    notes: &mut Items<Note>,
    unnamed: usize,
    place: &str,
) -> Result<(), AllocError>
    ensures unnamed { OnOk result (notes.new ≡ notes.old ++ unnamed_notes place.now unnamed) }
    ensures notes { Grows notes.old notes.new }
{
    if unnamed > 0 {
        note(alloc, notes, NoteKind::Unnamed, place)?;
    }
    Ok(())
}

/// Leaves a note of each entry of a folder that is lost.
#[tactic(auto, using(crate::proofs::Growing::grows_same, crate::proofs::Growing::grows_on))]
fn note_lost(
    alloc: Global,
    notes: &mut Items<Note>,
    lost: &[Text],
    place: &str,
) -> Result<(), AllocError>
    ensures lost { OnOk result (notes.new ≡ notes.old ++ lost_notes place.now lost.now) }
    ensures notes { Grows notes.old notes.new }
{
    for name in lost {
        let place = joined(alloc, place, name.as_str())?;
        let kind = NoteKind::LostEntry;
        notes.push(Note { kind, place })?;
    }
    Ok(())
}

/// What a folder holds, where it can be listed, with notes of what is passed over.
pub fn listing<F: Folders>(
    alloc: Global,
    folders: &mut F,
    notes: &mut Items<Note>,
    place: &str,
) -> Result<Option<Listing>, AllocError>
    ensures folders { AsTheyWere F.tree F.memory_faults folders.old folders.new result }
    ensures noted { IfOk result (λ o. notes.new ≡ notes.old ++ listing_notes place.now o) }
    ensures notes { Grows notes.old notes.new }
    ensures told { Told (F.tree folders.old) (λ t. IfOk result (λ o. MatchOption o
        (list_answer t (names_of place.now) ≡ Err RefusedFault)
        (λ l. list_answer t (names_of place.now) ≡ Ok l.entries.items))) }
    ensures said { Told (F.tree folders.old) (λ t. IfOk result (λ o.
        NotesSay notes.old notes.new (noted_unlisted (names_of place.now) o))) }
{
    match folders.list(place) {
        Ok(listing) => {
            note_unnamed(alloc, notes, listing.unnamed, place)?;
            note_lost(alloc, notes, listing.lost.as_slice(), place)?;
            Ok(Some(listing))
        }
        Err(Fault::Refused) => {
            note(alloc, notes, NoteKind::Unlisted, place)?;
            Ok(None)
        }
        Err(Fault::Memory) => Err(AllocError),
    }
}
