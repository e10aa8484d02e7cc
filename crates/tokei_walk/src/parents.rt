//! The folders above a root, and what their rules decide.
ghost use Rattle.std.specs.Prelude.{◌≡◌, ◌++◌, [], ◌∷◌, reverse, map, OnOk, IfOk};
ghost use Rattle.tokei_folders.specs.Answers.{Told, above_view};
ghost use Rattle.tokei_folders.specs.AsTheyWere.{AsTheyWere};
ghost use Rattle.tokei_folders.specs.Tree.{names_of, folders_above};
ghost use Rattle.tokei_walk.specs.Descent.{root_context};
ghost use Rattle.tokei_walk.specs.Levels.{level_at};
ghost use Rattle.tokei_walk.specs.Noted.{NotesSay, noted_above, noted_level, noted_over};
ghost use Rattle.tokei_walk.specs.Notes.{Grows};
ghost use Rattle.tokei_walk.specs.Walks.{names_over, levels_over};

use crate::kept_file::{Note, NoteKind};
use crate::levels::Context;
use crate::rules_files::{note, read_level};
use crate::stack::Settings;
use std::alloc::{AllocError, Global};
use tokei_folders::names::names;
use tokei_folders::{Above, Fault, Folders, Items};

/// The folders above a root, nearest first; none, with a note, where they can't be told.
#[tactic(auto, using(crate::proofs::Growing::grows_same, crate::proofs::Growing::grows_on))]
fn folders_over<F: Folders>(
    alloc: Global,
    folders: &mut F,
    notes: &mut Items<Note>,
    place: &str,
) -> Result<Items<Above>, AllocError>
    ensures folders { AsTheyWere F.tree F.memory_faults folders.old folders.new result }
    ensures notes { Grows notes.old notes.new }
    ensures told { Told (F.tree folders.old) (λ t. IfOk result (λ found.
        map above_view (reverse found) ≡ folders_above [] (names_of place.now))) }
    ensures quiet { Told (F.tree folders.old) (λ t. OnOk result (notes.new ≡ notes.old)) }
{
    match folders.above(place) {
        Ok(found) => Ok(Items::from_vec(found)),
        Err(Fault::Refused) => {
            note(alloc, notes, NoteKind::UnresolvedRoot, place)?;
            Ok(Items::new(alloc))
        }
        Err(Fault::Memory) => Err(AllocError),
    }
}

/// Reads the rules of a folder above, and adds them and its name.
#[tactic(auto, using(crate::proofs::Growing::grows_same, crate::proofs::Growing::grows_on))]
fn read_above<F: Folders>(
    settings: &Settings,
    folders: &mut F,
    notes: &mut Items<Note>,
    above: Above,
    context: &mut Context,
) -> Result<(), AllocError>
    ensures folders { AsTheyWere F.tree F.memory_faults folders.old folders.new result }
    ensures notes { Grows notes.old notes.new }
    ensures shown { OnOk result (context.new.shown ≡ context.old.shown) }
    ensures names { OnOk result (context.new.names ≡ context.old.names ++ above.name ∷ []) }
    ensures levels { Told (F.tree folders.old) (λ t. OnOk result (context.new.levels
        ≡ context.old.levels ++ level_at t settings.now.rules (names_of above.place) ∷ [])) }
    ensures noted { Told (F.tree folders.old) (λ t. OnOk result (NotesSay notes.old notes.new
        (noted_level t settings.now.rules (names_of above.place)))) }
{
    context.names.push(above.name)?;
    let place = above.place.as_str();
    let (alloc, rules) = (settings.alloc, &settings.rules);
    read_level(alloc, folders, notes, rules, place, &mut context.levels)
}

/// Reads the rules of the folders above, from the top down, with the names that lead down.
fn read_over<F: Folders>(
    settings: &Settings,
    folders: &mut F,
    notes: &mut Items<Note>,
    mut found: Items<Above>,
    context: &mut Context,
) -> Result<(), AllocError>
    ensures folders { AsTheyWere F.tree F.memory_faults folders.old folders.new result }
    ensures notes { Grows notes.old notes.new }
    ensures shown { OnOk result (context.new.shown ≡ context.old.shown) }
    ensures names { OnOk result (context.new.names ≡ context.old.names ++ names_over found) }
    ensures levels { Told (F.tree folders.old) (λ t. OnOk result (context.new.levels
        ≡ context.old.levels ++ levels_over t settings.now.rules found)) }
    ensures noted { Told (F.tree folders.old) (λ t. OnOk result
        (NotesSay notes.old notes.new (noted_over t settings.now.rules found))) }
{
    while let Some(above) = found.pop() {
        read_above(settings, folders, notes, above, context)?;
    }
    Ok(())
}

/// Makes the context that of a root's entries, but for the rules of the root itself.
pub fn set_root_context<F: Folders>(
    settings: &Settings,
    folders: &mut F,
    notes: &mut Items<Note>,
    root: &str,
    context: &mut Context,
) -> Result<(), AllocError>
    ensures folders { AsTheyWere F.tree F.memory_faults folders.old folders.new result }
    ensures notes { Grows notes.old notes.new }
    ensures told { Told (F.tree folders.old) (λ t. OnOk result
        (context.new ≡ root_context t settings.now.rules (names_of root.now))) }
    ensures noted { Told (F.tree folders.old) (λ t. OnOk result (NotesSay notes.old notes.new
        (noted_above t settings.now.rules (names_of root.now)))) }
{
    context.levels.clear();
    context.names.clear();
    context.shown = names(settings.alloc, root)?;
    if !settings.rules.parents {
        return Ok(());
    }
    let found = folders_over(settings.alloc, folders, notes, root)?;
    read_over(settings, folders, notes, found, context)
}
