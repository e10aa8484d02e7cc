//! The beginning of a root.
ghost use Rattle.std.specs.Prelude.{◌≡◌, ◌<◌, ◌≤◌, ◌+◌, ◌^◌, ◌++◌, [], ◌∷◌, true, false, None, length, reverse, OnOk, IfOk};
ghost use Rattle.tokei_folders.specs.Answers.{Told, node_kind};
ghost use Rattle.tokei_folders.specs.AsTheyWere.{AsTheyWere};
ghost use Rattle.tokei_folders.specs.Tree.{names_of, node_at};
ghost use Rattle.tokei_ignore.specs.Fits.{is_empty};
ghost use Rattle.tokei_walk.specs.Descent.{root_context, with_level};
ghost use Rattle.tokei_walk.specs.Kept.{most_names};
ghost use Rattle.tokei_walk.specs.Met.{met_folder, met_root};
ghost use Rattle.tokei_walk.specs.MetSteps.{Meets, with_found};
ghost use Rattle.tokei_walk.specs.ToMeet.{met_stack};
ghost use Rattle.tokei_walk.specs.Noted.{NotesSay, noted_above, noted_of};
ghost use Rattle.tokei_walk.specs.Notes.{Grows, missing_note};
ghost use Rattle.tokei_walk.specs.Ranks.{weight, stack_rank};
ghost use Rattle.tokei_walk.specs.Sought.{level_of};
ghost use Rattle.tokei_walk.specs.Walks.{RootIs, file_of_root, texts_of};

use crate::kept_file::{KeptFile, Note, NoteKind};
use crate::levels::Context;
use crate::listings::listing;
use crate::parents::set_root_context;
use crate::rules_files::{Sought, read_sought, sought_among};
use crate::stack::{Settings, Stack};
use std::alloc::{AllocError, Global};
use tokei_folders::{Entry, Fault, Folders, Items, Kind, Text};

/// A copy of the roots.
pub fn copied_roots(alloc: Global, roots: &[String]) -> Result<Items<Text>, AllocError>
    ensures { IfOk result (λ rs. rs ≡ texts_of roots.now) }
{
    let mut copies = Items::new(alloc);
    for root in roots {
        copies.push(Text::from_str(alloc, root.as_str())?)?;
    }
    Ok(copies)
}

/// Makes the context that of a root's entries, with the rules of the root itself, by those of its
/// ignore files that are sought.
fn set_context_in_root<F: Folders>(
    settings: &Settings,
    folders: &mut F,
    notes: &mut Items<Note>,
    sought: Sought,
    root: &str,
    context: &mut Context,
) -> Result<(), AllocError>
    ensures folders { AsTheyWere F.tree F.memory_faults folders.old folders.new result }
    ensures notes { Grows notes.old notes.new }
    ensures told { Told (F.tree folders.old) (λ t. OnOk result (context.new
        ≡ with_level (root_context t settings.now.rules (names_of root.now))
        (level_of t sought (names_of root.now)))) }
    ensures noted { Told (F.tree folders.old) (λ t. OnOk result (NotesSay notes.old notes.new
        (noted_above t settings.now.rules (names_of root.now)
        ++ noted_of t sought (names_of root.now)))) }
{
    set_root_context(settings, folders, notes, root, context)?;
    read_sought(
        settings.alloc,
        folders,
        notes,
        sought,
        root,
        &mut context.levels,
    )
}

/// Walks a root with these entries in place of all that is walked; its context is still to be made.
fn walk_root(stack: &mut Stack, place: Text, entries: Vec<Entry>)
    ensures context { stack.new.context ≡ stack.old.context }
    ensures place { stack.new.place ≡ place }
    ensures entries { reverse stack.new.left ≡ entries.items }
    ensures few { length stack.new.left < 2 ^ 64 }
    ensures holders { stack.new.holders ≡ [] }
{
    let mut left = Items::from_vec(entries);
    left.reverse();
    stack.place = place;
    stack.left = left;
    stack.holders.clear();
}

/// Walks a root that is a folder.
fn enter_root<F: Folders>(
    settings: &Settings,
    folders: &mut F,
    notes: &mut Items<Note>,
    stack: &mut Stack,
    root: Text,
) -> Result<(), AllocError>
    ensures folders { AsTheyWere F.tree F.memory_faults folders.old folders.new result }
    ensures notes { Grows notes.old notes.new }
    ensures holders { OnOk result (length stack.new.holders ≤ length stack.old.holders) }
    ensures bounded { OnOk result
        (stack_rank stack.new < stack_rank stack.old + weight most_names) }
    ensures met { Told (F.tree folders.old) (λ t. OnOk result
        (stack.old.left ≡ [] → stack.old.holders ≡ [] → Meets notes.old
        (met_folder settings.now.excludes settings.now.rules t root) notes.new
        (met_stack settings.now.excludes settings.now.rules t stack.new))) }
{
    let Some(listing) = listing(settings.alloc, folders, notes, root.as_str())? else {
        return Ok(());
    };
    let sought = sought_among(&settings.rules, listing.entries.as_slice());
    walk_root(stack, root, listing.entries);
    let place = stack.place.as_str();
    set_context_in_root(settings, folders, notes, sought, place, &mut stack.context)
}

fn is_empty_place(text: &Text) -> bool
    ensures { result ≡ is_empty text.now }
{
    match text.as_str().as_bytes() {
        [] => true,
        _ => false,
    }
}

/// What stands at a root, where anything does; at an empty one nothing does.
fn kind_of_root<F: Folders>(folders: &mut F, root: &Text) -> Result<Option<Kind>, AllocError>
    ensures folders { AsTheyWere F.tree F.memory_faults folders.old folders.new result }
    ensures empty { IfOk result (λ k. is_empty root.now ≡ true → k ≡ None) }
    ensures told { Told (F.tree folders.old) (λ t. IfOk result (λ k. is_empty root.now ≡ false
        → k ≡ node_kind (node_at t (names_of root.now)))) }
{
    if is_empty_place(root) {
        return Ok(None);
    }
    match folders.kind(root.as_str()) {
        Ok(kind) => Ok(Some(kind)),
        Err(Fault::Refused) => Ok(None),
        Err(Fault::Memory) => Err(AllocError),
    }
}

/// A root, and what stands there.
#[derive(Drop)]
struct Root {
    place: Text,
    kind: Option<Kind>,
}

/// Begins a root of which that is known: a file is answered, a folder is walked, one where nothing
/// stands leaves a note, and one of another kind is passed over.
#[tactic(auto, using(crate::proofs::Growing::grows_same, crate::proofs::Growing::grows_on))]
fn begin_known<F: Folders>(
    settings: &Settings,
    folders: &mut F,
    notes: &mut Items<Note>,
    stack: &mut Stack,
    root: Root,
) -> Result<Option<KeptFile>, AllocError>
    ensures folders { AsTheyWere F.tree F.memory_faults folders.old folders.new result }
    ensures notes { Grows notes.old notes.new }
    ensures missing { root.kind ≡ None → OnOk result
        (notes.new ≡ notes.old ++ missing_note root.place ∷ []) }
    ensures kept { IfOk result (λ o. o ≡ file_of_root root.kind root.place) }
    ensures holders { OnOk result (length stack.new.holders ≤ length stack.old.holders) }
    ensures bounded { OnOk result
        (stack_rank stack.new < stack_rank stack.old + weight most_names) }
    ensures met { Told (F.tree folders.old) (λ t. RootIs t root.place root.kind
        → IfOk result (λ o. stack.old.left ≡ [] → stack.old.holders ≡ [] → Meets notes.old
        (met_root settings.now.excludes settings.now.rules t root.place) notes.new
        (with_found o (met_stack settings.now.excludes settings.now.rules t stack.new)))) }
{
    let alloc = settings.alloc;
    let Root { place, kind } = root;
    match kind {
        None => {
            let kind = NoteKind::MissingRoot;
            notes.push(Note { kind, place })?;
            Ok(None)
        }
        Some(Kind::File) => {
            let path = Text::from_str(alloc, place.as_str())?;
            Ok(Some(KeptFile { path, place }))
        }
        Some(Kind::Folder) => {
            enter_root(settings, folders, notes, stack, place)?;
            Ok(None)
        }
        Some(Kind::Other) => Ok(None),
    }
}

/// Begins a root.
#[tactic(auto, using(crate::proofs::Growing::grows_same, crate::proofs::Growing::grows_on))]
pub fn begin_root<F: Folders>(
    settings: &Settings,
    folders: &mut F,
    notes: &mut Items<Note>,
    stack: &mut Stack,
    root: Text,
) -> Result<Option<KeptFile>, AllocError>
    ensures folders { AsTheyWere F.tree F.memory_faults folders.old folders.new result }
    ensures notes { Grows notes.old notes.new }
    ensures holders { OnOk result (length stack.new.holders ≤ length stack.old.holders) }
    ensures bounded { OnOk result
        (stack_rank stack.new < stack_rank stack.old + weight most_names) }
    ensures met { Told (F.tree folders.old) (λ t. IfOk result (λ o.
        stack.old.left ≡ [] → stack.old.holders ≡ [] → Meets notes.old
        (met_root settings.now.excludes settings.now.rules t root) notes.new
        (with_found o (met_stack settings.now.excludes settings.now.rules t stack.new)))) }
{
    let kind = kind_of_root(folders, &root)?;
    let root = Root { place: root, kind };
    begin_known(settings, folders, notes, stack, root)
}
