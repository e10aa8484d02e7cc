//! The folders that are walked, and the way through them.
ghost use Rattle.std.specs.Prelude.{◌≡◌, ◌<◌, ◌+◌, ◌-◌, ◌^◌, ◌++◌, [], ◌∷◌, length, reverse, cond, OnOk, OnSome, IfOk, IfSome, Err, None, true, false};
ghost use Rattle.std.specs.Bool.{MatchBool};
ghost use Rattle.tokei_walk.specs.MetSteps.{ExploreMeets, Meets, StepMeets, VisitMeets, met_visit, noted_entering};
ghost use Rattle.tokei_walk.specs.ToMeet.{met_top};
ghost use Rattle.tokei_walk.specs.Noted.{NotesSay};
ghost use Rattle.tokei_walk.specs.Notes.{Grows};
ghost use Rattle.tokei_folders.specs.Answers.{Told, list_answer};
ghost use Rattle.tokei_folders.specs.AsTheyWere.{AsTheyWere};
ghost use Rattle.tokei_folders.specs.declared.fs.Fault.TheVariants.{Refused as RefusedFault};
ghost use Rattle.tokei_folders.specs.Places.{joined as joined_places};
ghost use Rattle.tokei_folders.specs.Tree.{Tree, names_of};
ghost use Rattle.tokei_walk.specs.Kept.{greatest_depth};
ghost use Rattle.tokei_walk.specs.Levels.{drops, under};
ghost use Rattle.tokei_walk.specs.Descent.{without_name};
ghost use Rattle.tokei_walk.specs.Walks.{is_spent as spent};
ghost use Rattle.tokei_walk.specs.Ranks.{weight, stack_rank, FoundFalls};
ghost use Rattle.tokei_walk.specs.Stacks.{Pops, Leaves, Enters, EntersTold, StepStays, NoneStays, NoneIsSame, at_entry, file_kept};

use crate::kept_file::{KeptFile, Note, NoteKind};
use crate::levels::{Context, Rules, judge};
use crate::listings::listing;
use crate::rules_files::{read_sought, sought_among};
use std::alloc::{AllocError, Global};
use std::mem;
use tokei_folders::places::joined;
use tokei_folders::{Entry, Folders, Items, Kind, Text};
use tokei_ignore::Pattern;

/// The greatest depth below its root at which a folder is entered.
const MAX_DEPTH: usize = 256;

/// A folder that is entered and not yet left.
#[derive(Drop)]
pub struct Frame {
    pub place: Text,
    /// Its entries that are still to be met, the last one first.
    pub left: Items<Entry>,
}

/// The folder that is walked, and those that hold it.
#[derive(Drop)]
pub struct Stack {
    /// Where the walked folder stands.
    pub context: Context,
    pub place: Text,
    /// Its entries that are still to be met, the last one first.
    pub left: Items<Entry>,
    /// The folders that hold it, from the root down.
    pub holders: Items<Frame>,
}

/// What every step of a walk goes by.
#[derive(Drop)]
pub struct Settings {
    pub alloc: Global,
    pub rules: Rules,
    pub excludes: Items<Pattern>,
}

impl Stack {
    /// Whether nothing is left.
    pub fn is_spent(&self) -> bool
        ensures { result ≡ spent self.now }
    {
        self.left.is_empty() && self.holders.is_empty()
    }
}

/// Takes the next entry of the walked folder.
fn next_entry(stack: &mut Stack) -> Option<Entry>
    ensures { Pops stack.old stack.new result }
{
    stack.left.pop()
}

/// Goes back to the folder that holds the walked one; whether there was one.
pub fn leave(stack: &mut Stack) -> bool
    ensures { Leaves stack.old stack.new result }
{
    let Some(frame) = stack.holders.pop() else {
        return false;
    };
    stack.place = frame.place;
    stack.left = frame.left;
    stack.context.levels.drop_last();
    stack.context.names.drop_last();
    stack.context.shown.drop_last();
    true
}

/// Adds an entry's name to the context.
fn push_name(alloc: Global, context: &mut Context, name: Text) -> Result<(), AllocError>
    ensures { OnOk result (context.new ≡ under context.old name) }
{
    context.shown.push(Text::from_str(alloc, name.as_str())?)?;
    context.names.push(name)?;
    Ok(())
}

/// Whether an entry of the walked folder is dropped, and its name, which is given back.
fn consider(
    settings: &Settings,
    context: &mut Context,
    name: Text,
    is_folder: bool,
) -> Result<(bool, Text), AllocError>
    ensures context { OnOk result (context.new ≡ context.old) }
    ensures dropped { IfOk result (λ p.
        p.0 ≡ drops settings.now.excludes settings.now.rules context.old name is_folder) }
    ensures name { IfOk result (λ p. p.1 ≡ name) }
{
    judge(
        settings.excludes.as_slice(),
        &settings.rules,
        context,
        name,
        is_folder,
    )
}

/// Takes an entry's name off the context.
pub fn forget(context: &mut Context)
    ensures { context.new ≡ without_name context.old }
{
    context.names.drop_last();
    context.shown.drop_last();
}

/// What a step over one entry gives.
#[derive(Drop)]
pub enum Step {
    Found(KeptFile),
    Passed,
    /// No entry is left.
    Ended,
}

/// Walks another folder; whether it can be listed.
pub fn enter<F: Folders>(
    settings: &Settings,
    folders: &mut F,
    notes: &mut Items<Note>,
    stack: &mut Stack,
    place: Text,
) -> Result<bool, AllocError>
    ensures folders { AsTheyWere F.tree F.memory_faults folders.old folders.new result }
    ensures notes { Grows notes.old notes.new }
    ensures refused { IfOk result (λ b. b ≡ false → stack.new ≡ stack.old) }
    ensures entered { IfOk result (λ b. b ≡ true → Enters stack.old stack.new place) }
    ensures told { Told (F.tree folders.old) (λ t. IfOk result (λ b. MatchBool b
        (EntersTold t settings.now.rules stack.old stack.new place)
        (list_answer t (names_of place) ≡ Err RefusedFault))) }
    ensures noted { Told (F.tree folders.old) (λ t. IfOk result (λ b. NotesSay notes.old notes.new
        (noted_entering t settings.now.rules place b))) }
{
    let alloc = settings.alloc;
    let Some(listing) = listing(alloc, folders, notes, place.as_str())? else {
        return Ok(false);
    };
    let sought = sought_among(&settings.rules, listing.entries.as_slice());
    push_folder(stack, place, Items::from_vec(listing.entries))?;
    let place = stack.place.as_str();
    read_sought(
        alloc,
        folders,
        notes,
        sought,
        place,
        &mut stack.context.levels,
    )?;
    Ok(true)
}

/// Walks a folder with these entries; its rules are still to be added.
fn push_folder(stack: &mut Stack, place: Text, mut entries: Items<Entry>) -> Result<(), AllocError>
    ensures context { OnOk result (stack.new.context ≡ stack.old.context) }
    ensures place { OnOk result (stack.new.place ≡ place) }
    ensures entries { OnOk result (reverse stack.new.left ≡ entries) }
    ensures few { OnOk result (length stack.new.left < 2 ^ 64) }
    ensures holders { OnOk result (stack.new.holders ≡ stack.old.holders
        ++ record { place = stack.old.place; left = stack.old.left } ∷ []) }
{
    entries.reverse();
    let left = mem::replace(&mut stack.left, entries);
    let place = mem::replace(&mut stack.place, place);
    stack.holders.push(Frame { place, left })?;
    Ok(())
}

/// Adds the name of an entry that is a folder to the context; its place, or none where it is
/// dropped or stands too deep.
#[tactic(auto, using(crate::proofs::Growing::grows_same, crate::proofs::Growing::grows_on))]
fn push_folder_name(
    settings: &Settings,
    notes: &mut Items<Note>,
    stack: &mut Stack,
    name: Text,
) -> Result<Option<Text>, AllocError>
    ensures notes { Grows notes.old notes.new }
    ensures place { IfOk result (λ o. IfSome o
        (λ p. p ≡ joined_places stack.old.place name)) }
    ensures named { IfOk result (λ o. OnSome o (stack.new ≡ at_entry stack.old name)) }
    ensures shallow { IfOk result (λ o. OnSome o (length stack.old.holders < greatest_depth)) }
    ensures kept { IfOk result (λ o. OnSome o
        (drops settings.now.excludes settings.now.rules stack.old.context name true ≡ false)) }
    ensures same { IfOk result (λ o. o ≡ None → stack.new ≡ stack.old) }
    ensures met { IfOk result (λ o. o ≡ None → (t : Tree) → Meets notes.old
        (met_visit settings.now.excludes settings.now.rules t stack.old name
        (joined_places stack.old.place name)) notes.new []) }
    ensures quiet { IfOk result (λ o. OnSome o (notes.new ≡ notes.old)) }
{
    let (dropped, name) = consider(settings, &mut stack.context, name, true)?;
    if dropped {
        return Ok(None);
    }
    let place = joined(settings.alloc, stack.place.as_str(), name.as_str())?;
    if stack.holders.len() >= MAX_DEPTH {
        let kind = NoteKind::TooDeep;
        notes.push(Note { kind, place })?;
        return Ok(None);
    }
    push_name(settings.alloc, &mut stack.context, name)?;
    Ok(Some(place))
}

/// Walks the folder of an entry, whose name this is; whether it is walked. One that is dropped,
/// stands too deep or can't be listed isn't.
fn enter_entry<F: Folders>(
    settings: &Settings,
    folders: &mut F,
    notes: &mut Items<Note>,
    stack: &mut Stack,
    name: Text,
) -> Result<bool, AllocError>
    ensures folders { AsTheyWere F.tree F.memory_faults folders.old folders.new result }
    ensures notes { Grows notes.old notes.new }
    ensures refused { IfOk result (λ b. b ≡ false → stack.new ≡ stack.old) }
    ensures shallow { IfOk result (λ b. b ≡ true → length stack.old.holders < greatest_depth) }
    ensures entered { IfOk result (λ b. b ≡ true
        → Enters (at_entry stack.old name) stack.new (joined_places stack.old.place name)) }
    ensures met { Told (F.tree folders.old) (λ t. IfOk result (λ b. Meets notes.old
        (met_visit settings.now.excludes settings.now.rules t stack.old name
        (joined_places stack.old.place name)) notes.new
        (cond b (met_top settings.now.excludes settings.now.rules t stack.new) []))) }
{
    let Some(place) = push_folder_name(settings, notes, stack, name)? else {
        return Ok(false);
    };
    if enter(settings, folders, notes, stack, place)? {
        return Ok(true);
    }
    forget(&mut stack.context);
    Ok(false)
}

/// Explores the folder of an entry, whose name this is, and leaves it again where it gives no file.
#[cycle(exploring)]
fn visit<F: Folders>(
    settings: &Settings,
    folders: &mut F,
    notes: &mut Items<Note>,
    stack: &mut Stack,
    name: Text,
) -> Result<Option<KeptFile>, AllocError>
    ensures folders { AsTheyWere F.tree F.memory_faults folders.old folders.new result }
    ensures notes { Grows notes.old notes.new }
    ensures stays { IfOk result (λ o. NoneIsSame stack.old stack.new o) }
    ensures falls { IfOk result (λ o. OnSome o (stack_rank stack.new
        < stack_rank stack.old + weight (greatest_depth - length stack.old.holders))) }
    ensures met { Told (F.tree folders.old) (λ t. IfOk result (λ o.
        VisitMeets settings.now.excludes settings.now.rules t stack.old stack.new notes.old
        notes.new name (joined_places stack.old.place name) o)) }
{
    if !enter_entry(settings, folders, notes, stack, name)? {
        return Ok(None);
    }
    match explore(settings, folders, notes, stack)? {
        Some(file) => Ok(Some(file)),
        None => {
            leave(stack);
            Ok(None)
        }
    }
}

/// Meets the next entry of the walked folder.
#[cycle(exploring)]
fn meet_next<F: Folders>(
    settings: &Settings,
    folders: &mut F,
    notes: &mut Items<Note>,
    stack: &mut Stack,
) -> Result<Step, AllocError>
    ensures folders { AsTheyWere F.tree F.memory_faults folders.old folders.new result }
    ensures notes { Grows notes.old notes.new }
    ensures stays { IfOk result (λ s. StepStays stack.old stack.new s) }
    ensures falls { IfOk result (λ s. FoundFalls stack.old stack.new s) }
    ensures met { Told (F.tree folders.old) (λ t. IfOk result (λ s. StepMeets
        settings.now.excludes settings.now.rules t stack.old stack.new notes.old notes.new s)) }
{
    let Some(entry) = next_entry(stack) else {
        return Ok(Step::Ended);
    };
    match entry.kind {
        Kind::Other => Ok(Step::Passed),
        Kind::File => file_step(settings, stack, entry.name),
        Kind::Folder => match visit(settings, folders, notes, stack, entry.name)? {
            Some(file) => Ok(Step::Found(file)),
            None => Ok(Step::Passed),
        },
    }
}

/// The next file below the walked folder, which stays where there is none.
#[cycle(exploring)]
pub fn explore<F: Folders>(
    settings: &Settings,
    folders: &mut F,
    notes: &mut Items<Note>,
    stack: &mut Stack,
) -> Result<Option<KeptFile>, AllocError>
    ensures folders { AsTheyWere F.tree F.memory_faults folders.old folders.new result }
    ensures notes { Grows notes.old notes.new }
    ensures stays { IfOk result (λ o. NoneStays stack.old stack.new o) }
    ensures falls { IfOk result (λ o. OnSome o (stack_rank stack.new < stack_rank stack.old)) }
    ensures met { Told (F.tree folders.old) (λ t. IfOk result (λ o. ExploreMeets
        settings.now.excludes settings.now.rules t stack.old stack.new notes.old notes.new o)) }
{
    loop {
        match meet_next(settings, folders, notes, stack)? {
            Step::Found(file) => return Ok(Some(file)),
            Step::Passed => {}
            Step::Ended => return Ok(None),
        }
    }
}

/// Keeps a file, unless it is dropped.
fn file_step(settings: &Settings, stack: &mut Stack, name: Text) -> Result<Step, AllocError>
    ensures stays { OnOk result (stack.new ≡ stack.old) }
    ensures kept { IfOk result (λ s. s ≡ file_kept (drops settings.now.excludes settings.now.rules
        stack.old.context name false) (joined_places stack.old.place name)) }
{
    let (dropped, name) = consider(settings, &mut stack.context, name, false)?;
    if dropped {
        return Ok(Step::Passed);
    }
    let place = joined(settings.alloc, stack.place.as_str(), name.as_str())?;
    let path = Text::from_str(settings.alloc, place.as_str())?;
    Ok(Step::Found(KeptFile { path, place }))
}
