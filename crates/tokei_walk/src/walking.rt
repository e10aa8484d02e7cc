//! A walk that answers one kept file at a time.
ghost use Rattle.std.specs.Prelude.{◌≡◌, ◌<◌, [], true, false, None, Ok, OnOk, OnErr, OnSome, IfOk};
ghost use Rattle.tokei_folders.specs.Answers.{Told};
ghost use Rattle.tokei_folders.specs.AsTheyWere.{AsTheyWere};
ghost use Rattle.tokei_folders.specs.Tree.{Tree, is_sound};
ghost use Rattle.tokei_walk.specs.Kept.{kept_in};
ghost use Rattle.tokei_walk.specs.Met.{met_in, noted_in};
ghost use Rattle.tokei_walk.specs.MetSteps.{Meets, file_of, with_found};
ghost use Rattle.tokei_walk.specs.ToMeet.{met_all};
ghost use Rattle.tokei_walk.specs.Noted.{NotesCome};
ghost use Rattle.tokei_walk.specs.Notes.{Grows, notes_of, notes_of_excludes};
ghost use Rattle.tokei_walk.specs.Ranks.{all_rank, rank};
ghost use Rattle.tokei_walk.specs.Turns.{TurnFalls};
ghost use Rattle.tokei_walk.specs.Walks.{to_come, met_to_come, noted_to_come, has_failed as walk_failed, is_over as over_now, Advances, HasEnded, excludes_of, texts_of};

use crate::excludes::read_excludes;
use crate::kept_file::{KeptFile, Note};
use crate::levels::{Context, Rules};
use crate::roots::{begin_root, copied_roots};
use crate::stack::{Settings, Stack, Step, explore, leave};
use std::alloc::{AllocError, Global};
use tokei_folders::{Folders, Items, Text};

/// Goes on where the walked folder has nothing left: in the folder that holds it or, where none
/// does, in the next root.
#[tactic(auto, using(crate::proofs::Growing::grows_same, crate::proofs::Growing::grows_on))]
fn go_on<F: Folders>(
    settings: &Settings,
    folders: &mut F,
    notes: &mut Items<Note>,
    stack: &mut Stack,
    roots: &mut Items<Text>,
) -> Result<Step, AllocError>
    requires { stack.old.left ≡ [] }
    ensures folders { AsTheyWere F.tree F.memory_faults folders.old folders.new result }
    ensures notes { Grows notes.old notes.new }
    ensures falls { IfOk result (λ s.
        TurnFalls stack.old roots.old stack.new roots.new s) }
    ensures met { Told (F.tree folders.old) (λ t. IfOk result (λ s. Meets notes.old
        (met_all settings.now.excludes settings.now.rules t stack.old roots.old) notes.new
        (with_found (file_of s)
        (met_all settings.now.excludes settings.now.rules t stack.new roots.new)))) }
{
    if leave(stack) {
        return Ok(Step::Passed);
    }
    let Some(root) = roots.pop() else {
        return Ok(Step::Ended);
    };
    match begin_root(settings, folders, notes, stack, root)? {
        Some(file) => Ok(Step::Found(file)),
        None => Ok(Step::Passed),
    }
}

/// The next file of the walk.
fn advance<F: Folders>(
    settings: &Settings,
    folders: &mut F,
    notes: &mut Items<Note>,
    stack: &mut Stack,
    roots: &mut Items<Text>,
) -> Result<Option<KeptFile>, AllocError>
    ensures folders { AsTheyWere F.tree F.memory_faults folders.old folders.new result }
    ensures notes { Grows notes.old notes.new }
    ensures fewer { IfOk result (λ o. OnSome o
        (all_rank stack.new roots.new < all_rank stack.old roots.old)) }
    ensures ended { result ≡ Ok None
        → (stack.new.left ≡ []) × (stack.new.holders ≡ []) × (roots.new ≡ []) }
    ensures met { Told (F.tree folders.old) (λ t. IfOk result (λ o. Meets notes.old
        (met_all settings.now.excludes settings.now.rules t stack.old roots.old) notes.new
        (with_found o
        (met_all settings.now.excludes settings.now.rules t stack.new roots.new)))) }
{
    loop {
        match explore(settings, folders, notes, stack)? {
            Some(file) => return Ok(Some(file)),
            None => {}
        }
        match go_on(settings, folders, notes, stack, roots)? {
            Step::Found(file) => return Ok(Some(file)),
            Step::Passed => {}
            Step::Ended => return Ok(None),
        }
    }
}

/// A walk that answers one kept file at a time.
#[derive(Drop)]
pub struct Walk {
    settings: Settings,
    /// The roots that are still to come, the last one first.
    roots: Items<Text>,
    stack: Stack,
    failed: bool,
    notes: Items<Note>,
}

fn empty_stack(alloc: Global) -> Result<Stack, AllocError>
    ensures left { IfOk result (λ s. s.left ≡ []) }
    ensures holders { IfOk result (λ s. s.holders ≡ []) }
{
    let place = Text::from_str(alloc, "")?;
    Ok(Stack {
        context: Context {
            levels: Items::new(alloc),
            names: Items::new(alloc),
            shown: Items::new(alloc),
        },
        place,
        left: Items::new(alloc),
        holders: Items::new(alloc),
    })
}

impl Walk {
    /// A walk over roots, in their order. An exclude that is no pattern is passed over with a note.
    #[tactic(auto, unfolding(crate::specs::Walks::has_failed, crate::specs::Notes::notes_of))]
    pub fn new(
        alloc: Global,
        roots: &[String],
        excludes: &[String],
        rules: &Rules,
    ) -> Result<Walk, AllocError>
        ensures comes { IfOk result (λ w. (t : Tree) → is_sound t ≡ true
            → to_come t w
            ≡ kept_in (excludes_of (texts_of excludes.now)) rules.now t (texts_of roots.now)) }
        ensures failed { IfOk result (λ w. walk_failed w ≡ false) }
        ensures notes { IfOk result (λ w. notes_of w ≡ notes_of_excludes (texts_of excludes.now)) }
        ensures noted { IfOk result (λ w. (t : Tree) → noted_to_come t w
            ≡ noted_in (excludes_of (texts_of excludes.now)) rules.now t (texts_of roots.now)) }
        ensures met { IfOk result (λ w. (t : Tree) → met_to_come t w
            ≡ met_in (excludes_of (texts_of excludes.now)) rules.now t (texts_of roots.now)) }
    {
        let mut notes = Items::new(alloc);
        let excludes = read_excludes(alloc, &mut notes, excludes)?;
        let mut roots = copied_roots(alloc, roots)?;
        roots.reverse();
        let stack = empty_stack(alloc)?;
        Ok(Walk {
            settings: Settings {
                alloc,
                rules: *rules,
                excludes,
            },
            roots,
            stack,
            failed: false,
            notes,
        })
    }

    /// Whether it has failed, or nothing is left.
    #[tactic(auto, unfolding(crate::specs::Walks::is_over))]
    fn is_over(&self) -> bool
        ensures { result ≡ over_now self.now }
    {
        self.failed || (self.stack.is_spent() && self.roots.is_empty())
    }

    /// The next kept file, or `None` where none is left. The notes have by then what was met before
    /// that file. A call that is refused, out of memory alone, ends the walk: later calls answer
    /// `None`.
    #[tactic(auto, unfolding(crate::specs::Walks::has_failed))]
    pub fn next<F: Folders>(&mut self, folders: &mut F) -> Result<Option<KeptFile>, AllocError>
        ensures folders { AsTheyWere F.tree F.memory_faults folders.old folders.new result }
        ensures told { Told (F.tree folders.old) (λ t. IfOk result
            (λ o. Advances (to_come t self.old) (to_come t self.new) o)) }
        ensures fewer { IfOk result (λ o. OnSome o (rank self.new < rank self.old)) }
        ensures ended { result ≡ Ok None → HasEnded self.new }
        ensures over { result ≡ Ok None → over_now self.new ≡ true }
        ensures again { over_now self.old ≡ true → (result ≡ Ok None) × (self.new ≡ self.old) }
        ensures stays { OnOk result (walk_failed self.new ≡ walk_failed self.old) }
        ensures notes { Grows (notes_of self.old) (notes_of self.new) }
        ensures noted { Told (F.tree folders.old) (λ t. OnOk result (NotesCome (notes_of self.old)
            (noted_to_come t self.old) (notes_of self.new) (noted_to_come t self.new))) }
        ensures met { Told (F.tree folders.old) (λ t. IfOk result (λ o. Meets (notes_of self.old)
            (met_to_come t self.old) (notes_of self.new)
            (with_found o (met_to_come t self.new)))) }
        ensures refused { OnErr result (walk_failed self.new ≡ true) }
        ensures failed { walk_failed self.old ≡ true → result ≡ Ok None }
    {
        if self.is_over() {
            return Ok(None);
        }
        self.failed = true;
        let found = advance(
            &self.settings,
            folders,
            &mut self.notes,
            &mut self.stack,
            &mut self.roots,
        )?;
        self.failed = false;
        Ok(found)
    }

    /// Whether a call was refused.
    #[tactic(auto, unfolding(crate::specs::Walks::has_failed))]
    pub fn failed(&self) -> bool
        ensures { result ≡ walk_failed self.now }
    {
        let Walk { failed, .. } = self;
        *failed
    }

    /// What the walk met and passed over so far.
    #[tactic(auto, unfolding(crate::specs::Notes::notes_of))]
    pub fn notes(&self) -> &[Note]
        ensures { result.now ≡ notes_of self.entry.now }
    {
        self.notes.as_slice()
    }

    /// The same, where the walk is over.
    #[tactic(auto, unfolding(crate::specs::Notes::notes_of))]
    pub fn into_notes(self) -> Vec<Note>
        ensures { result.items ≡ notes_of self }
    {
        self.notes.into_vec()
    }
}
