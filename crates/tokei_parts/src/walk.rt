//! A part is walked with a stack of the items that enclose the place.
ghost use Rattle.std.specs.Prelude.{◌≡◌, ◌≢◌, ℕ, ◌+◌, ◌<◌, ◌≤◌, true, false, None, Some};
ghost use Rattle.std.specs.Prelude.{is_some, IfOk, length, slice_index};
ghost use Rattle.tokei_parts.specs.Choice.Choice.{takes_byte};
ghost use Rattle.tokei_parts.specs.Items.{kind_in};
ghost use Rattle.tokei_parts.specs.Modes.{Chain, innermost};
ghost use Rattle.tokei_parts.specs.PlainBytes.{BeginsNone, IsPlainByte};
ghost use Rattle.tokei_parts.specs.Places.{Begins, IsAt};
ghost use Rattle.tokei_parts.specs.Places.{block_from, block_here, choice_from, choice_here, text_of};
ghost use Rattle.tokei_parts.specs.ReadingOf.{row_in, blocks_of};
ghost use Rattle.tokei_parts.specs.Progress.{IsClosable};
ghost use Rattle.tokei_parts.specs.Reached.{Advances, BreaksOff, GoesOn, IsChildless, IsFront, IsReached};
ghost use Rattle.tokei_parts.specs.Reached.{Reaches, StepsTo, part_stop};
ghost use Rattle.tokei_parts.specs.SeenChoices.{choice_of, mode_of};
ghost use Rattle.tokei_parts.specs.Seen.{block_of, chain_of};
ghost use Rattle.tokei_parts.specs.Walked.{Moves, Reads};

use crate::choice::{Choice, choose_in_plain, choose_within};
use crate::class::{Class, class_by};
use crate::items::{Enclosure, ItemKind, kind_of};
use crate::line_ends::line_stop;
use crate::openings::{Block, block_at, next_child};
use crate::place::Place;
use crate::plain_bytes::{item_end, plain_end};
use std::alloc::AllocError;
use tokei_embedding::BlockSearch;

/// What the choice at a place does.
#[derive(Clone, Copy)]
pub enum Move {
    /// It takes so many bytes of its line.
    On(usize),
    /// The same, and an item is closed or opened.
    Turn(usize),
    /// It takes the rest of its line, and the newline there.
    Rest,
    /// A child opens.
    Child,
}

/// How far the walk of a part has come.
#[derive(Clone, Copy)]
pub struct Reach {
    /// The place; a line comment leads behind the newline.
    pub at: usize,
    /// No child opens in plain text from there to before that place.
    pub child: usize,
    /// How many choices were made.
    pub steps: usize,
}

/// What a part comes to.
#[derive(Clone, Copy)]
pub enum PartEnd {
    /// It is counted, and ends at that place, behind its newline or with the text.
    Line(Class, usize),
    /// A child opens at that place and breaks it off.
    Broken(usize),
}

/// A part that was walked.
#[derive(Clone, Copy)]
pub struct PartRead {
    pub end: PartEnd,
    /// How many choices were made in it, that of the child that breaks it off too.
    pub steps: usize,
}

/// The innermost of the items, which is the last of the stack.
#[inline(always)]
pub fn innermost<'t>(stack: &[Enclosure<'t>]) -> Option<Enclosure<'t>>
    ensures { mode_of result ≡ innermost (chain_of stack.now) }
{
    stack.last().copied()
}

/// Whether a child opens at the place, which is put into `found`. It stands in no caller's code,
/// since few choices come to it.
#[inline(never)]
fn finds_block<'a>(
    place: &Place<'_, 'a, '_>,
    search: &mut BlockSearch<'a>,
    found: &mut Block<'a>,
) -> bool
    requires here { IsAt place.now }
    requires some { place.now.at < place.now.end }
    requires searched { search.old ≡ text_of place.now }
    ensures same { search.new ≡ search.old }
    ensures found { result ≡ true → block_here place.now ≡ Some (block_of found.new) }
    ensures none { result ≡ false → block_here place.now ≡ None }
{
    match block_at(place, search) {
        Some(block) => {
            *found = block;
            true
        }
        None => false,
    }
}

/// The same in plain text, where none opens before `child`.
#[inline(always)]
fn finds_child<'a>(
    place: &Place<'_, 'a, '_>,
    child: usize,
    search: &mut BlockSearch<'a>,
    found: &mut Block<'a>,
) -> bool
    requires here { IsAt place.now }
    requires some { place.now.at < place.now.end }
    requires childless { place.now.at < child → block_here place.now ≡ None }
    requires searched { search.old ≡ text_of place.now }
    ensures same { search.new ≡ search.old }
    ensures found { result ≡ true → block_here place.now ≡ Some (block_of found.new) }
    ensures none { result ≡ false → block_here place.now ≡ None }
{
    if place.at < child {
        return false;
    }
    // a place of its own, so that the walk's stands in no memory
    let here = Place { ..*place };
    finds_block(&here, search, found)
}

/// The choice at the place in plain text; `opens` says whether a child can open there.
#[inline(always)]
pub(crate) fn choice_in_plain<'t>(place: &Place<'_, '_, 't>, opens: bool) -> Choice<'t>
    requires here { IsAt place.now }
    requires child { opens ≡ true → is_some (block_here place.now) ≡ true }
    requires childless { opens ≡ false → block_here place.now ≡ None }
    ensures child { result ≡ Choice.ChildOpens → opens ≡ true }
    ensures choice { choice_of (block_here place.now) result ≡ choice_here place.now None }
{
    let reading = place.reading;
    choose_in_plain(
        reading.syntax,
        reading.matchers,
        opens,
        &reading.text[place.at..],
    )
}

/// The choice at the place in the item.
#[inline(always)]
pub(crate) fn choice_within<'t>(place: &Place<'_, '_, 't>, item: Enclosure<'t>) -> Choice<'t>
    requires here { IsAt place.now }
    ensures no_child { result ≢ Choice.ChildOpens }
    ensures choice { choice_of (block_here place.now) result
        ≡ choice_here place.now (mode_of (Some item.entry)) }
{
    choose_within(place.reading.syntax, item, &place.reading.text[place.at..])
}

/// Takes the bytes from the place that the walk has come to on to before `to`, if that lies ahead.
/// Nothing but the byte itself can begin at any, in that mode: each is a choice, which is one step.
#[inline(always)]
fn take_bytes<'t>(
    part: &Place<'_, '_, 't>,
    mode: Option<Enclosure<'t>>,
    to: usize,
    reach: &mut Reach,
)
    requires reached { (last : Chain)
        × ((innermost last ≡ mode_of mode) × IsReached part.now last reach.old) }
    requires some { reach.old.at < part.now.end }
    requires within { reach.old.at < to → to ≤ part.now.end }
    requires plain { (p : ℕ) → reach.old.at ≤ p → p < to
        → IsPlainByte part.now.reading.now.matchers.now (mode_of mode)
        (slice_index (text_of part.now) p) }
    requires childless { mode_of mode ≡ None → IsChildless part.now reach.old.at to }
    ensures child { reach.new.child ≡ reach.old.child }
    ensures low { reach.old.at ≤ reach.new.at }
    ensures high { reach.new.at ≤ part.now.end }
    ensures goes_on { (last : Chain) → innermost last ≡ mode_of mode.entry
        → GoesOn part.now last reach.old last reach.new }
{
    // there are no more steps than bytes, and so many can be counted
    let _length = part.reading.text.len();
    let bytes = to.saturating_sub(reach.at);
    reach.steps += bytes;
    reach.at += bytes;
}

/// Takes the choice at a place, which is one step, in the mode of the stack's items.
#[inline(always)]
fn take_choice<'t>(
    place: &Place<'_, '_, 't>,
    stack: &mut Vec<Enclosure<'t>>,
    choice: Choice<'t>,
    steps: &mut usize,
) -> Result<Move, AllocError>
    requires closable { IsClosable (chain_of stack.old.items) }
    requires here { IsAt place.now }
    requires some { place.now.at < place.now.end }
    requires room { steps.old < length (text_of place.now) }
    requires choice { choice_of (block_here place.now) choice
        ≡ choice_here place.now (innermost (chain_of stack.old.items)) }
    requires child { choice ≡ Choice.ChildOpens → is_some (block_here place.now) ≡ true }
    ensures counted { steps.new ≡ steps.old + 1 }
    ensures child { IfOk result (λ m. m ≡ Move.Child → choice.entry ≡ Choice.ChildOpens) }
    ensures plain { IfOk result (λ m. m ≡ Move.Rest → innermost (chain_of stack.old.items) ≡ None) }
    ensures kept { IfOk result (λ m. (n : ℕ) → m ≡ Move.On n → stack.new.items ≡ stack.old.items) }
    ensures takes { IfOk result (Moves (row_in place.now.reading.now)
        (blocks_of place.now.reading.now) place.now.behind_child (chain_of stack.old.items)
        (chain_of stack.new.items) (text_of place.now) place.now.at) }
{
    let _length = place.reading.text.len();
    *steps += 1;
    match choice {
        Choice::Closes => match stack.pop() {
            Some(enclosure) => Ok(Move::Turn(enclosure.closer.len())),
            None => unreachable!(),
        },
        Choice::Escapes => Ok(Move::On(2)),
        Choice::ChildOpens => Ok(Move::Child),
        Choice::Opens(kind, pair) => {
            let opener = pair.0.as_bytes();
            let closer = pair.1.as_bytes();
            stack.push(Enclosure { kind, closer })?;
            Ok(Move::Turn(opener.len()))
        }
        Choice::PassesOver(pair) => {
            let opener = pair.0.as_bytes();
            Ok(Move::On(opener.len()))
        }
        Choice::BeginsLineComment => Ok(Move::Rest),
        Choice::TakesByte => Ok(Move::On(1)),
    }
}

/// Takes the choice at the place that the walk has come to, in the mode of the stack's items, and
/// goes on behind what it takes.
#[inline(always)]
fn take_step<'t>(
    part: &Place<'_, '_, 't>,
    stack: &mut Vec<Enclosure<'t>>,
    choice: Choice<'t>,
    reach: &mut Reach,
) -> Result<Move, AllocError>
    requires reached { IsReached part.now (chain_of stack.old.items) reach.old }
    requires some { reach.old.at < part.now.end }
    requires choice { choice_of (block_from part.now reach.old.at) choice
        ≡ choice_from part.now reach.old.at (innermost (chain_of stack.old.items)) }
    requires child { choice ≡ Choice.ChildOpens
        → is_some (block_from part.now reach.old.at) ≡ true }
    ensures child { IfOk result (λ m. m ≡ Move.Child → choice.entry ≡ Choice.ChildOpens) }
    ensures plain { IfOk result (λ m. m ≡ Move.Rest → innermost (chain_of stack.old.items) ≡ None) }
    ensures kept { IfOk result (λ m. (n : ℕ) → m ≡ Move.On n → stack.new.items ≡ stack.old.items) }
    ensures same { reach.new.child ≡ reach.old.child }
    ensures steps { IfOk result (StepsTo part.now (chain_of stack.old.items) reach.old
        (chain_of stack.new.items) reach.new) }
{
    let here = Place {
        at: reach.at,
        ..*part
    };
    let taken = take_choice(&here, stack, choice, &mut reach.steps)?;
    match taken {
        Move::On(len) | Move::Turn(len) => reach.at += len,
        Move::Rest => reach.at = line_stop(part.reading.text, part.end),
        Move::Child => {}
    }
    Ok(taken)
}

/// Takes the bytes from the place that the walk has come to, which the item encloses, up to where a
/// choice can begin, and that choice, if the line goes on.
#[inline(always)]
fn take_within<'t>(
    part: &Place<'_, '_, 't>,
    stack: &mut Vec<Enclosure<'t>>,
    item: Enclosure<'t>,
    reach: &mut Reach,
) -> Result<(), AllocError>
    requires within { mode_of (Some item) ≡ innermost (chain_of stack.old.items) }
    requires reached { IsReached part.now (chain_of stack.old.items) reach.old }
    requires some { reach.old.at < part.now.end }
    ensures child { IfOk result (λ _. reach.new.child ≡ reach.old.child) }
    ensures advances { IfOk result (λ _. Advances part.now (chain_of stack.old.items) reach.old
        (chain_of stack.new.items) reach.new) }
{
    let reading = part.reading;
    let plain = item_end(reading.matchers, item, reading.text, reach.at, part.end);
    take_bytes(part, Some(item), plain, reach);
    if part.end <= reach.at {
        return Ok(());
    }
    let here = Place {
        at: reach.at,
        ..*part
    };
    let choice = choice_within(&here, item);
    match take_step(part, stack, choice, reach)? {
        Move::On(_) | Move::Turn(_) => Ok(()),
        Move::Rest | Move::Child => unreachable!(),
    }
}

/// Takes the bytes of plain text from the place that the walk has come to, up to where a choice or
/// a child can begin, and answers that place. Where the reading skips, it looks for the part's
/// children ahead. The line stops at `stop`.
#[inline(always)]
fn take_plain<'a, 't>(
    part: &Place<'_, 'a, 't>,
    search: &mut BlockSearch<'a>,
    stack: &[Enclosure<'t>],
    stop: usize,
    reach: &mut Reach,
) -> usize
    requires plain { innermost (chain_of stack.now) ≡ None }
    requires reached { IsReached part.now (chain_of stack.now) reach.old }
    requires some { reach.old.at < part.now.end }
    requires stop { stop ≡ part_stop part.now }
    requires childless { IsChildless part.now reach.old.at reach.old.child }
    requires searched { search.old ≡ text_of part.now }
    ensures same { search.new ≡ search.old }
    ensures childless { IsChildless part.now reach.new.at reach.new.child }
    ensures plain_low { reach.old.at ≤ result }
    ensures plain_high { result ≤ part.now.end }
    ensures plain { (p : ℕ) → reach.old.at ≤ p → p < result
        → BeginsNone part.now.reading.now.matchers.now (slice_index (text_of part.now) p) }
    ensures low { reach.old.at ≤ reach.new.at }
    ensures goes_on { GoesOn part.now (chain_of stack.now) reach.old
        (chain_of stack.now) reach.new }
{
    let reading = part.reading;
    let here = Place {
        at: reach.at,
        ..*part
    };
    reach.child = next_child(&here, search, stop, reach.child);
    let end = part.end;
    let plain = plain_end(
        reading.matchers,
        reading.text,
        reach.at,
        end.min(reach.child),
    );
    take_bytes(part, None, plain, reach);
    plain
}

/// Up to where no choice can begin at any byte of the part: so it is before `front`, and from the
/// place `from` to before `plain`.
#[inline(always)]
pub(crate) fn front_behind(part: &Place, front: usize, from: usize, plain: usize) -> usize
    requires front { IsFront part.now front }
    requires low { from ≤ plain }
    requires high { plain ≤ part.now.end }
    requires plain { (p : ℕ) → from ≤ p → p < plain
        → BeginsNone part.now.reading.now.matchers.now (slice_index (text_of part.now) p) }
    ensures { IsFront part.now result }
{
    if from == front { plain } else { front }
}

/// Takes the choice at the place of plain text that the walk has come to, and answers whether a
/// child opens there and breaks the part off. The child is put into `found`.
#[inline(always)]
fn breaks_off<'a, 't>(
    part: &Place<'_, 'a, 't>,
    search: &mut BlockSearch<'a>,
    stack: &mut Vec<Enclosure<'t>>,
    found: &mut Block<'a>,
    reach: &mut Reach,
) -> Result<bool, AllocError>
    requires plain { innermost (chain_of stack.old.items) ≡ None }
    requires reached { IsReached part.now (chain_of stack.old.items) reach.old }
    requires some { reach.old.at < part.now.end }
    requires childless { IsChildless part.now reach.old.at reach.old.child }
    requires searched { search.old ≡ text_of part.now }
    ensures same { search.new ≡ search.old }
    ensures childless { IfOk result (λ _. IsChildless part.now reach.new.at reach.new.child) }
    ensures found { IfOk result (λ breaks. breaks ≡ true
        → block_from part.now reach.new.at ≡ Some (block_of found.new)) }
    ensures breaks { IfOk result (λ breaks. breaks ≡ true → BreaksOff part.now
        (chain_of stack.old.items) reach.old (chain_of stack.new.items) reach.new) }
    ensures advances { IfOk result (λ breaks. breaks ≡ false → Advances part.now
        (chain_of stack.old.items) reach.old (chain_of stack.new.items) reach.new) }
{
    let here = Place {
        at: reach.at,
        ..*part
    };
    let opens = finds_child(&here, reach.child, search, found);
    let choice = choice_in_plain(&here, opens);
    match take_step(part, stack, choice, reach)? {
        Move::Child => Ok(true),
        _ => Ok(false),
    }
}

/// What a part comes to whose line, which stops at `stop`, was walked to its end. It began in an
/// item of the kind `begun`, or in plain text, and at no byte of it before `front` can a choice
/// begin.
#[inline(always)]
fn end_line<'t>(
    part: &Place<'_, '_, 't>,
    begun: Option<ItemKind>,
    front: usize,
    stack: &[Enclosure<'t>],
    stop: usize,
    reach: Reach,
) -> PartRead
    requires front { IsFront part.now front }
    requires reached { IsReached part.now (chain_of stack.now) reach }
    requires ended { part.now.end ≤ reach.at }
    requires some { part.now.start < length (text_of part.now) }
    requires within { stop ≤ length (text_of part.now) }
    requires stop { stop ≡ part_stop part.now }
    ensures reads { (chain : Chain) → kind_in (innermost chain) ≡ begun
        → Reaches part.now chain (chain_of stack.now) reach.at reach.steps
        → Reads (row_in part.now.reading.now) (blocks_of part.now.reading.now)
        part.now.behind_child part.now.reading.now.docs_are_comments chain (chain_of stack.now)
        part.now.start (text_of part.now) result }
    ensures line { (at : ℕ) → result.end ≡ PartEnd.Broken at → ⊥ }
    ensures newline { reach.at < stop
        → choice_from part.now reach.at (innermost (chain_of stack.now)) ≡ takes_byte }
{
    // a newline that is left is one byte, and one choice; there are no more steps than bytes
    let _length = part.reading.text.len();
    let steps = reach.steps + (stop - reach.at);
    let class = class_by(part.reading, begun, part.start, front, stop, stack);
    let end = PartEnd::Line(class, stop);
    PartRead { end, steps }
}

/// Reads the part that begins at the place. Where the reading skips, it looks for the part's
/// children ahead, and at a byte at which no choice can begin it looks no further. The child that
/// breaks the part off is put into `found`.
pub fn read_part<'a, 't>(
    part: &Place<'_, 'a, 't>,
    search: &mut BlockSearch<'a>,
    stack: &mut Vec<Enclosure<'t>>,
    found: &mut Block<'a>,
) -> Result<PartRead, AllocError>
    requires closable { IsClosable (chain_of stack.old.items) }
    requires begins { Begins part.now }
    requires some { part.now.start < length (text_of part.now) }
    requires searched { search.old ≡ text_of part.now }
    ensures same { search.new ≡ search.old }
    ensures reads { IfOk result (Reads (row_in part.now.reading.now)
        (blocks_of part.now.reading.now) part.now.behind_child
        part.now.reading.now.docs_are_comments (chain_of stack.old.items) (chain_of stack.new.items)
        part.now.start (text_of part.now)) }
    ensures found { IfOk result (λ r. (at : ℕ) → r.end ≡ PartEnd.Broken at
        → block_from part.now at ≡ Some (block_of found.new)) }
{
    let begun = kind_of(innermost(stack));
    let stop = line_stop(part.reading.text, part.end);
    // at no byte of the part before that place can a choice begin
    let mut front = part.start;
    let mut reach = Reach {
        at: part.start,
        child: part.start,
        steps: 0,
    };
    while reach.at < part.end {
        if let Some(item) = innermost(stack) {
            take_within(part, stack, item, &mut reach)?;
            continue;
        }
        let from = reach.at;
        let plain = take_plain(part, search, stack, stop, &mut reach);
        front = front_behind(part, front, from, plain);
        if part.end <= reach.at {
            continue;
        }
        if breaks_off(part, search, stack, found, &mut reach)? {
            let end = PartEnd::Broken(reach.at);
            let steps = reach.steps;
            return Ok(PartRead { end, steps });
        }
    }
    Ok(end_line(part, begun, front, stack, stop, reach))
}
