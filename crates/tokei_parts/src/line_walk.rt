//! A line is walked in one piece where no child opens in it and no item within another.
ghost use Rattle.std.specs.Prelude.{◌≡◌, ◌≢◌, ◌+◌, ◌-◌, ◌<◌, ◌≤◌, true, None, Some};
ghost use Rattle.std.specs.Prelude.{IfSome, length};
ghost use Rattle.tokei_parts.specs.Choice.Choice.{escapes};
ghost use Rattle.tokei_parts.specs.Items.{kind_in};
ghost use Rattle.tokei_parts.specs.LineWalk.{chain_in, item_in, reach_of};
ghost use Rattle.tokei_parts.specs.Modes.{Chain, innermost};
ghost use Rattle.tokei_parts.specs.Places.{Begins, block_from, choice_from, text_of};
ghost use Rattle.tokei_parts.specs.Progress.{IsClosable};
ghost use Rattle.tokei_parts.specs.Reached.{Advances, IsFront, IsReached, Reaches, part_stop};
ghost use Rattle.tokei_parts.specs.ReadingOf.{row_in, blocks_of};
ghost use Rattle.tokei_parts.specs.Seen.{chain_of};
ghost use Rattle.tokei_parts.specs.SeenChoices.{choice_of, mode_of};
ghost use Rattle.tokei_parts.specs.Walked.{IsLine};

use crate::choice::Choice;
use crate::class::{Class, class_by_item};
use crate::items::{Enclosure, ItemKind, LineItem};
use crate::line_ends::line_stop;
use crate::place::Place;
use crate::plain_bytes::{item_end, plain_end};
use crate::walk::{choice_in_plain, choice_within, front_behind};
use tokei_table_rules::family::Family;

/// A line that was walked.
#[derive(Clone, Copy)]
pub struct LineRead<'a> {
    /// What it counts as.
    pub class: Class,
    /// How many choices were made in it.
    pub steps: usize,
    /// Where it stops: behind its newline, or with the text.
    pub stop: usize,
    /// The item that encloses that place, or none.
    pub item: LineItem<'a>,
}

/// How far the walk of a line has come.
#[derive(Clone, Copy)]
struct LineReach {
    /// The place; a line comment leads behind the newline.
    at: usize,
    /// As many choices were made as bytes lie from there to the place. A byte that stands for
    /// itself is one choice, and leaves this as it is.
    base: usize,
}

/// The innermost of the items, which is the last of the stack, or none.
#[inline(always)]
pub fn line_item<'t>(stack: &[Enclosure<'t>]) -> LineItem<'t>
    ensures { mode_of (item_in result) ≡ innermost (chain_of stack.now) }
{
    match stack.last() {
        Some(around) => LineItem {
            kind: Some(around.kind),
            closer: around.closer,
        },
        None => LineItem {
            kind: None,
            closer: &[],
        },
    }
}

/// Goes on behind the next `len` bytes, which are one choice.
#[inline(always)]
fn take(part: &Place, len: usize, reach: &mut LineReach)
    requires some { 0 < len }
    requires low { reach.old.base ≤ reach.old.at }
    requires high { reach.old.at + len ≤ length (text_of part.now) }
    ensures at { reach.new.at ≡ reach.old.at + len }
    ensures base { reach.new.base ≡ reach.old.base + (len - 1) }
{
    let _length = part.reading.text.len();
    reach.at += len;
    reach.base += len - 1;
}

/// Takes the choice at the place that the walk has come to, which that item alone encloses, or
/// none, and goes on behind what it takes. It answers false where an item opens within the item.
#[inline(always)]
fn take_one<'t>(
    part: &Place<'_, '_, 't>,
    item: &mut LineItem<'t>,
    choice: Choice<'t>,
    reach: &mut LineReach,
) -> bool
    requires reached { IsReached part.now (chain_in (item_in item.old)) (reach_of reach.old) }
    requires low { reach.old.base ≤ reach.old.at }
    requires some { reach.old.at < part.now.end }
    requires choice { choice_of (block_from part.now reach.old.at) choice
        ≡ choice_from part.now reach.old.at (mode_of (item_in item.old)) }
    requires no_child { choice ≢ Choice.ChildOpens }
    ensures low { reach.new.base ≤ reach.new.at }
    ensures advances { result ≡ true
        → Advances part.now (chain_in (item_in item.old)) (reach_of reach.old)
        (chain_in (item_in item.new)) (reach_of reach.new) }
{
    match choice {
        Choice::Closes => match item.kind {
            Some(_) => {
                item.kind = None;
                take(part, item.closer.len(), reach);
                true
            }
            None => unreachable!(),
        },
        Choice::Escapes => {
            take(part, 2, reach);
            true
        }
        Choice::ChildOpens => unreachable!(),
        Choice::Opens(kind, pair) => {
            if item.kind.is_some() {
                return false;
            }
            let opener = pair.0.as_bytes();
            let closer = pair.1.as_bytes();
            let kind = Some(kind);
            *item = LineItem { kind, closer };
            take(part, opener.len(), reach);
            true
        }
        Choice::PassesOver(pair) => {
            let opener = pair.0.as_bytes();
            take(part, opener.len(), reach);
            true
        }
        Choice::BeginsLineComment => {
            let stop = line_stop(part.reading.text, part.end);
            take(part, stop - reach.at, reach);
            true
        }
        Choice::TakesByte => {
            take(part, 1, reach);
            true
        }
    }
}

/// Takes the bytes from the place that the walk has come to, which the item alone encloses, up to
/// where a choice can begin, and that choice, if the line goes on. It answers false where an item
/// opens within the item.
#[inline(always)]
fn go_within<'t>(
    part: &Place<'_, '_, 't>,
    around: Enclosure<'t>,
    item: &mut LineItem<'t>,
    reach: &mut LineReach,
) -> bool
    requires within { item_in item.old ≡ Some around }
    requires reached { IsReached part.now (chain_in (item_in item.old)) (reach_of reach.old) }
    requires low { reach.old.base ≤ reach.old.at }
    requires some { reach.old.at < part.now.end }
    ensures low { reach.new.base ≤ reach.new.at }
    ensures advances { result ≡ true
        → Advances part.now (chain_in (item_in item.old)) (reach_of reach.old)
        (chain_in (item_in item.new)) (reach_of reach.new) }
{
    let reading = part.reading;
    let plain = item_end(reading.matchers, around, reading.text, reach.at, part.end);
    reach.at = plain;
    if part.end <= reach.at {
        return true;
    }
    let here = Place {
        at: reach.at,
        ..*part
    };
    let choice = choice_within(&here, around);
    take_one(part, item, choice, reach)
}

/// Takes the escape at the place that the walk has come to, which that item alone encloses.
#[inline(always)]
fn take_escape<'t>(part: &Place<'_, '_, 't>, around: Enclosure<'t>, reach: &mut LineReach)
    requires reached { IsReached part.now (chain_in (Some around)) (reach_of reach.old) }
    requires low { reach.old.base ≤ reach.old.at }
    requires some { reach.old.at < part.now.end }
    requires escape { choice_from part.now reach.old.at (mode_of (Some around)) ≡ escapes }
    ensures low { reach.new.base ≤ reach.new.at }
    ensures advances { Advances part.now (chain_in (Some around.entry)) (reach_of reach.old)
        (chain_in (Some around.entry)) (reach_of reach.new) }
{
    take(part, 2, reach);
}

/// The same as `go_within` of all that a string with escapes has in the line, up to behind its
/// closer. An escape takes no turn of the walk's loop.
#[inline(always)]
fn go_string<'t>(
    part: &Place<'_, '_, 't>,
    around: Enclosure<'t>,
    item: &mut LineItem<'t>,
    reach: &mut LineReach,
) -> bool
    requires within { item_in item.old ≡ Some around }
    requires reached { IsReached part.now (chain_in (item_in item.old)) (reach_of reach.old) }
    requires low { reach.old.base ≤ reach.old.at }
    requires some { reach.old.at < part.now.end }
    ensures low { reach.new.base ≤ reach.new.at }
    ensures advances { result ≡ true
        → Advances part.now (chain_in (item_in item.old)) (reach_of reach.old)
        (chain_in (item_in item.new)) (reach_of reach.new) }
{
    let reading = part.reading;
    while reach.at < part.end {
        let plain = item_end(reading.matchers, around, reading.text, reach.at, part.end);
        reach.at = plain;
        if part.end <= reach.at {
            return true;
        }
        let here = Place {
            at: reach.at,
            ..*part
        };
        match choice_within(&here, around) {
            Choice::Escapes => take_escape(part, around, reach),
            choice => return take_one(part, item, choice, reach),
        }
    }
    true
}

/// Takes what the item encloses from the place that the walk has come to on, up to behind a choice
/// or to the line's end. Of a string with escapes whose closer is one byte, as most have, it takes
/// all that the line has. It answers false where an item opens within the item.
#[inline(always)]
fn go_item<'t>(
    part: &Place<'_, '_, 't>,
    around: Enclosure<'t>,
    item: &mut LineItem<'t>,
    reach: &mut LineReach,
) -> bool
    requires within { item_in item.old ≡ Some around }
    requires reached { IsReached part.now (chain_in (item_in item.old)) (reach_of reach.old) }
    requires low { reach.old.base ≤ reach.old.at }
    requires some { reach.old.at < part.now.end }
    ensures low { reach.new.base ≤ reach.new.at }
    ensures advances { result ≡ true
        → Advances part.now (chain_in (item_in item.old)) (reach_of reach.old)
        (chain_in (item_in item.new)) (reach_of reach.new) }
{
    match (around.kind, around.closer) {
        (ItemKind::OrdinaryString, [_]) => go_string(part, around, item, reach),
        _ => go_within(part, around, item, reach),
    }
}

/// The same as `go_within` in plain text, in which no child opens. At no byte of the part before
/// `front` can a choice begin.
#[inline(always)]
fn go_plain<'t>(
    part: &Place<'_, '_, 't>,
    item: &mut LineItem<'t>,
    front: &mut usize,
    reach: &mut LineReach,
) -> bool
    requires plain { item_in item.old ≡ None }
    requires childless { part.now.reading.now.family ≡ Family.Plain }
    requires reached { IsReached part.now (chain_in (item_in item.old)) (reach_of reach.old) }
    requires low { reach.old.base ≤ reach.old.at }
    requires some { reach.old.at < part.now.end }
    requires front { IsFront part.now front.old }
    ensures front { IsFront part.now front.new }
    ensures low { reach.new.base ≤ reach.new.at }
    ensures advances { result ≡ true
        → Advances part.now (chain_in (item_in item.old)) (reach_of reach.old)
        (chain_in (item_in item.new)) (reach_of reach.new) }
{
    let reading = part.reading;
    let from = reach.at;
    let plain = plain_end(reading.matchers, reading.text, from, part.end);
    reach.at = plain;
    *front = front_behind(part, *front, from, plain);
    if part.end <= reach.at {
        return true;
    }
    let here = Place {
        at: reach.at,
        ..*part
    };
    let choice = choice_in_plain(&here, false);
    take_one(part, item, choice, reach)
}

/// What a line comes to which stops at `stop` and was walked to its end. It began in an item of the
/// kind `begun`, or in plain text, and at no byte of it before `front` can a choice begin.
#[inline(always)]
fn line_read<'t>(
    part: &Place<'_, '_, 't>,
    begun: Option<ItemKind>,
    front: usize,
    item: LineItem<'t>,
    stop: usize,
    reach: LineReach,
) -> LineRead<'t>
    requires front { IsFront part.now front }
    requires reached { IsReached part.now (chain_in (item_in item)) (reach_of reach) }
    requires low { reach.base ≤ reach.at }
    requires ended { part.now.end ≤ reach.at }
    requires some { part.now.start < length (text_of part.now) }
    requires within { stop ≤ length (text_of part.now) }
    requires stop { stop ≡ part_stop part.now }
    ensures { (chain : Chain) → kind_in (innermost chain) ≡ begun
        → Reaches part.now chain (chain_in (item_in item.entry)) reach.at (reach.at - reach.base)
        → IsLine (row_in part.now.reading.now) (blocks_of part.now.reading.now)
        part.now.behind_child part.now.reading.now.docs_are_comments chain
        (chain_in (item_in result.item))
        part.now.start (text_of part.now) result.steps result.class result.stop }
{
    // a newline that is left is one byte, and one choice
    let steps = stop - reach.base;
    let class = class_by_item(part.reading, begun, part.start, front, stop, item);
    LineRead {
        class,
        steps,
        stop,
        item,
    }
}

/// Reads the line that begins at the place, where that item encloses it or none, in a language that
/// opens no children. It answers None where an item opens within another.
#[inline(always)]
pub fn read_line<'t>(part: &Place<'_, '_, 't>, item: LineItem<'t>) -> Option<LineRead<'t>>
    requires closable { IsClosable (chain_in (item_in item)) }
    requires begins { Begins part.now }
    requires some { part.now.start < length (text_of part.now) }
    requires childless { part.now.reading.now.family ≡ Family.Plain }
    ensures { IfSome result (λ line. IsLine (row_in part.now.reading.now)
        (blocks_of part.now.reading.now) part.now.behind_child
        part.now.reading.now.docs_are_comments (chain_in (item_in item.entry))
        (chain_in (item_in line.item))
        part.now.start (text_of part.now) line.steps line.class line.stop) }
{
    let begun = item.kind;
    let stop = line_stop(part.reading.text, part.end);
    let mut item = item;
    let mut front = part.start;
    let mut reach = LineReach {
        at: part.start,
        base: part.start,
    };
    while reach.at < part.end {
        let goes_on = match item.kind {
            Some(kind) => {
                let around = Enclosure {
                    kind,
                    closer: item.closer,
                };
                go_item(part, around, &mut item, &mut reach)
            }
            None => go_plain(part, &mut item, &mut front, &mut reach),
        };
        if !goes_on {
            return None;
        }
    }
    Some(line_read(part, begun, front, item, stop, reach))
}
