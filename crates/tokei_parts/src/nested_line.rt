//! A line within comments of which one encloses another.
ghost use Rattle.std.specs.Prelude.{◌≡◌, ◌<◌, None, Some, IfOk, IfSome, length};
ghost use Rattle.tokei_parts.specs.Class.{is_comment};
ghost use Rattle.tokei_parts.specs.Modes.{innermost};
ghost use Rattle.tokei_parts.specs.NestedLine.{IsTurn, turned};
ghost use Rattle.tokei_parts.specs.Places.{Begins, IsAt, text_of};
ghost use Rattle.tokei_parts.specs.Progress.{IsClosable};
ghost use Rattle.tokei_parts.specs.ReadingOf.{row_in, blocks_of};
ghost use Rattle.tokei_parts.specs.Seen.{chain_of};
ghost use Rattle.tokei_parts.specs.SeenChoices.{mode_of};
ghost use Rattle.tokei_parts.specs.Walked.{IsLine};

use crate::choice::Choice;
use crate::class::Class;
use crate::items::{Enclosure, ItemKind};
use crate::line_ends::line_stop;
use crate::place::Place;
use crate::plain_bytes::item_end;
use crate::walk::{choice_within, innermost};
use std::alloc::AllocError;

/// A line that comments enclose, at both its ends.
#[derive(Clone, Copy)]
pub struct NestedLine {
    /// How many choices were made in it.
    pub steps: usize,
    /// Where it stops: behind its newline, or with the text.
    pub stop: usize,
}

/// An opener in an item, or the closer of an item that another encloses.
#[derive(Clone, Copy)]
struct Turn<'t> {
    /// The innermost item behind it.
    inner: Enclosure<'t>,
    /// How many bytes it takes.
    len: usize,
    /// Whether it opens that item.
    opens: bool,
}

/// Whether the item is a comment.
#[inline(always)]
fn is_comment(item: Enclosure) -> bool
    ensures { result ≡ is_comment item.entry.kind }
{
    item.kind == ItemKind::MultiLineComment
}

/// The opener or the closer at the place, which the item encloses.
#[inline(always)]
fn turn_at<'t>(
    place: &Place<'_, '_, 't>,
    stack: &[Enclosure<'t>],
    item: Enclosure<'t>,
) -> Option<Turn<'t>>
    requires closable { IsClosable (chain_of stack.now) }
    requires within { mode_of (Some item) ≡ innermost (chain_of stack.now) }
    requires here { IsAt place.now }
    requires some { place.now.at < place.now.end }
    ensures { IfSome result (IsTurn place.now (chain_of stack.now)) }
{
    match choice_within(place, item) {
        Choice::Opens(kind, pair) => {
            let closer = pair.1.as_bytes();
            Some(Turn {
                inner: Enclosure { kind, closer },
                len: pair.0.as_bytes().len(),
                opens: true,
            })
        }
        Choice::Closes => {
            let (_, around) = stack.split_last()?;
            Some(Turn {
                inner: innermost(around)?,
                len: item.closer.len(),
                opens: false,
            })
        }
        _ => None,
    }
}

/// Opens the item, or closes the one that it encloses.
#[inline(always)]
fn take_turn<'t>(stack: &mut Vec<Enclosure<'t>>, turn: Turn<'t>) -> Result<(), AllocError>
    ensures { IfOk result
        (λ _. chain_of stack.new.items ≡ turned turn.entry (chain_of stack.old.items)) }
{
    if turn.opens {
        stack.push(turn.inner)?;
    } else {
        stack.pop();
    }
    Ok(())
}

/// Reads the line that begins at the place, in a comment, where just one more comment opens in it,
/// or one closes that another encloses. It answers None where that isn't so, and takes nothing.
#[inline(always)]
pub fn read_nested_line<'t>(
    part: &Place<'_, '_, 't>,
    stack: &mut Vec<Enclosure<'t>>,
) -> Result<Option<NestedLine>, AllocError>
    requires closable { IsClosable (chain_of stack.old.items) }
    requires begins { Begins part.now }
    requires some { part.now.start < length (text_of part.now) }
    ensures kept { IfOk result (λ read. read ≡ None → stack.new.items ≡ stack.old.items) }
    ensures reads { IfOk result (λ read. IfSome read (λ line. IsLine (row_in part.now.reading.now)
        (blocks_of part.now.reading.now) part.now.behind_child
        part.now.reading.now.docs_are_comments (chain_of stack.old.items) (chain_of stack.new.items)
        part.now.start (text_of part.now) line.steps Class.Comment line.stop)) }
{
    let Some(item) = innermost(stack) else {
        return Ok(None);
    };
    if !is_comment(item) {
        return Ok(None);
    }
    let reading = part.reading;
    let text = reading.text;
    let plain = item_end(reading.matchers, item, text, part.start, part.end);
    if part.end <= plain {
        return Ok(None);
    }
    let here = Place { at: plain, ..*part };
    let Some(turn) = turn_at(&here, stack, item) else {
        return Ok(None);
    };
    if !is_comment(turn.inner) {
        return Ok(None);
    }
    let behind = plain + turn.len;
    if item_end(reading.matchers, turn.inner, text, behind, part.end) < part.end {
        return Ok(None);
    }
    take_turn(stack, turn)?;
    let stop = line_stop(text, part.end);
    // what opens or closes is one choice, and each other byte is one
    let steps = stop - part.start - (turn.len - 1);
    Ok(Some(NestedLine { steps, stop }))
}
