//! Lines are read one after another in languages that open no children, and in comments that
//! another encloses.
ghost use Rattle.std.specs.Prelude.{◌≡◌, ◌+◌, ◌<◌, ◌≤◌, true, None, Some, drop, length};
ghost use Rattle.std.specs.Prelude.{IfOk, IsErrOf, IsOk, OnOk};
ghost use Rattle.tokei_table.specs.FirstOpener.{first_opener};
ghost use Rattle.tokei_table.specs.Openers.{openers};
ghost use Rattle.tokei_parts.specs.Glance.{is_walked};
ghost use Rattle.tokei_parts.specs.LineMarks.{AreLineMarks};
ghost use Rattle.tokei_parts.specs.LineWalk.{chain_in, item_in};
ghost use Rattle.tokei_table_row.specs.Bytes.{line_len};
ghost use Rattle.tokei_parts.specs.Modes.{innermost};
ghost use Rattle.tokei_parts.specs.ReadingOf.{line_from, openers_in, row_in};
ghost use Rattle.tokei_parts.specs.Seen.{chain_of};
ghost use Rattle.tokei_count.specs.Readers.{reading_of};
ghost use Rattle.tokei_count.specs.UnderWay.{IsUnderWay};
ghost use Rattle.tokei_stats.specs.Overflow.{Fits};

use crate::line_look::count_lines_ahead;
use crate::text_reading::{ReadSoFar, add_line, skip_within};
use std::alloc::AllocError;
use tokei_parts::{
    Class, Enclosure, LineItem, LineMarks, Place, Reading, line_item, line_len, read_line,
    read_nested_line,
};
use tokei_stats::CountError;
use tokei_table_rules::Family;

/// How many bytes are left at least where lines are read so: a look ahead is worth its preparation.
const LEAST: usize = 64;

/// Where the line of the place `start` goes to, before its newline. None stands before `clear`.
#[inline(always)]
fn end_behind(text: &[u8], start: usize, clear: usize) -> usize
    requires start { start ≤ length text.now }
    requires behind { start ≤ clear }
    requires clear { clear ≤ start + line_len (drop start text.now) }
    ensures { result ≡ start + line_len (drop start text.now) }
{
    clear + line_len(&text[clear..])
}

/// Makes that item the only one of the stack, or none.
#[inline(always)]
fn put_item<'t>(stack: &mut Vec<Enclosure<'t>>, item: LineItem<'t>) -> Result<(), AllocError>
    ensures { OnOk result (chain_of stack.new.items ≡ chain_in (item_in item.entry)) }
{
    stack.clear();
    let closer = item.closer;
    if let Some(kind) = item.kind {
        stack.push(Enclosure { kind, closer })?;
    }
    Ok(())
}

/// Walks the next line, which goes to `end`, and counts it; whether it did: not where an item opens
/// within another. No more than that item encloses its beginning.
#[inline(always)]
fn read_next<'a, 't>(
    reading: &Reading<'a, 't>,
    so_far: &mut ReadSoFar<'a, 't>,
    item: LineItem<'t>,
    end: usize,
) -> Result<bool, CountError>
    requires family { reading.now.family ≡ Family.Plain }
    requires under_way { IsUnderWay reading.now so_far.old }
    requires item { chain_of so_far.old.stack.items ≡ chain_in (item_in item) }
    requires some { so_far.old.start < length reading.now.text.now }
    requires end { end ≡ so_far.old.start + line_len (drop so_far.old.start reading.now.text.now) }
    requires walked { is_walked (openers_in reading.now)
        (innermost (chain_of so_far.old.stack.items))
        (line_from reading.now so_far.old.start) ≡ true }
    ensures under_way { OnOk result (IsUnderWay reading.now so_far.new) }
    ensures on { IfOk result (λ read. read ≡ true → so_far.old.start < so_far.new.start) }
    ensures low { OnOk result (so_far.old.start ≤ so_far.new.start) }
    ensures overflow { IsErrOf result CountError.Overflow → ¬ Fits (reading_of reading.now) }
{
    let place = Place {
        reading,
        behind_child: so_far.behind_child,
        start: so_far.start,
        at: so_far.start,
        end,
    };
    let Some(line) = read_line(&place, item) else {
        return Ok(false);
    };
    put_item(&mut so_far.stack, line.item)?;
    so_far.own_steps += line.steps;
    add_line(&mut so_far.own, line.class)?;
    so_far.start = line.stop;
    Ok(true)
}

/// Reads lines from where the reading has come to on: up to one before which no opener is near, or
/// in which an item opens within another, or to the last few bytes.
#[inline(never)]
fn read_lines<'a, 't>(
    reading: &Reading<'a, 't>,
    marks: &LineMarks,
    so_far: &mut ReadSoFar<'a, 't>,
) -> Result<(), CountError>
    requires skips { reading.now.skips ≡ true }
    requires family { reading.now.family ≡ Family.Plain }
    requires marks { AreLineMarks marks.now reading.now.matchers.now.begins
        (openers_in reading.now) }
    requires under_way { IsUnderWay reading.now so_far.old }
    ensures under_way { OnOk result (IsUnderWay reading.now so_far.new) }
    ensures low { OnOk result (so_far.old.start ≤ so_far.new.start) }
    ensures quiet { first_opener (openers (row_in reading.now)) reading.now.text.now ≡ None
        → IsOk result }
    ensures overflow { IsErrOf result CountError.Overflow → ¬ Fits (reading_of reading.now) }
{
    let text = reading.text;
    while LEAST <= text.len() - so_far.start && so_far.stack.len() < 2 {
        let item = line_item(&so_far.stack);
        let closer = item.closer;
        let clear = match item.kind {
            None => {
                let to = count_lines_ahead(reading, marks, so_far)?;
                if text.len() <= to {
                    return Ok(());
                }
                to
            }
            Some(kind) => skip_within(reading, so_far, Enclosure { kind, closer })?,
        };
        if text.len() <= so_far.start {
            return Ok(());
        }
        let end = end_behind(text, so_far.start, clear);
        if !read_next(reading, so_far, item, end)? {
            return Ok(());
        }
    }
    Ok(())
}

/// Reads the next line, which begins in a comment that another encloses, and counts it; whether it
/// did: just where one comment opens or closes in it.
#[inline(always)]
fn read_next_nested<'a, 't>(
    reading: &Reading<'a, 't>,
    so_far: &mut ReadSoFar<'a, 't>,
) -> Result<bool, CountError>
    requires under_way { IsUnderWay reading.now so_far.old }
    requires some { so_far.old.start < length reading.now.text.now }
    requires walked { is_walked (openers_in reading.now)
        (innermost (chain_of so_far.old.stack.items))
        (line_from reading.now so_far.old.start) ≡ true }
    ensures under_way { OnOk result (IsUnderWay reading.now so_far.new) }
    ensures on { IfOk result (λ read. read ≡ true → so_far.old.start < so_far.new.start) }
    ensures low { OnOk result (so_far.old.start ≤ so_far.new.start) }
    ensures overflow { IsErrOf result CountError.Overflow → ¬ Fits (reading_of reading.now) }
{
    let end = end_behind(reading.text, so_far.start, so_far.start);
    let place = Place {
        reading,
        behind_child: so_far.behind_child,
        start: so_far.start,
        at: so_far.start,
        end,
    };
    let Some(nested) = read_nested_line(&place, &mut so_far.stack)? else {
        return Ok(false);
    };
    so_far.own_steps += nested.steps;
    add_line(&mut so_far.own, Class::Comment)?;
    so_far.start = nested.stop;
    Ok(true)
}

/// Reads lines that begin in a comment which another encloses, one after another, as long as just
/// one comment opens or closes in each.
#[inline(never)]
fn read_nested<'a, 't>(
    reading: &Reading<'a, 't>,
    so_far: &mut ReadSoFar<'a, 't>,
) -> Result<(), CountError>
    requires under_way { IsUnderWay reading.now so_far.old }
    ensures under_way { OnOk result (IsUnderWay reading.now so_far.new) }
    ensures low { OnOk result (so_far.old.start ≤ so_far.new.start) }
    ensures quiet { reading.now.skips ≡ true
        → first_opener (openers (row_in reading.now)) reading.now.text.now ≡ None → IsOk result }
    ensures overflow { IsErrOf result CountError.Overflow → ¬ Fits (reading_of reading.now) }
{
    let text = reading.text;
    while so_far.start < text.len() && 1 < so_far.stack.len() {
        if !read_next_nested(reading, so_far)? {
            return Ok(());
        }
    }
    Ok(())
}

/// Reads lines so where that is quicker. `end` is where an earlier place's line went to, and so is
/// the answer.
#[inline(always)]
pub(crate) fn read_near<'a, 't>(
    reading: &Reading<'a, 't>,
    so_far: &mut ReadSoFar<'a, 't>,
    end: usize,
) -> Result<usize, CountError>
    requires under_way { IsUnderWay reading.now so_far.old }
    requires line { so_far.old.start ≤ end
        → end ≡ so_far.old.start + line_len (drop so_far.old.start reading.now.text.now) }
    ensures under_way { OnOk result (IsUnderWay reading.now so_far.new) }
    ensures low { OnOk result (so_far.old.start ≤ so_far.new.start) }
    ensures line { IfOk result (λ end. so_far.new.start ≤ end
        → end ≡ so_far.new.start + line_len (drop so_far.new.start reading.now.text.now)) }
    ensures quiet { reading.now.skips ≡ true
        → first_opener (openers (row_in reading.now)) reading.now.text.now ≡ None → IsOk result }
    ensures overflow { IsErrOf result CountError.Overflow → ¬ Fits (reading_of reading.now) }
{
    let text = reading.text;
    let start = so_far.start;
    if !reading.skips {
        return Ok(end);
    }
    match (reading.family, reading.matchers.line_marks()) {
        _ if 1 < so_far.stack.len() => read_nested(reading, so_far)?,
        (Family::Plain, Some(marks)) if LEAST <= text.len() - start => {
            read_lines(reading, marks, so_far)?
        }
        _ => return Ok(end),
    }
    // another line's end isn't known yet, and mostly not asked for
    Ok(if so_far.start == start { end } else { 0 })
}
