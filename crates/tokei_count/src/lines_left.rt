//! Lines that are counted all at once, by their bytes alone: those that are left of a text without
//! openers, in a language without comments, those of bytes at which nothing can begin, those before
//! an opener in a literate language, and those within an item.
ghost use Rattle.std.specs.Prelude.{◌≡◌, ℕ, ◌+◌, ◌<◌, ◌≤◌, true, false, [], None, Some, drop};
ghost use Rattle.std.specs.Prelude.{length, slice_index};
ghost use Rattle.std.specs.Prelude.{IsErrOf, IsOk, OnOk};
ghost use Rattle.tokei_table.specs.FirstOpener.{first_opener};
ghost use Rattle.tokei_table.specs.Openers.{openers};
ghost use Rattle.tokei_table.specs.RowOf.{row_of};
ghost use Rattle.tokei_parts.specs.Calm.{IsCalm};
ghost use Rattle.tokei_parts.specs.Glance.{opener_place};
ghost use Rattle.tokei_parts.specs.Modes.{innermost};
ghost use Rattle.tokei_parts.specs.PlainBytes.{BeginsNone};
ghost use Rattle.tokei_parts.specs.ReadingOf.{openers_in, row_in};
ghost use Rattle.tokei_parts.specs.Seen.{chain_of};
ghost use Rattle.tokei_parts.specs.SeenChoices.{mode_of};
ghost use Rattle.tokei_count.specs.ClassLines.{lines_in};
ghost use Rattle.tokei_count.specs.NoComments.{counts_in, has_no_comments};
ghost use Rattle.tokei_count.specs.Readers.{reading_of};
ghost use Rattle.tokei_count.specs.UnderWay.{IsUnderWay};
ghost use Rattle.tokei_stats.specs.Overflow.{Fits};
ghost use Rattle.tokei_stats.specs.Seen.{sums_of};

use crate::newlines::count_newlines;
use crate::text_reading::ReadSoFar;
use memchr::memrchr;
use tokei_bytes::{LineCounts, count_lines};
use tokei_parts::{Class, Enclosure, Reading, class_within};
use tokei_stats::{CountError, Sums};
use tokei_table_row::Syntax;

/// Whether the language has no comments.
pub(crate) fn has_no_comments(syntax: &Syntax) -> bool
    ensures { result ≡ has_no_comments (row_of syntax.now) }
{
    syntax.line_comment.len() == 0
        && syntax.multi_line_comments.len() == 0
        && syntax.nested_comments.len() == 0
}

/// What the lines count as, in a language that is literate or not.
fn sums_in(literate: bool, lines: LineCounts) -> Sums
    ensures { sums_of result ≡ counts_in literate lines.blank lines.solid }
{
    if literate {
        Sums {
            blanks: lines.blank,
            code: 0,
            comments: lines.solid,
        }
    } else {
        Sums {
            blanks: lines.blank,
            code: lines.solid,
            comments: 0,
        }
    }
}

/// Counts the lines that are left, where no opener is and the language has no comments.
#[inline(never)]
pub(crate) fn count_lines_left(reading: &Reading, so_far: &mut ReadSoFar) -> Result<(), CountError>
    requires skips { reading.now.skips ≡ true }
    requires under_way { IsUnderWay reading.now so_far.old }
    requires plain { chain_of so_far.old.stack.items ≡ [] }
    requires none { length reading.now.text.now ≡ so_far.old.start
        + opener_place (openers_in reading.now) (drop so_far.old.start reading.now.text.now) }
    requires bare { has_no_comments (row_in reading.now) ≡ true }
    ensures under_way { OnOk result (IsUnderWay reading.now so_far.new) }
    ensures end { OnOk result (so_far.new.start ≡ length reading.now.text.now) }
    ensures quiet { first_opener (openers (row_in reading.now)) reading.now.text.now ≡ None
        → IsOk result }
    ensures overflow { IsErrOf result CountError.Overflow → ¬ Fits (reading_of reading.now) }
{
    let text = reading.text;
    let lines = sums_in(reading.syntax.literate, count_lines(text, so_far.start));
    so_far.own = so_far.own.plus(lines)?;
    so_far.start = text.len();
    Ok(())
}

/// Up to where the lines before the opener at `next` are told by their fronts alone: up to a byte
/// at which a choice can begin, or in a literate language, where any line that isn't blank is a
/// comment, up to the opener.
#[inline(always)]
fn told_end(reading: &Reading, start: usize, next: usize) -> usize
    requires order { start ≤ next }
    requires within { next ≤ length reading.now.text.now }
    ensures low { start ≤ result }
    ensures high { result ≤ next }
    ensures told { (row_in reading.now).literate ≡ false → (p : ℕ) → start ≤ p → p < result
        → BeginsNone reading.now.matchers.now (slice_index reading.now.text.now p) }
{
    if reading.syntax.literate {
        return next;
    }
    reading.matchers.plain_end(reading.text, start, next)
}

/// Counts the next lines at whose bytes no choice can begin, or in a literate language whatever
/// bytes they have, of those that stop before the first opener, at `next`, or with the text: by its
/// front alone each is blank or not.
#[inline(never)]
fn count_stretch(reading: &Reading, so_far: &mut ReadSoFar, next: usize) -> Result<(), CountError>
    requires skips { reading.now.skips ≡ true }
    requires under_way { IsUnderWay reading.now so_far.old }
    requires plain { chain_of so_far.old.stack.items ≡ [] }
    requires next { next ≡ so_far.old.start
        + opener_place (openers_in reading.now) (drop so_far.old.start reading.now.text.now) }
    requires low { so_far.old.start ≤ next }
    requires within { next ≤ length reading.now.text.now }
    ensures under_way { OnOk result (IsUnderWay reading.now so_far.new) }
    ensures low { OnOk result (so_far.old.start ≤ so_far.new.start) }
    ensures high { OnOk result (so_far.new.start ≤ next) }
    ensures next { OnOk result (next ≡ so_far.new.start
        + opener_place (openers_in reading.now) (drop so_far.new.start reading.now.text.now)) }
    ensures plain { chain_of so_far.new.stack.items ≡ [] }
    ensures quiet { first_opener (openers (row_in reading.now)) reading.now.text.now ≡ None
        → IsOk result }
    ensures overflow { IsErrOf result CountError.Overflow → ¬ Fits (reading_of reading.now) }
{
    let text = reading.text;
    let told = told_end(reading, so_far.start, next);
    let Some(last) = memrchr(b'\n', &text[so_far.start..told]) else {
        return Ok(());
    };
    let stop = so_far.start + last + 1;
    let lines = sums_in(
        reading.syntax.literate,
        count_lines(&text[..stop], so_far.start),
    );
    so_far.own = so_far.own.plus(lines)?;
    so_far.start = stop;
    Ok(())
}

/// Where the next opener is nearer than so many bytes, lines are counted one after another: to look
/// at them all at once takes some preparation.
const LONG: usize = 256;

/// The same in a literate language, where the lines before an opener are looked at all at once with
/// no preparation by a search for a byte at which a choice can begin.
const SHORT: usize = 64;

/// Counts the next lines at whose bytes no choice can begin, or in a literate language whatever
/// bytes they have, where the first opener, at `next`, is far enough away.
#[inline(always)]
pub(crate) fn count_clear_lines(
    reading: &Reading,
    so_far: &mut ReadSoFar,
    next: usize,
) -> Result<(), CountError>
    requires skips { reading.now.skips ≡ true }
    requires under_way { IsUnderWay reading.now so_far.old }
    requires plain { chain_of so_far.old.stack.items ≡ [] }
    requires next { next ≡ so_far.old.start
        + opener_place (openers_in reading.now) (drop so_far.old.start reading.now.text.now) }
    requires low { so_far.old.start ≤ next }
    requires within { next ≤ length reading.now.text.now }
    ensures under_way { OnOk result (IsUnderWay reading.now so_far.new) }
    ensures low { OnOk result (so_far.old.start ≤ so_far.new.start) }
    ensures high { OnOk result (so_far.new.start ≤ next) }
    ensures next { OnOk result (next ≡ so_far.new.start
        + opener_place (openers_in reading.now) (drop so_far.new.start reading.now.text.now)) }
    ensures plain { chain_of so_far.new.stack.items ≡ [] }
    ensures quiet { first_opener (openers (row_in reading.now)) reading.now.text.now ≡ None
        → IsOk result }
    ensures overflow { IsErrOf result CountError.Overflow → ¬ Fits (reading_of reading.now) }
{
    let far = if reading.syntax.literate { SHORT } else { LONG };
    if next - so_far.start < far {
        return Ok(());
    }
    count_stretch(reading, so_far, next)
}

/// What so many lines of the class count as.
fn sums_of_class(class: Class, lines: usize) -> Sums
    ensures { sums_of result ≡ lines_in class lines }
{
    match class {
        Class::Blank => Sums {
            blanks: lines,
            code: 0,
            comments: 0,
        },
        Class::Code => Sums {
            blanks: 0,
            code: lines,
            comments: 0,
        },
        Class::Comment => Sums {
            blanks: 0,
            code: 0,
            comments: lines,
        },
    }
}

/// Counts the next lines that stop at `to` or before, all within the item that encloses them: up to
/// there each choice takes its byte.
#[inline(never)]
fn count_stretch_within(
    reading: &Reading,
    so_far: &mut ReadSoFar,
    item: Enclosure,
    to: usize,
) -> Result<(), CountError>
    requires under_way { IsUnderWay reading.now so_far.old }
    requires within { innermost (chain_of so_far.old.stack.items) ≡ mode_of (Some item) }
    requires calm { IsCalm (row_in reading.now) item reading.now.text.now so_far.old.start to }
    requires low { so_far.old.start ≤ to }
    requires high { to ≤ length reading.now.text.now }
    ensures under_way { OnOk result (IsUnderWay reading.now so_far.new) }
    ensures low { OnOk result (so_far.old.start ≤ so_far.new.start) }
    ensures high { OnOk result (so_far.new.start ≤ to) }
    ensures same { so_far.new.stack ≡ so_far.old.stack }
    ensures overflow { IsErrOf result CountError.Overflow → ¬ Fits (reading_of reading.now) }
{
    let text = reading.text;
    let Some(last) = memrchr(b'\n', &text[so_far.start..to]) else {
        return Ok(());
    };
    let stop = so_far.start + last + 1;
    let lines = count_newlines(&text[..stop], so_far.start);
    let within = sums_of_class(class_within(reading, item), lines);
    so_far.own = so_far.own.plus(within)?;
    so_far.own_steps += stop - so_far.start;
    so_far.start = stop;
    Ok(())
}

/// Counts the next lines that stop at `to` or before, all within the item that encloses them, where
/// they are long enough together.
#[inline(always)]
pub(crate) fn count_lines_within(
    reading: &Reading,
    so_far: &mut ReadSoFar,
    item: Enclosure,
    to: usize,
) -> Result<(), CountError>
    requires under_way { IsUnderWay reading.now so_far.old }
    requires within { innermost (chain_of so_far.old.stack.items) ≡ mode_of (Some item) }
    requires calm { IsCalm (row_in reading.now) item reading.now.text.now so_far.old.start to }
    requires low { so_far.old.start ≤ to }
    requires high { to ≤ length reading.now.text.now }
    ensures under_way { OnOk result (IsUnderWay reading.now so_far.new) }
    ensures low { OnOk result (so_far.old.start ≤ so_far.new.start) }
    ensures high { OnOk result (so_far.new.start ≤ to) }
    ensures same { so_far.new.stack ≡ so_far.old.stack }
    ensures overflow { IsErrOf result CountError.Overflow → ¬ Fits (reading_of reading.now) }
{
    if to - so_far.start < LONG {
        return Ok(());
    }
    count_stretch_within(reading, so_far, item, to)
}
