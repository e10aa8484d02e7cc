//! The next place at which a block can open, so that a walk of a part looks for its children once.
ghost use Rattle.std.specs.Prelude.{◌≡◌, ℕ, ◌+◌, ◌-◌, ◌≤◌, ◌<◌, true, false, is_some, IfSome, None};
ghost use Rattle.std.specs.Prelude.{length, drop, codes, slice_index};
ghost use Rattle.tokei_table_row.specs.Bytes.{is_blank};
ghost use Rattle.tokei_embedding.specs.DocComments.{first_line, front_mark, doc_block};
ghost use Rattle.tokei_embedding.specs.Fences.{first_fence};
ghost use Rattle.tokei_embedding.specs.NextOpenings.{OpensNoFence, OpensNoTarget};
ghost use Rattle.tokei_table_row.specs.Slices.{between};
ghost use Rattle.tokei_embedding.specs.Searches.{first_of, is_at};

use crate::doc_comments::front_mark;
use crate::fences::first_fence;
use crate::searches::first_of;
use crate::target_blocks::OPENER;
use tokei_bytes::first_of_one;
use tokei_table_row::ext::is_whitespace;

/// The place in the text of what was found in the part that begins at `start`, where it stands at
/// `at` or behind it; else `to`.
pub(crate) fn next_of(found: Option<usize>, start: usize, at: usize, to: usize) -> usize
    requires order { start ≤ at }
    requires inside { at ≤ to }
    requires within { IfSome found (λ i. start + i < to) }
    ensures low { at ≤ result }
    ensures high { result ≤ to }
    ensures none { (p : ℕ) → at ≤ p → p < result → is_at (p - start) found ≡ false }
    ensures exact { result < to → is_at (result - start) found ≡ true }
{
    match found {
        Some(i) if at <= start + i => start + i,
        _ => to,
    }
}

/// The first place from `at` on at which a fence can open in the part `text[start..to]`: its first
/// fence opening. `to` where there is none, or where that one stands before `at`.
pub fn next_fence(text: &[u8], start: usize, at: usize, to: usize) -> usize
    requires order { start ≤ at }
    requires inside { at ≤ to }
    requires ends { to ≤ length text.now }
    ensures low { at ≤ result }
    ensures high { result ≤ to }
    ensures none { OpensNoFence text.now start to at result }
    ensures exact { result < to
        → is_at (result - start) (first_fence (between text.now start to)) ≡ true }
{
    next_of(first_fence(text, start, to), start, at, to)
}

/// The first place from `at` on at which a block of the target language can open in the part
/// `text[start..to]`: its first `{=`. `to` where there is none, or where that one stands before
/// `at`.
pub fn next_target(text: &[u8], start: usize, at: usize, to: usize) -> usize
    requires order { start ≤ at }
    requires inside { at ≤ to }
    requires ends { to ≤ length text.now }
    ensures low { at ≤ result }
    ensures high { result ≤ to }
    ensures none { OpensNoTarget text.now start to at result }
    ensures exact { result < to
        → is_at (result - start) (first_of (codes "{=") (between text.now start to)) ≡ true }
{
    next_of(first_of(&text[start..to], OPENER), start, at, to)
}

/// Where the blanks begin that stand right before the place `end`, but no earlier than `from`.
fn blanks_start(text: &[u8], from: usize, end: usize) -> usize
    requires order { from ≤ end }
    requires within { end ≤ length text.now }
    ensures low { from ≤ result }
    ensures high { result ≤ end }
    ensures blank { (p : ℕ) → result ≤ p → p < end → is_blank (slice_index text.now p) ≡ true }
    ensures first { from < result → is_blank (slice_index text.now (result - 1)) ≡ false }
{
    let mut start = end;
    while from < start && is_whitespace(text[start - 1]) {
        start -= 1;
    }
    start
}

/// The first place from `at` on at which a block of doc comments opens in the rest of a line
/// `text[at..to]`: the first mark, or the first of the blanks right before it. `to` where no mark
/// stands there.
pub fn next_doc(text: &[u8], at: usize, to: usize) -> usize
    requires inside { at ≤ to }
    requires ends { to ≤ length text.now }
    requires line { at < to → to ≡ at + length (first_line (drop at text.now)) }
    ensures low { at ≤ result }
    ensures high { result ≤ to }
    ensures none { (p : ℕ) → at ≤ p → p < result → doc_block (drop p text.now) ≡ None }
    ensures exact { result < to → is_some (doc_block (drop result text.now)) ≡ true }
{
    let mut slash = first_of_one(b'/', text, at, to);
    while slash < to {
        if front_mark(&text[slash..to]).is_some() {
            return blanks_start(text, at, slash);
        }
        slash = first_of_one(b'/', text, slash + 1, to);
    }
    to
}
