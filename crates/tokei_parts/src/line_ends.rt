//! Where lines end.
ghost use Rattle.std.specs.Prelude.{◌≡◌, ℕ, ◌+◌, ◌<◌, ◌≤◌, true, drop, length, slice_index};
ghost use Rattle.tokei_table.specs.Bytes.{is_blank, line_len};

use tokei_bytes::{BLOCK, first_of_one, first_other_in_block, gap_in_block};

/// The first newline of the text from the place `at` on, or `to` where none stands before that. It
/// is mostly near: then one look at a block finds it.
#[inline(always)]
pub fn newline_before(text: &[u8], at: usize, to: usize) -> usize
    requires order { at ≤ to }
    requires within { to ≤ length text.now }
    ensures high { result ≤ to }
    ensures line { result ≤ at + line_len (drop at text.now) }
    ensures found { result < to → result ≡ at + line_len (drop at text.now) }
{
    if text.len() - at < BLOCK {
        return first_of_one(b'\n', text, at, to);
    }
    let gap = gap_in_block([b'\n'; 4], text, at);
    if gap < BLOCK {
        return to.min(at + gap);
    }
    if to <= at + BLOCK {
        return to;
    }
    first_of_one(b'\n', text, at + BLOCK, to)
}

/// What one look at the front of a line shows.
#[derive(Clone, Copy)]
pub struct LineFront {
    /// The line's newline, or where it is sought no further.
    pub newline: usize,
    /// Only blanks stand before that place: mostly the first byte that is none, and where the look
    /// began if no block of the text begins there.
    pub solid: usize,
}

/// The front of the line of the place `at`, whose newline is sought up to `to`.
#[inline(always)]
pub fn line_front(text: &[u8], at: usize, to: usize) -> LineFront
    requires order { at ≤ to }
    requires within { to ≤ length text.now }
    ensures high { result.newline ≤ to }
    ensures line { result.newline ≤ at + line_len (drop at text.now) }
    ensures found { result.newline < to → result.newline ≡ at + line_len (drop at text.now) }
    ensures low { at ≤ result.solid }
    ensures blank { (p : ℕ) → at ≤ p → p < result.solid → is_blank (slice_index text.now p) ≡ true }
{
    if text.len() - at < BLOCK {
        let newline = newline_before(text, at, to);
        return LineFront { newline, solid: at };
    }
    let gap = gap_in_block([b'\n'; 4], text, at);
    let solid = first_other_in_block(*b" \t\n\r", text, at);
    let newline = if gap < BLOCK {
        to.min(at + gap)
    } else if to <= at + BLOCK {
        to
    } else {
        newline_before(text, at + BLOCK, to)
    };
    LineFront { newline, solid }
}

/// How many bytes stand before the first newline, or in all.
#[inline(always)]
pub fn line_len(text: &[u8]) -> usize
    ensures value { result ≡ line_len text.now }
    ensures within { result ≤ length text.now }
{
    newline_before(text, 0, text.len())
}

/// Where the line of the place `start` goes to, before its newline. `end` is where an earlier
/// place's line went to: the same line, where `start` hasn't passed it, and nothing is searched. No
/// newline stands before `clear`.
#[inline(always)]
pub fn line_end(text: &[u8], start: usize, clear: usize, end: usize) -> usize
    requires start { start ≤ length text.now }
    requires known { start ≤ end → end ≡ start + line_len (drop start text.now) }
    requires behind { start ≤ clear }
    requires clear { clear ≤ start + line_len (drop start text.now) }
    ensures { result ≡ start + line_len (drop start text.now) }
{
    if start <= end {
        return end;
    }
    clear + line_len(&text[clear..])
}

/// Where the line stops that goes to `end`: behind its newline, or with the text.
pub fn line_stop(text: &[u8], end: usize) -> usize
    requires { end ≤ length text.now }
    ensures within { result ≤ length text.now }
    ensures more { end < length text.now → result ≡ end + 1 }
    ensures last { end ≡ length text.now → result ≡ end }
{
    if end < text.len() { end + 1 } else { end }
}
