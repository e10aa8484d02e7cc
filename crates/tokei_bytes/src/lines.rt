//! The lines of a text, 32 bytes at a time.
ghost use Rattle.std.specs.Prelude.{◌≡◌, ◌+◌, ◌<◌, ◌≤◌, ◌==◌, true, drop, length, map};
ghost use Rattle.std.specs.Simd.Lanes.{chunk, mask_l};
ghost use Rattle.tokei_bytes.specs.Lines.{newline, is_blank, flag, blank_after, front_count, fronts, goes_on, line_count, newline_count};

use crate::one_of::{BLOCK, marks_of_one};
use crate::slots::slotted_marks;
use std::simd::prelude::*;

/// Each blank in the slot of its low half; the others have a byte of another one.
const BLANKS: [u8; 16] = [
    b' ', 0, 0, 0, 0, 0, 0, 0, 0, b'\t', b'\n', 11, 12, b'\r', 0, 0,
];

/// What one look at a block shows of its lines.
#[derive(Clone, Copy)]
pub struct LineMasks {
    /// Bit k is set where byte k of the block is a newline.
    pub newlines: u64,
    /// Bit k is set where byte k is its line's front: the first byte that isn't blank.
    pub fronts: u64,
    /// 1 where the line that the block ends in has no front up to there, else 0.
    pub blank: u64,
}

/// How many lines there are.
#[derive(Clone, Copy)]
pub struct LineCounts {
    pub blank: usize,
    pub solid: usize,
}

/// Bit k is set where lane k is a blank.
#[inline(always)]
fn blank_marks(lanes: u8x32) -> u64
    ensures { result ≡ mask_l (map is_blank lanes) }
{
    let blanks = BLANKS;
    slotted_marks(&blanks, lanes)
}

/// The lines of the `BLOCK` bytes of the text from `from` on. `blank` is 1 where the line that they
/// begin in has no front before, else 0.
#[inline(always)]
pub fn line_masks(text: &[u8], from: usize, blank: u64) -> LineMasks
    requires within { from + BLOCK ≤ length text.now }
    requires flag { blank < 2 }
    ensures newlines { result.newlines ≡ mask_l (map (λ x. x == newline) (chunk from 32 text.now)) }
    ensures fronts { result.fronts ≡ mask_l (fronts (blank == 1) (chunk from 32 text.now)) }
    ensures blank { result.blank ≡ flag (blank_after (blank == 1) (chunk from 32 text.now)) }
{
    let lanes = u8x32::from_slice(&text[from..]);
    let newlines = marks_of_one(b'\n', lanes);
    let blanks = blank_marks(lanes);
    let solids = u32::MAX as u64 - blanks;
    // a blank passes on what is carried to it, a newline carries, and no other byte does
    let carried = blanks + newlines + blank;
    LineMasks {
        newlines,
        fronts: carried & solids,
        blank: carried >> 32,
    }
}

/// What was counted of a text, up to a place.
#[derive(Clone, Copy)]
struct Counted {
    at: usize,
    newlines: usize,
    fronts: usize,
    blank: u64,
}

/// The blocks of the text from `from` on, which begins a line.
fn count_blocks(text: &[u8], from: usize) -> Counted
    requires { from ≤ length text.now }
    ensures low { from ≤ result.at }
    ensures high { result.at ≤ length text.now }
    ensures flag { result.blank < 2 }
    ensures newlines { result.newlines + newline_count (drop result.at text.now)
        ≡ newline_count (drop from text.now) }
    ensures fronts { result.fronts + front_count (result.blank == 1) (drop result.at text.now)
        ≡ front_count true (drop from text.now) }
{
    let mut at = from;
    let mut newlines = 0;
    let mut fronts = 0;
    let mut blank = 1;
    while BLOCK <= text.len() - at {
        let lines = line_masks(text, at, blank);
        newlines += lines.newlines.count_ones() as usize;
        fronts += lines.fronts.count_ones() as usize;
        blank = lines.blank;
        at += BLOCK;
    }
    Counted {
        at,
        newlines,
        fronts,
        blank,
    }
}

/// Whether the byte is a blank.
fn is_blank(byte: u8) -> bool
    ensures { result ≡ is_blank byte }
{
    byte == b' ' || (b'\t' <= byte && byte <= b'\r')
}

/// Whether bytes of the text, from `from` on, stand behind its last newline.
fn goes_on(text: &[u8], from: usize) -> bool
    ensures { result ≡ goes_on (drop from text.now) }
{
    from < text.len() && text[text.len() - 1] != b'\n'
}

/// The lines of the text from `from` on, which begins one.
pub fn count_lines(text: &[u8], from: usize) -> LineCounts
    requires { from ≤ length text.now }
    ensures solid { result.solid ≡ front_count true (drop from text.now) }
    ensures all { result.blank + result.solid ≡ line_count (drop from text.now) }
{
    let counted = count_blocks(text, from);
    let mut newlines = counted.newlines;
    let mut fronts = counted.fronts;
    let mut blank = counted.blank == 1;
    let mut at = counted.at;
    while at < text.len() {
        let byte = text[at];
        if byte == b'\n' {
            newlines += 1;
            blank = true;
        } else if blank && !is_blank(byte) {
            fronts += 1;
            blank = false;
        }
        at += 1;
    }
    let lines = newlines + goes_on(text, from) as usize;
    LineCounts {
        blank: lines - fronts,
        solid: fronts,
    }
}
