//! The search for bytes of which one counts only before some others.
ghost use Rattle.std.specs.Prelude.{◌≡◌, ℕ, ◌+◌, ◌<◌, ◌≤◌, true, false, [], ◌∷◌, length};
ghost use Rattle.tokei_bytes.specs.Pairs.{counts_at};

use crate::one_of::{BLOCK, marks, marks_of_one};
use std::simd::prelude::*;

/// The first place of the `BLOCK` places of the text from `from` on at which one of the four bytes
/// stands, and where that is `first`, one of the four seconds behind it; or the place behind them
/// where there is none.
#[inline(always)]
fn first_pair_in_block(
    bytes: [u8; 4],
    first: u8,
    seconds: [u8; 4],
    text: &[u8],
    from: usize,
) -> usize
    requires { from + BLOCK < length text.now }
    ensures low { from ≤ result }
    ensures high { result ≤ from + BLOCK }
    ensures passed { (p : ℕ) → from ≤ p → p < result
        → counts_at bytes first seconds text.now p ≡ false }
    ensures found { result < from + BLOCK → counts_at bytes first seconds text.now result ≡ true }
{
    let here = u8x32::from_slice(&text[from..]);
    let behind = u8x32::from_slice(&text[from + 1..]);
    let alone = !marks_of_one(first, here);
    let marked = marks(bytes, here) & (alone | marks(seconds, behind));
    if marked == 0 {
        return from + BLOCK;
    }
    from + marked.trailing_zeros() as usize
}

/// The first place of the text from `from` on at which one of the four bytes stands, and where that
/// is `first`, one of the four seconds behind it; or a place from which on it isn't sought: `to` or
/// up to a block behind, or one from which the text has no block and a byte more.
#[inline(always)]
fn pair_between(
    bytes: [u8; 4],
    first: u8,
    seconds: [u8; 4],
    text: &[u8],
    from: usize,
    to: usize,
) -> usize
    requires within { to ≤ length text.now }
    ensures low { from ≤ result }
    ensures inside { from < result → result < length text.now }
    ensures passed { (p : ℕ) → from ≤ p → p < result
        → counts_at bytes first seconds text.now p ≡ false }
    ensures found { result < to → result + BLOCK < length text.now
        → counts_at bytes first seconds text.now result ≡ true }
{
    let mut at = from;
    while at < to && BLOCK < text.len() - at {
        let place = first_pair_in_block(bytes, first, seconds, text, at);
        if place < at + BLOCK {
            return place;
        }
        at += BLOCK;
    }
    at
}

/// The search in one block for two bytes, of which one counts before one second alone.
#[inline(always)]
fn first_of_two_in_block(other: u8, first: u8, second: u8, text: &[u8], from: usize) -> usize
    requires { from + BLOCK < length text.now }
    ensures low { from ≤ result }
    ensures high { result ≤ from + BLOCK }
    ensures passed { (p : ℕ) → from ≤ p → p < result
        → counts_at (other ∷ first ∷ []) first (second ∷ []) text.now p ≡ false }
    ensures found { result < from + BLOCK
        → counts_at (other ∷ first ∷ []) first (second ∷ []) text.now result ≡ true }
{
    let here = u8x32::from_slice(&text[from..]);
    let behind = u8x32::from_slice(&text[from + 1..]);
    let firsts = marks_of_one(first, here);
    let marked = marks_of_one(other, here) & !firsts | firsts & marks_of_one(second, behind);
    if marked == 0 {
        return from + BLOCK;
    }
    from + marked.trailing_zeros() as usize
}

/// The search for them.
#[inline(always)]
fn of_two_between(other: u8, first: u8, second: u8, text: &[u8], from: usize, to: usize) -> usize
    requires within { to ≤ length text.now }
    ensures low { from ≤ result }
    ensures inside { from < result → result < length text.now }
    ensures passed { (p : ℕ) → from ≤ p → p < result
        → counts_at (other ∷ first ∷ []) first (second ∷ []) text.now p ≡ false }
    ensures found { result < to → result + BLOCK < length text.now
        → counts_at (other ∷ first ∷ []) first (second ∷ []) text.now result ≡ true }
{
    let mut at = from;
    while at < to && BLOCK < text.len() - at {
        let place = first_of_two_in_block(other, first, second, text, at);
        if place < at + BLOCK {
            return place;
        }
        at += BLOCK;
    }
    at
}

/// The same search, which is less work for two bytes and one second.
#[inline(always)]
pub fn next_pair(
    bytes: [u8; 4],
    first: u8,
    seconds: [u8; 4],
    text: &[u8],
    from: usize,
    to: usize,
) -> usize
    requires within { to ≤ length text.now }
    ensures low { from ≤ result }
    ensures inside { from < result → result < length text.now }
    ensures passed { (p : ℕ) → from ≤ p → p < result
        → counts_at bytes first seconds text.now p ≡ false }
    ensures found { result < to → result + BLOCK < length text.now
        → counts_at bytes first seconds text.now result ≡ true }
{
    let [a, b, c, d] = bytes;
    let [second, q, r, s] = seconds;
    if c == a && d == b && q == second && r == second && s == second {
        if first == b {
            return of_two_between(a, first, second, text, from, to);
        }
        if first == a {
            return of_two_between(b, first, second, text, from, to);
        }
    }
    pair_between(bytes, first, seconds, text, from, to)
}
