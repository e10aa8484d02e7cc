//! The searches, 16, 32 or 64 places at a time.
ghost use Rattle.std.specs.Prelude.{◌≡◌, ◌+◌, ◌<◌, ◌≤◌, ◌==◌, not, length, map};
ghost use Rattle.std.specs.Simd.Lanes.{mask_l};
ghost use Rattle.tokei_bytes.specs.FirstPlace.{IsFirstPlace};
ghost use Rattle.tokei_bytes.specs.OneOf.{is_none_of, is_one_of};

use std::simd::prelude::*;

/// How many places are tested at once for some bytes.
pub const BLOCK: usize = 32;

/// The same for other bytes than some, which mostly stand close by.
pub const SHORT_BLOCK: usize = 16;

/// Bit k is set where lane k is one of the four.
#[inline(always)]
pub(crate) fn marks(bytes: [u8; 4], lanes: u8x32) -> u64
    ensures { result ≡ mask_l (map (is_one_of bytes) lanes) }
{
    let front = lanes.simd_eq(u8x32::splat(bytes[0])) | lanes.simd_eq(u8x32::splat(bytes[1]));
    let back = lanes.simd_eq(u8x32::splat(bytes[2])) | lanes.simd_eq(u8x32::splat(bytes[3]));
    (front | back).to_bitmask()
}

/// Bit k is set where lane k is the byte: one comparison, where four of the same byte would be
/// four.
#[inline(always)]
pub(crate) fn marks_of_one(byte: u8, lanes: u8x32) -> u64
    ensures { result ≡ mask_l (map (λ x. x == byte) lanes) }
{
    lanes.simd_eq(u8x32::splat(byte)).to_bitmask()
}

/// How many of the `BLOCK` bytes of the text from the place `from` on stand before the first that
/// is one of the four: all where none is. A place counts the bytes of the text before it.
#[inline(always)]
pub fn gap_in_block(bytes: [u8; 4], text: &[u8], from: usize) -> usize
    requires { from + BLOCK ≤ length text.now }
    ensures { IsFirstPlace (is_one_of bytes) text.now from (from + BLOCK) (from + result) }
{
    let marked = marks(bytes, u8x32::from_slice(&text[from..]));
    if marked == 0 {
        return BLOCK;
    }
    marked.trailing_zeros() as usize
}

/// Whether the byte is one of the four.
#[inline(always)]
fn is_one_of(bytes: [u8; 4], byte: u8) -> bool
    ensures { result ≡ is_one_of bytes byte }
{
    byte == bytes[0] || byte == bytes[1] || byte == bytes[2] || byte == bytes[3]
}

/// The same search one place at a time, for a text that has no block.
fn first_by_one(bytes: [u8; 4], text: &[u8], from: usize, to: usize) -> usize
    requires order { from ≤ to }
    requires within { to ≤ length text.now }
    ensures { IsFirstPlace (is_one_of bytes) text.now from to result }
{
    let mut at = from;
    while at < to && !is_one_of(bytes, text[at]) {
        at += 1;
    }
    at
}

/// The same search up to the end of a text that has fewer than `BLOCK` bytes from `from` on: in the
/// block that ends with it.
#[inline(always)]
fn first_in_last_block(bytes: [u8; 4], text: &[u8], from: usize) -> usize
    requires long { BLOCK ≤ length text.now }
    requires short { length text.now < from + BLOCK }
    requires within { from ≤ length text.now }
    ensures { IsFirstPlace (is_one_of bytes) text.now from (length text.now) result }
{
    let base = text.len() - BLOCK;
    let left = marks(bytes, u8x32::from_slice(&text[base..])) >> (from - base);
    if left == 0 {
        return text.len();
    }
    from + left.trailing_zeros() as usize
}

/// The same search from a place on from which the text has fewer than `BLOCK` bytes. It stands in
/// no caller's code, since it is rarely run.
#[inline(never)]
fn first_in_rest(bytes: [u8; 4], text: &[u8], from: usize, to: usize) -> usize
    requires order { from ≤ to }
    requires within { to ≤ length text.now }
    requires short { length text.now < from + BLOCK }
    ensures { IsFirstPlace (is_one_of bytes) text.now from to result }
{
    if text.len() < BLOCK {
        return first_by_one(bytes, text, from, to);
    }
    // The block goes on to the text's end, where a hit is none.
    to.min(first_in_last_block(bytes, text, from))
}

/// The first place of the text, from `from` to before `to`, whose byte is one of the four, or `to`
/// where there is none. A place counts the bytes of the text before it. Fewer than four are
/// searched for by naming some more than once.
#[inline(always)]
pub fn first_of_four(bytes: [u8; 4], text: &[u8], from: usize, to: usize) -> usize
    requires order { from ≤ to }
    requires within { to ≤ length text.now }
    ensures { IsFirstPlace (is_one_of bytes) text.now from to result }
{
    let mut at = from;
    while at < to {
        if text.len() - at < BLOCK {
            return first_in_rest(bytes, text, at, to);
        }
        let marked = marks(bytes, u8x32::from_slice(&text[at..]));
        if marked != 0 {
            // The block may go on past `to`, where a hit is none.
            return to.min(at + marked.trailing_zeros() as usize);
        }
        at += BLOCK;
    }
    to
}

/// The same search for four bytes that mostly are two, as the last two repeat the first two or the
/// second one: then each place is compared with two bytes, and not with four.
#[inline(always)]
pub fn first_of_two_or_four(bytes: [u8; 4], text: &[u8], from: usize, to: usize) -> usize
    requires order { from ≤ to }
    requires within { to ≤ length text.now }
    ensures { IsFirstPlace (is_one_of bytes) text.now from to result }
{
    let [a, b, c, d] = bytes;
    if d == b && (c == a || c == b) {
        first_of_four([a, b, a, b], text, from, to)
    } else {
        first_of_four(bytes, text, from, to)
    }
}

/// Bit k is set where lane k is none of the four.
#[inline(always)]
fn marks_of_others(bytes: [u8; 4], lanes: u8x16) -> u64
    ensures { result ≡ mask_l (map (λ x. not (is_one_of bytes x)) lanes) }
{
    let front = lanes.simd_ne(u8x16::splat(bytes[0])) & lanes.simd_ne(u8x16::splat(bytes[1]));
    let back = lanes.simd_ne(u8x16::splat(bytes[2])) & lanes.simd_ne(u8x16::splat(bytes[3]));
    (front & back).to_bitmask()
}

/// The first place of the `SHORT_BLOCK` places of the text from `from` on whose byte is none of the
/// four, or the place behind them where each is one. A place counts the bytes of the text before
/// it.
#[inline(always)]
pub fn first_other_in_block(bytes: [u8; 4], text: &[u8], from: usize) -> usize
    requires { from + SHORT_BLOCK ≤ length text.now }
    ensures { IsFirstPlace (is_none_of bytes) text.now from (from + SHORT_BLOCK) result }
{
    let others = marks_of_others(bytes, u8x16::from_slice(&text[from..]));
    if others == 0 {
        return from + SHORT_BLOCK;
    }
    from + others.trailing_zeros() as usize
}

/// The search for another byte one place at a time, for the end of a text.
#[inline(never)]
fn first_other_by_one(bytes: [u8; 4], text: &[u8], from: usize, to: usize) -> usize
    requires order { from ≤ to }
    requires within { to ≤ length text.now }
    ensures { IsFirstPlace (is_none_of bytes) text.now from to result }
{
    let mut at = from;
    while at < to && is_one_of(bytes, text[at]) {
        at += 1;
    }
    at
}

/// The first place of the text, from `from` to before `to`, whose byte is none of the four, or `to`
/// where each is. A place counts the bytes of the text before it.
#[inline(always)]
pub fn first_not_of_four(bytes: [u8; 4], text: &[u8], from: usize, to: usize) -> usize
    requires order { from ≤ to }
    requires within { to ≤ length text.now }
    ensures { IsFirstPlace (is_none_of bytes) text.now from to result }
{
    let mut at = from;
    while at < to {
        if text.len() - at < SHORT_BLOCK {
            return first_other_by_one(bytes, text, at, to);
        }
        // The block may go on past `to`, where nothing is found.
        let other = first_other_in_block(bytes, text, at);
        if other < at + SHORT_BLOCK {
            return to.min(other);
        }
        at += SHORT_BLOCK;
    }
    to
}
