//! Sets of bytes that one look-up tests, 32 at a time: no two bytes of one have the same low half.
ghost use Rattle.std.specs.Prelude.{◌≡◌, ℕ, ◌+◌, ◌%◌, ◌<◌, ◌≤◌, ◌||◌, ◌⊎◌, true, false, length, map, slice_index};
ghost use Rattle.std.specs.Simd.Lanes.{chunk, mask_l};
ghost use Rattle.tokei_bytes.specs.FirstPlace.{IsFirstPlace};
ghost use Rattle.tokei_bytes.specs.Slots.{HasSlots, has_room, in_slots, is_slotted, is_told};

use crate::one_of::BLOCK;
use std::simd::prelude::*;

/// Slots of no bytes: each has a byte with another low half.
pub const NO_SLOTS: [u8; 16] = [1, 0, 0, 0, 0, 0, 0, 0, 0, 0, 0, 0, 0, 0, 0, 0];

/// Puts the byte into its slot; whether none that had it was put there before.
pub fn put_slot(slots: &mut [u8; 16], byte: u8) -> bool
    ensures room { result ≡ has_room slots.old byte }
    ensures stays { result ≡ true → (x : ℕ) → is_slotted slots.old x ≡ true
        → is_slotted slots.new x ≡ true }
    ensures put { result ≡ true → is_slotted slots.new byte ≡ true }
    ensures only { (x : ℕ) → is_slotted slots.new x ≡ true
        → (is_slotted slots.old x ≡ true) ⊎ (x ≡ byte) }
    ensures kept { result ≡ false → slots.new ≡ slots.old }
{
    let half = (byte % 16) as usize;
    if slots[half] == byte {
        return true;
    }
    if slots[half] % 16 == byte % 16 {
        return false;
    }
    slots[half] = byte;
    true
}

/// Puts the byte into its slot in the first table, or where that has another byte in the second;
/// whether one of them has it then.
pub fn put_slot_of_two(slots: &mut [u8; 16], others: &mut [u8; 16], byte: u8) -> bool
    ensures room { result ≡ (has_room slots.old byte || has_room others.old byte) }
    ensures first { has_room slots.old byte ≡ true → others.new ≡ others.old }
    ensures stays { result ≡ true → (x : ℕ) → in_slots slots.old others.old x ≡ true
        → in_slots slots.new others.new x ≡ true }
    ensures put { result ≡ true → in_slots slots.new others.new byte ≡ true }
    ensures only { (x : ℕ) → in_slots slots.new others.new x ≡ true
        → (in_slots slots.old others.old x ≡ true) ⊎ (x ≡ byte) }
    ensures kept { result ≡ false → slots.new ≡ slots.old }
    ensures kept_too { result ≡ false → others.new ≡ others.old }
{
    put_slot(slots, byte) || put_slot(others, byte)
}

/// Whether these are the slots of no bytes.
pub fn are_no_slots(slots: &[u8; 16]) -> bool
    ensures { result ≡ true → (x : ℕ) → is_slotted slots.now x ≡ false }
{
    *slots == NO_SLOTS
}

/// The slots twice, one after the other.
#[inline(always)]
fn twice(slots: &[u8; 16]) -> u8x32
    ensures { HasSlots slots.now result }
{
    u8x16::from_slice(slots).swizzle([
        0, 1, 2, 3, 4, 5, 6, 7, 8, 9, 10, 11, 12, 13, 14, 15, 0, 1, 2, 3, 4, 5, 6, 7, 8, 9, 10, 11,
        12, 13, 14, 15,
    ])
}

/// What stands in the slot of each lane's low half.
#[inline(always)]
fn looked_up(slots: &[u8; 16], lanes: u8x32) -> u8x32
    ensures { result ≡ map (λ x. slice_index slots.now (x % 16)) lanes }
{
    twice(slots).swizzle_dyn_within::<16>(lanes & u8x32::splat(15))
}

/// Bit k is set where lane k stands in the slot of its low half.
#[inline(always)]
pub(crate) fn slotted_marks(slots: &[u8; 16], lanes: u8x32) -> u64
    ensures { result ≡ mask_l (map (is_slotted slots.now) lanes) }
{
    looked_up(slots, lanes).simd_eq(lanes).to_bitmask()
}

/// Bit k is set where byte k of the `BLOCK` bytes of the text from `from` on stands in the slot of
/// its low half.
#[inline(always)]
pub fn marks_in_block(slots: &[u8; 16], text: &[u8], from: usize) -> u64
    requires { from + BLOCK ≤ length text.now }
    ensures { result ≡ mask_l (map (is_slotted slots.now) (chunk from 32 text.now)) }
{
    slotted_marks(slots, u8x32::from_slice(&text[from..]))
}

/// Bit k is set where byte k of the `BLOCK` bytes of the text from `from` on stands in the slot of
/// its low half in one of two tables.
#[inline(always)]
pub fn marks_of_two(slots: &[u8; 16], others: &[u8; 16], text: &[u8], from: usize) -> u64
    requires { from + BLOCK ≤ length text.now }
    ensures { result ≡ mask_l (map (in_slots slots.now others.now) (chunk from 32 text.now)) }
{
    let lanes = u8x32::from_slice(&text[from..]);
    slotted_marks(slots, lanes) | slotted_marks(others, lanes)
}

/// Whether the byte stands in the slot of its low half.
#[inline(always)]
pub fn is_slotted(slots: [u8; 16], byte: u8) -> bool
    ensures { result ≡ is_slotted slots byte }
{
    slots[(byte % 16) as usize] == byte
}

/// The search of `first_slotted` one place at a time, where the text has no block from there on.
#[inline(never)]
fn slotted_by_one(slots: [u8; 16], text: &[u8], from: usize, to: usize) -> usize
    requires order { from ≤ to }
    requires within { to ≤ length text.now }
    ensures { IsFirstPlace (is_slotted slots) text.now from to result }
{
    let mut at = from;
    while at < to && !is_slotted(slots, text[at]) {
        at += 1;
    }
    at
}

/// The first place of the text, from `from` to before `to`, whose byte stands in the slot of its
/// low half, or `to` where there is none. A place counts the bytes of the text before it. One
/// look-up tests 32 bytes, where up to four would be as many comparisons.
#[inline(always)]
pub fn first_slotted(slots: [u8; 16], text: &[u8], from: usize, to: usize) -> usize
    requires order { from ≤ to }
    requires within { to ≤ length text.now }
    ensures { IsFirstPlace (is_slotted slots) text.now from to result }
{
    let mut at = from;
    while at < to {
        if text.len() - at < BLOCK {
            return slotted_by_one(slots, text, at, to);
        }
        let marked = slotted_marks(&slots, u8x32::from_slice(&text[at..]));
        if marked != 0 {
            // The block may go on past `to`, where a hit is none.
            return to.min(at + marked.trailing_zeros() as usize);
        }
        at += BLOCK;
    }
    to
}

/// The first place of the `BLOCK` places of the text from `from` on whose byte stands in one of two
/// slots, or the place behind them where none does.
#[inline(always)]
fn first_slotted_in_block(slots: [u8; 16], others: [u8; 16], text: &[u8], from: usize) -> usize
    requires { from + BLOCK ≤ length text.now }
    ensures low { from ≤ result }
    ensures high { result ≤ from + BLOCK }
    ensures passed { (p : ℕ) → from ≤ p → p < result
        → in_slots slots others (slice_index text.now p) ≡ false }
{
    let lanes = u8x32::from_slice(&text[from..]);
    let ones = slotted_marks(&slots, lanes);
    let twos = slotted_marks(&others, lanes);
    let marked = ones | twos;
    if marked == 0 {
        return from + BLOCK;
    }
    from + marked.trailing_zeros() as usize
}

/// The first place of the text from `from` on whose byte stands in one of two slots; or a place
/// from which on it isn't sought: `to` or up to a block behind, or one from which the text has no
/// block.
#[inline(always)]
pub(crate) fn slotted_end(
    slots: [u8; 16],
    others: [u8; 16],
    text: &[u8],
    from: usize,
    to: usize,
) -> usize
    requires order { from ≤ to }
    requires within { to ≤ length text.now }
    ensures low { from ≤ result }
    ensures high { result ≤ length text.now }
    ensures passed { (p : ℕ) → from ≤ p → p < result
        → in_slots slots others (slice_index text.now p) ≡ false }
{
    let mut at = from;
    while at < to && BLOCK <= text.len() - at {
        let place = first_slotted_in_block(slots, others, text, at);
        if place < at + BLOCK {
            return place;
        }
        at += BLOCK;
    }
    at
}

/// The first place of the `BLOCK` places of the text from `from` on at which a byte tells that a
/// token can begin, alone or with the one behind it; or the place behind them where none does.
#[inline(always)]
fn first_told_in_block(
    alone: [u8; 16],
    firsts: [u8; 16],
    seconds: [u8; 16],
    text: &[u8],
    from: usize,
) -> usize
    requires { from + BLOCK < length text.now }
    ensures low { from ≤ result }
    ensures high { result ≤ from + BLOCK }
    ensures passed { (p : ℕ) → from ≤ p → p < result
        → is_told alone firsts seconds (slice_index text.now p) (slice_index text.now (p + 1))
        ≡ false }
{
    let here = u8x32::from_slice(&text[from..]);
    let behind = u8x32::from_slice(&text[from + 1..]);
    let alones = slotted_marks(&alone, here);
    let leads = slotted_marks(&firsts, here);
    let follows = slotted_marks(&seconds, behind);
    let marked = alones | (leads & follows);
    if marked == 0 {
        return from + BLOCK;
    }
    from + marked.trailing_zeros() as usize
}

/// The first place of the text from `from` on at which a token can begin, as its byte tells alone
/// or with the one behind it; or a place from which on it isn't sought: `to` or up to a block
/// behind, or one from which the text has no block and a byte more.
#[inline(always)]
pub fn told_end(
    alone: [u8; 16],
    firsts: [u8; 16],
    seconds: [u8; 16],
    text: &[u8],
    from: usize,
    to: usize,
) -> usize
    requires within { to ≤ length text.now }
    ensures low { from ≤ result }
    ensures inside { from < result → result < length text.now }
    ensures passed { (p : ℕ) → from ≤ p → p < result
        → is_told alone firsts seconds (slice_index text.now p) (slice_index text.now (p + 1))
        ≡ false }
{
    let mut at = from;
    while at < to && BLOCK < text.len() - at {
        let place = first_told_in_block(alone, firsts, seconds, text, at);
        if place < at + BLOCK {
            return place;
        }
        at += BLOCK;
    }
    at
}
