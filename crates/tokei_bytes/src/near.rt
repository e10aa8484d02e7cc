//! The first place of one byte that mostly stands near.
ghost use Rattle.std.specs.Prelude.{◌≤◌, ◌==◌, length};
ghost use Rattle.tokei_bytes.specs.FirstPlace.{IsFirstPlace};

use crate::one_of::{BLOCK, first_of_four};
use memchr::memchr;

/// How many bytes are searched in blocks before a far search: few lines have more.
const NEAR: usize = 128;

/// How far the byte mostly stands from the place `at` on, and no further than `to`: nothing near,
/// where the text has no block.
#[inline(always)]
fn near_end(text: &[u8], at: usize, to: usize) -> usize
    requires order { at ≤ to }
    requires within { to ≤ length text.now }
    ensures low { at ≤ result }
    ensures high { result ≤ to }
{
    if text.len() < BLOCK {
        at
    } else if to - at < NEAR {
        to
    } else {
        at + NEAR
    }
}

/// The search where the byte is mostly far.
fn first_far(byte: u8, text: &[u8], from: usize, to: usize) -> usize
    requires order { from ≤ to }
    requires within { to ≤ length text.now }
    ensures { IsFirstPlace (λ x. x == byte) text.now from to result }
{
    match memchr(byte, &text[from..to]) {
        Some(at) => from + at,
        None => to,
    }
}

/// The first place of the text, from `from` to before `to`, at which the byte stands, or `to` where
/// it doesn't. A place counts the bytes of the text before it.
#[inline(always)]
pub fn first_of_one(byte: u8, text: &[u8], from: usize, to: usize) -> usize
    requires order { from ≤ to }
    requires within { to ≤ length text.now }
    ensures { IsFirstPlace (λ x. x == byte) text.now from to result }
{
    let near = near_end(text, from, to);
    let place = first_of_four([byte; 4], text, from, near);
    if place < near || near == to {
        return place;
    }
    first_far(byte, text, near, to)
}
