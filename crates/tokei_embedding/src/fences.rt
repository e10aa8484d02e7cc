//! The fences of Markdown.
ghost use Rattle.std.specs.Prelude.{◌≡◌, ℕ, ◌+◌, ◌-◌, ◌≤◌, ◌<◌, true, false, IfSome, length, take, drop, option_map};
ghost use Rattle.tokei_table_row.specs.Bytes.{begins};
ghost use Rattle.tokei_embedding.specs.Fences.{fence, opens_fence, is_solid_fence, info_len};
ghost use Rattle.tokei_embedding.specs.Fences.{first_fence, closing_len, fence_from, fence_block};
ghost use Rattle.tokei_embedding.specs.Searches.{first_of};
ghost use Rattle.tokei_embedding.specs.Seen.{fence_seen};

use crate::searches::is_at;
use tokei_bytes::first_of_one;
use tokei_table_row::ext::{is_whitespace, solid_len};

const FENCE: &[u8] = b"```";

/// A block of code in fences.
#[derive(Clone, Copy)]
pub struct FenceAt<'a> {
    /// What stands right behind the opening's backticks: bytes that aren't blank.
    pub info: &'a [u8],
    /// What stands between the opening and the closing fence, or the text's end.
    pub contents: &'a [u8],
    /// The bytes from the opening's first through the closing fence and one blank behind it, or to
    /// the text's end.
    pub size: usize,
    /// Whether the closing fence came.
    pub closed: bool,
}

/// Whether a fence opening stands at the front.
fn opens_fence(text: &[u8]) -> bool
    ensures { result ≡ opens_fence text.now }
{
    if !text.starts_with(FENCE) {
        return false;
    }
    let behind = &text[3..];
    let len = solid_len(behind);
    0 < len && len < behind.len()
}

/// Whether a fence stands at the front, and no blank anywhere behind it. Then no fence opens
/// further on either, and a search for one may end.
fn is_solid_fence(text: &[u8]) -> bool
    ensures { result ≡ is_solid_fence text.now }
{
    if !text.starts_with(FENCE) {
        return false;
    }
    let behind = &text[3..];
    solid_len(behind) == behind.len()
}

/// The length of the info in the fence opening at the front: how many bytes stand behind its
/// backticks before the first blank.
pub fn info_len(opening: &[u8]) -> usize
    requires { 3 ≤ length opening.now }
    ensures { result ≡ info_len opening.now }
{
    solid_len(&opening[3..])
}

/// The first place of the text, from `from` to before `to`, at which three backticks stand that end
/// by `to`, or `to` where there is none.
fn next_backticks(text: &[u8], from: usize, to: usize) -> usize
    requires order { from ≤ to }
    requires within { to ≤ length text.now }
    ensures low { from ≤ result }
    ensures high { result ≤ to }
    ensures passed { (p : ℕ) → from ≤ p → p < result
        → begins fence (take (to - p) (drop p text.now)) ≡ false }
    ensures found { result < to → begins fence (take (to - result) (drop result text.now)) ≡ true }
{
    let mut at = from;
    while to - at > 2 {
        // no fence begins two places or more before the next backtick behind it
        let third = first_of_one(b'`', text, at + 2, to);
        if third == to {
            return to;
        }
        if text[third - 1] != b'`' {
            at = third;
        } else if text[third - 2] != b'`' {
            at = third - 1;
        } else {
            return third - 2;
        }
    }
    to
}

/// The place of the first fence opening in the part `text[from..to]`, counted from its front, where
/// none stands at the front itself.
#[inline(never)]
fn search_fence(text: &[u8], from: usize, to: usize) -> Option<usize>
    requires order { from ≤ to }
    requires ends { to ≤ length text.now }
    requires front { opens_fence (take (to - from) (drop from text.now)) ≡ false }
    ensures value { result ≡ first_fence (take (to - from) (drop from text.now)) }
    ensures within { let part = take (to - from) (drop from text.now)
        in IfSome result (λ i. i + (info_len (drop i part) + 4) ≤ to - from) }
{
    if from == to {
        return None;
    }
    let mut at = next_backticks(text, from + 1, to);
    while at < to {
        let rest = &text[at..to];
        if opens_fence(rest) {
            return Some(at - from);
        }
        if is_solid_fence(rest) {
            return None;
        }
        at = next_backticks(text, at + 1, to);
    }
    None
}

/// The place of the first fence opening in the part `text[from..to]`, counted from its front: three
/// backticks, bytes that aren't blank, and one blank. Mostly one stands at the front itself, and
/// nothing is searched.
#[inline(always)]
pub fn first_fence(text: &[u8], from: usize, to: usize) -> Option<usize>
    requires order { from ≤ to }
    requires ends { to ≤ length text.now }
    ensures value { result ≡ first_fence (take (to - from) (drop from text.now)) }
    ensures within { let part = take (to - from) (drop from text.now)
        in IfSome result (λ i. i + (info_len (drop i part) + 4) ≤ to - from) }
{
    if opens_fence(&text[from..to]) {
        return Some(0);
    }
    search_fence(text, from, to)
}

/// The first place in the text at which three backticks stand.
fn closing_place(text: &[u8]) -> Option<usize>
    ensures value { result ≡ first_of fence text.now }
    ensures within { IfSome result (λ i. i + 3 ≤ length text.now) }
{
    let place = next_backticks(text, 0, text.len());
    if place == text.len() {
        return None;
    }
    Some(place)
}

/// How many bytes a closing fence has, by those behind its backticks: a blank there belongs to it.
pub fn closing_len(behind: &[u8]) -> usize
    ensures value { result ≡ closing_len behind.now }
    ensures within { result ≤ 3 + length behind.now }
{
    match behind {
        [first, ..] if is_whitespace(*first) => 4,
        _ => 3,
    }
}

/// The block at the front of the text, whose info has that many bytes.
fn fence_from<'a>(rest: &'a [u8], info_len: usize) -> FenceAt<'a>
    requires { info_len + 4 ≤ length rest.now }
    ensures { fence_seen result ≡ fence_from info_len rest.now }
{
    let info = &rest[3..info_len + 3];
    let behind = &rest[info_len + 4..];
    match closing_place(behind) {
        None => FenceAt {
            info,
            contents: behind,
            size: rest.len(),
            closed: false,
        },
        Some(i) => FenceAt {
            info,
            contents: &behind[..i],
            size: info_len + 4 + i + closing_len(&behind[i + 3..]),
            closed: true,
        },
    }
}

/// The block that opens at `place`, where the first fence opening of the part `text[from..to]`
/// stands there.
pub fn fence_at<'a>(text: &'a [u8], from: usize, place: usize, to: usize) -> Option<FenceAt<'a>>
    requires order { from ≤ place }
    requires inside { place < to }
    requires ends { to ≤ length text.now }
    ensures { option_map fence_seen result
        ≡ fence_block (take (to - from) (drop from text.now)) (place - from) (drop place text.now) }
{
    let here = &text[place..to];
    if !opens_fence(here) {
        return None;
    }
    if !is_at(first_fence(text, from, to), place - from) {
        return None;
    }
    Some(fence_from(&text[place..], info_len(here)))
}
