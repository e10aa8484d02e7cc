//! Lingua Franca's blocks of the target language, and the target itself.
ghost use Rattle.std.specs.Prelude.{◌≡◌, ◌+◌, ◌-◌, ◌≤◌, ◌<◌, length, take, drop, option_map};
ghost use Rattle.tokei_embedding.specs.TargetBlocks.{target_from, target_block, is_word, word_len};
ghost use Rattle.tokei_embedding.specs.TargetBlocks.{ends_line, ends_target, target_word};
ghost use Rattle.tokei_embedding.specs.TargetBlocks.{word_behind_blanks, target_here, target_of};
ghost use Rattle.tokei_embedding.specs.Seen.{target_seen};

use crate::searches::{first_of, is_at};
use tokei_table_row::ext::{is_whitespace, trim_start};

pub(crate) const OPENER: &[u8] = b"{=";

const CLOSER: &[u8] = b"=}";

/// A block of the target language.
#[derive(Clone, Copy)]
pub struct TargetAt<'a> {
    /// What stands between `{=` and `=}`, or the text's end.
    pub contents: &'a [u8],
    /// The bytes from `{=` to before `=}`, or to the text's end.
    pub size: usize,
}

/// The block at the front of the text.
fn target_from<'a>(rest: &'a [u8]) -> TargetAt<'a>
    requires { 2 ≤ length rest.now }
    ensures { target_seen result ≡ target_from rest.now }
{
    let behind = &rest[2..];
    let contents = match first_of(behind, CLOSER) {
        None => behind,
        Some(i) => &behind[..i],
    };
    TargetAt {
        contents,
        size: 2 + contents.len(),
    }
}

/// The block that opens at `place`, where the first `{=` of the part `text[from..to]` stands there.
pub fn target_at<'a>(text: &'a [u8], from: usize, place: usize, to: usize) -> Option<TargetAt<'a>>
    requires order { from ≤ place }
    requires inside { place < to }
    requires ends { to ≤ length text.now }
    ensures { option_map target_seen result
        ≡ target_block (take (to - from) (drop from text.now)) (place - from)
        (drop place text.now) }
{
    let here = &text[place..to];
    if !here.starts_with(OPENER) {
        return None;
    }
    if !is_at(first_of(&text[from..to], OPENER), place - from) {
        return None;
    }
    Some(target_from(&text[place..]))
}

/// Whether the byte is an ASCII letter, a digit or `_`.
fn is_word(byte: u8) -> bool
    ensures { result ≡ is_word byte }
{
    byte.is_ascii_alphanumeric() || byte == b'_'
}

/// How many word bytes stand at the front.
fn word_len(text: &[u8]) -> usize
    ensures value { result ≡ word_len text.now }
    ensures within { result ≤ length text.now }
{
    for (i, byte) in text.iter().enumerate() {
        if !is_word(*byte) {
            return i;
        }
    }
    text.len()
}

/// Whether nothing but blanks stands before the first newline, or before the end.
fn ends_line(text: &[u8]) -> bool
    ensures { result ≡ ends_line text.now }
{
    for byte in text {
        if *byte == b'\n' {
            return true;
        }
        if !is_whitespace(*byte) {
            return false;
        }
    }
    true
}

/// Whether a target's word may end before this text.
fn ends_target(text: &[u8]) -> bool
    ensures { result ≡ ends_target text.now }
{
    let behind = trim_start(text);
    ends_line(text) || behind.starts_with(b";") || behind.starts_with(b"{")
}

/// The word at the front, where it is followed as a target must be.
fn target_word(text: &[u8]) -> Option<&[u8]>
    ensures { option_map (λ w. w.now) result ≡ target_word text.now }
{
    let len = word_len(text);
    if len > 0 && ends_target(&text[len..]) {
        Some(&text[..len])
    } else {
        None
    }
}

/// The word behind one blank or more.
fn word_behind_blanks(text: &[u8]) -> Option<&[u8]>
    ensures { option_map (λ w. w.now) result ≡ word_behind_blanks text.now }
{
    match text {
        [first, rest @ ..] if is_whitespace(*first) => target_word(trim_start(rest)),
        _ => None,
    }
}

/// The target that stands at the front of the text.
fn target_here(text: &[u8]) -> Option<&[u8]>
    ensures { option_map (λ w. w.now) result ≡ target_here text.now }
{
    if text.starts_with(b"target") {
        word_behind_blanks(&text[6..])
    } else {
        None
    }
}

/// The target that a Lingua Franca text names: the word of its first `target` that no word byte
/// stands before, with blanks between, where blanks with a newline or to the text's end, or `;` or
/// `{`, follow the word.
pub(crate) fn target_of(text: &[u8]) -> Option<&[u8]>
    ensures { option_map (λ w. w.now) result ≡ target_of text.now }
{
    let mut rest = text;
    let mut word = false;
    while let [first, others @ ..] = rest {
        if !word && let Some(target) = target_here(rest) {
            return Some(target);
        }
        word = is_word(*first);
        rest = others;
    }
    None
}
