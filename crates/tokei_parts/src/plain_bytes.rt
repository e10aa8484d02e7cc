//! Bytes at which nothing but the byte itself, or a child, can begin.
ghost use Rattle.std.specs.Prelude.{◌≡◌, ℕ, ◌<◌, ◌≤◌, true, None, Some, length, slice_index};
ghost use Rattle.tokei_parts.specs.PlainBytes.{BeginsNoneWithin, IsPlainByte};
ghost use Rattle.tokei_parts.specs.SeenChoices.{mode_of};

use crate::items::{Enclosure, ItemKind};
use crate::matchers::LanguageMatchers;
use tokei_bytes::first_of_four;

/// Whether no escape, opener or line comment can begin at the byte in an item of that kind.
#[inline(always)]
pub fn begins_none_within(matchers: &LanguageMatchers, kind: ItemKind, byte: u8) -> bool
    ensures { result ≡ true → BeginsNoneWithin matchers.now kind byte }
{
    match kind {
        ItemKind::DocString | ItemKind::VerbatimString | ItemKind::OrdinaryString => byte != b'\\',
        ItemKind::MultiLineComment => !matchers.begins_in_comment(byte),
    }
}

/// Whether no choice but the byte itself and a child can begin at the byte, in that mode.
#[inline(always)]
pub fn is_plain_byte(matchers: &LanguageMatchers, mode: Option<Enclosure>, byte: u8) -> bool
    ensures { result ≡ true → IsPlainByte matchers.now (mode_of mode.entry) byte }
{
    match mode {
        None => !matchers.begins(byte),
        Some(inner) => match inner.closer {
            [] => false,
            [first, ..] => *first != byte && begins_none_within(matchers, inner.kind, byte),
        },
    }
}

/// From the place `at` of the text to before the answer, which goes no further than `to`, no choice
/// but the byte itself and a child can begin at a byte, in plain text. Often one begins at the
/// place itself, and nothing is searched.
#[inline(always)]
pub fn plain_end(matchers: &LanguageMatchers, text: &[u8], at: usize, to: usize) -> usize
    requires { to ≤ length text.now }
    ensures low { at ≤ result }
    ensures high { at < result → result ≤ to }
    ensures plain { (p : ℕ) → at ≤ p → p < result
        → IsPlainByte matchers.now None (slice_index text.now p) }
{
    if to <= at || matchers.begins(text[at]) {
        return at;
    }
    matchers.plain_end(text, at, to)
}

/// The same in an item.
#[inline(always)]
pub fn item_end(
    matchers: &LanguageMatchers,
    inner: Enclosure,
    text: &[u8],
    at: usize,
    to: usize,
) -> usize
    requires { to ≤ length text.now }
    ensures low { at ≤ result }
    ensures high { at < result → result ≤ to }
    ensures plain { (p : ℕ) → at ≤ p → p < result
        → IsPlainByte matchers.now (mode_of (Some inner.entry)) (slice_index text.now p) }
{
    if to <= at || !is_plain_byte(matchers, Some(inner), text[at]) {
        return at;
    }
    match inner.closer {
        [] => at,
        [first, ..] => match inner.kind {
            ItemKind::DocString | ItemKind::VerbatimString | ItemKind::OrdinaryString => {
                first_of_four([*first, b'\\', *first, b'\\'], text, at, to)
            }
            ItemKind::MultiLineComment => matchers.comment_end(*first, text, at, to),
        },
    }
}
