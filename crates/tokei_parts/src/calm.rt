//! Stretches within an item in which each choice takes its byte.
ghost use Rattle.std.specs.Prelude.{◌≡◌, ◌<◌, ◌≤◌, true, length};
ghost use Rattle.tokei_parts.specs.Calm.{IsCalm, TakesByteAt};
ghost use Rattle.tokei_parts.specs.ReadingOf.{row_in};

use crate::choice::stands;
use crate::items::{Enclosure, ItemKind};
use crate::plain_bytes::{begins_none_within, is_plain_byte, item_end};
use crate::reading::Reading;

/// Whether nothing but the item's closer can begin at the place, which the item encloses, and that
/// doesn't stand there: as at a star in a comment that no slash follows.
#[inline(always)]
fn takes_byte(reading: &Reading, item: Enclosure, at: usize) -> bool
    requires { at < length reading.now.text.now }
    ensures { result ≡ true → TakesByteAt (row_in reading.now) item.entry reading.now.text.now at }
{
    let text = reading.text;
    begins_none_within(reading.matchers, item.kind, text[at]) && !stands(item.closer, &text[at..])
}

/// The same from the place to before the answer, in a comment whose closer has two bytes or more,
/// where the second tells it.
#[inline(always)]
fn comment_end(reading: &Reading, item: Enclosure, at: usize) -> usize
    requires { at ≤ length reading.now.text.now }
    ensures low { at ≤ result }
    ensures high { result ≤ length reading.now.text.now }
    ensures calm { IsCalm (row_in reading.now) item.entry reading.now.text.now at result }
{
    match (item.kind, item.closer) {
        (ItemKind::MultiLineComment, [first, second, ..]) => reading
            .matchers
            .comment_end_by_second(*first, *second, reading.text, at),
        _ => at,
    }
}

/// From the place `at` of the reading's text to before the answer each choice takes its byte, where
/// the item encloses them, as far as searches for several bytes at once tell. Often something can
/// begin at the place itself, and nothing is searched.
#[inline(always)]
fn stretch_end(reading: &Reading, item: Enclosure, at: usize) -> usize
    requires { at ≤ length reading.now.text.now }
    ensures low { at ≤ result }
    ensures high { result ≤ length reading.now.text.now }
    ensures calm { IsCalm (row_in reading.now) item.entry reading.now.text.now at result }
{
    let text = reading.text;
    if text.len() <= at || !is_plain_byte(reading.matchers, Some(item), text[at]) {
        return at;
    }
    let near = comment_end(reading, item, at);
    item_end(reading.matchers, item, text, near, text.len())
}

/// From the place `at` of the reading's text to before the answer each choice takes its byte, where
/// the item encloses them: up to the item's closer, or to where an escape or an opener can begin.
#[inline(never)]
fn calm_end_ahead(reading: &Reading, item: Enclosure, at: usize) -> usize
    requires { at ≤ length reading.now.text.now }
    ensures low { at ≤ result }
    ensures high { result ≤ length reading.now.text.now }
    ensures calm { IsCalm (row_in reading.now) item.entry reading.now.text.now at result }
{
    let text = reading.text;
    let mut next = stretch_end(reading, item, at);
    while next < text.len() && takes_byte(reading, item, next) {
        next = stretch_end(reading, item, next + 1);
    }
    next
}

/// The same. Where an escape or an opener can begin at the place itself, nothing is searched.
#[inline(always)]
pub fn calm_end(reading: &Reading, item: Enclosure, at: usize) -> usize
    requires { at ≤ length reading.now.text.now }
    ensures low { at ≤ result }
    ensures high { result ≤ length reading.now.text.now }
    ensures calm { IsCalm (row_in reading.now) item.entry reading.now.text.now at result }
{
    let text = reading.text;
    if at < text.len() && !begins_none_within(reading.matchers, item.kind, text[at]) {
        return at;
    }
    calm_end_ahead(reading, item, at)
}
