//! One search that is asked many questions answers each as a new one does.
ghost use Rattle.std.specs.Prelude.{◌≡◌, ◌≤◌, ◌<◌, length};

use crate::verdict::{Wrong, all_right};
use std::alloc::Global;
use tokei_embedding::{BlockSearch, Tag};

/// Where the tag's element can open; its value, contents and size, if there is one.
type Answer<'t> = (usize, Option<(Option<&'t [u8]>, &'t [u8], usize)>);

/// What the search answers of the first element of a part of the text.
fn answer<'t>(search: &mut BlockSearch<'t>, tag: Tag, from: usize, to: usize) -> Answer<'t>
    requires order { from < to }
    requires ends { to ≤ length search.old }
    ensures { search.new ≡ search.old }
{
    let place = search.next_tag(tag, from, from, to);
    if place == to {
        return (place, None);
    }
    match search.tag_at(tag, from, place, to) {
        Some(element) => (place, Some((element.value, element.contents, element.size))),
        None => (place, None),
    }
}

/// Whether the search and a fresh one answer the same of the tag in that part.
fn is_same(
    search: &mut BlockSearch<'_>,
    fresh: &mut BlockSearch<'_>,
    tag: Tag,
    from: usize,
    to: usize,
) -> bool
    requires same { search.old ≡ fresh.old }
    requires order { from < to }
    requires ends { to ≤ length fresh.old }
    ensures { search.new ≡ search.old }
{
    answer(search, tag, from, to) == answer(fresh, tag, from, to)
}

static TEXTS: [&[u8]; 6] = [
    b"<script>a<style> </style>",
    b"a</script><script>\n</script>b<script>c</script>",
    b"<style lang=\"x\">a</style><style>b</style>\"",
    b"<script <style>a</style> type=\"b\"> </script>",
    b"<template lang=\">\">a\nlang=\"\"></template>",
    b"target C;\n",
];

/// How many questions for a tag in a part of a text are answered otherwise by one search, which is
/// asked from the text's front on, or from its end back.
fn unlike(alloc: Global, text: &[u8], falls: bool) -> usize {
    let mut search = BlockSearch::new(alloc, text);
    let end = text.len();
    let mut count = 0_usize;
    for low in 0..end {
        for high in low + 1..end + 1 {
            for tag in [Tag::Script, Tag::Style, Tag::Template] {
                let mut fresh = BlockSearch::new(alloc, text);
                let is_same = if falls {
                    is_same(&mut search, &mut fresh, tag, end - high, end - low)
                } else {
                    is_same(&mut search, &mut fresh, tag, low, high)
                };
                if !is_same {
                    count = count.saturating_add(1);
                }
            }
        }
    }
    count
}

static DOC_TEXTS: [&[u8]; 5] = [
    b"  \n\t /// a\n  //! b\n",
    b"x    //! c\n   \n//! d\n //! e",
    b"   // f\n \x0b\x0c\r///",
    b" \n \n ",
    b"/// a\n /// b //! c\n///!//!///\n//! d /// e\n//! f\n\n/// g",
];

/// How many places of a text one search answers otherwise of, first from its front on, then from
/// its end back.
fn unlike_docs(alloc: Global, text: &[u8]) -> usize {
    let mut search = BlockSearch::new(alloc, text);
    let mut count = 0_usize;
    for falls in [false, true] {
        for step in 0..text.len() {
            let place = if falls { text.len() - 1 - step } else { step };
            if search.doc_at(place) != BlockSearch::new(alloc, text).doc_at(place) {
                count = count.saturating_add(1);
            }
        }
    }
    count
}

/// The place of the first text of which something is answered otherwise, and how often, if there is
/// one; those of doc comments come behind the others.
fn first_unlike(alloc: Global) -> Option<Wrong> {
    for (at, text) in TEXTS.iter().enumerate() {
        let count = unlike(alloc, text, false).saturating_add(unlike(alloc, text, true));
        if count > 0 {
            return Some((at, count));
        }
    }
    for (at, text) in DOC_TEXTS.iter().enumerate() {
        let count = unlike_docs(alloc, text);
        if count > 0 {
            return Some((TEXTS.len() + at, count));
        }
    }
    None
}

#[test]
fn rising_and_falling_questions(rt: HostRuntime) {
    all_right(&rt, first_unlike(rt.alloc()));
}
