//! The elements of one tag in a text.
ghost use Rattle.std.specs.Prelude.{◌≡◌, ◌-◌, ◌≤◌, ◌<◌, true, length, drop, option_map};
ghost use Rattle.tokei_embedding.specs.NextOpenings.{OpensNoElement};
ghost use Rattle.tokei_table_row.specs.Slices.{between};
ghost use Rattle.tokei_embedding.specs.Searches.{first_of, is_at};
ghost use Rattle.tokei_embedding.specs.Seen.{tag_seen};
ghost use Rattle.tokei_embedding.specs.TagSearches.{TagSought, SeeksElements};
ghost use Rattle.tokei_embedding.specs.Tags.{token_of, closer_of, element_to, tag_block};

use crate::blank_search::BlankSearch;
use crate::first_search::FirstSearch;
use crate::next_openings::next_of;
use crate::opening_search::OpeningSearch;
use crate::searches::is_at;
use crate::spans::bytes_of;
use crate::tags::{Tag, TagAt, closer_of, token_of};
use std::marker::Model;

/// Finds the elements of one tag in one text, and remembers what each of its searches came to.
#[derive(Drop)]
pub(crate) struct TagSearch<'a> {
    tag: Tag,
    text: &'a [u8],
    tokens: FirstSearch<'a>,
    openings: OpeningSearch<'a>,
    closers: FirstSearch<'a>,
    blanks: BlankSearch<'a>,
}

impl<'a> Model for TagSearch<'a> {
    ghost Value = { TagSought };

    ghost view = { λ s. record { tag = s.tag; text = s.text.now } };

    ghost invariant = { λ s. SeeksElements (record { tag = s.tag; text = s.text.now }) s.tokens
        s.openings s.closers s.blanks };
}

impl<'a> TagSearch<'a> {
    /// Nothing is searched yet.
    pub(crate) fn new(tag: Tag, text: &'a [u8]) -> TagSearch<'a>
        ensures { result ≡ record { tag = tag; text = text.now } }
    {
        TagSearch {
            tag,
            text,
            tokens: FirstSearch::new(text, token_of(tag)),
            openings: OpeningSearch::new(tag, text),
            closers: FirstSearch::new(text, closer_of(tag)),
            blanks: BlankSearch::new(text),
        }
    }

    /// The element that opens at `place`, where the first token of the tag in the part
    /// `text[from..to]` stands there and its opening ends in the part. None where no closing tag
    /// follows in the text, or nothing but blanks before it.
    pub(crate) fn tag_at(&mut self, from: usize, place: usize, to: usize) -> Option<TagAt<'a>>
        requires order { from ≤ place }
        requires inside { place < to }
        requires ends { to ≤ length self.old.text }
        ensures block { option_map tag_seen result
            ≡ tag_block self.old.tag (between self.old.text from to) (place - from)
            (drop place self.old.text) }
        ensures same { self.new ≡ self.old }
    {
        if !self.text[place..to].starts_with(token_of(self.tag)) {
            return None;
        }
        let at = place - from;
        if !is_at(self.tokens.first_in(from, to), at) {
            return None;
        }
        let opening = self.openings.opening_at(from, at, to)?;
        let value = bytes_of(&self.text[from..to], opening.value);
        let len = opening.whole.stop - at;
        self.element_to(value, len, place + len)
    }

    /// The element with an opening of `len` bytes that ends before `start`.
    fn element_to(&mut self, value: Option<&'a [u8]>, len: usize, start: usize) -> Option<TagAt<'a>>
        requires within { len ≤ start }
        requires inside { start ≤ length self.old.text }
        ensures element { let behind = drop start self.old.text
            in option_map tag_seen result
            ≡ element_to (option_map (λ w. w.now) value.entry) len behind
            (first_of (closer_of self.old.tag) behind) }
        ensures same { self.new ≡ self.old }
    {
        let at = self.closers.first_in(start, self.text.len())?;
        if self.blanks.is_blank_in(start, start + at) {
            return None;
        }
        Some(TagAt {
            value,
            contents: &self.text[start..start + at],
            size: len + at,
        })
    }

    /// The first place from `at` on at which an element with the tag can open in the part
    /// `text[start..to]`: the tag's first token. `to` where there is none, or where that one stands
    /// before `at`.
    pub(crate) fn next_tag(&mut self, start: usize, at: usize, to: usize) -> usize
        requires order { start ≤ at }
        requires inside { at ≤ to }
        requires ends { to ≤ length self.old.text }
        ensures low { at ≤ result }
        ensures high { result ≤ to }
        ensures none { OpensNoElement self.old.tag self.old.text start to at result }
        ensures exact { result < to
            → is_at (result - start)
            (first_of (token_of self.old.tag) (between self.old.text start to))
            ≡ true }
        ensures same { self.new ≡ self.old }
    {
        next_of(self.tokens.first_in(start, to), start, at, to)
    }
}
