//! The elements of a text, of each tag.
ghost use Rattle.std.specs.Prelude.{◌≡◌, ℕ, ◌-◌, ◌≤◌, ◌<◌, true, List, length, drop, option_map};
ghost use Rattle.tokei_embedding.specs.NextOpenings.{OpensNoElement};
ghost use Rattle.tokei_table_row.specs.Slices.{between};
ghost use Rattle.tokei_embedding.specs.Searches.{first_of, is_at};
ghost use Rattle.tokei_embedding.specs.Seen.{tag_seen};
ghost use Rattle.tokei_embedding.specs.TagSearches.{SeeksTags};
ghost use Rattle.tokei_embedding.specs.Tags.{token_of, tag_block};

use crate::tag_search::TagSearch;
use crate::tags::{Tag, TagAt};
use std::marker::Model;

/// Finds the elements of one text, and remembers what each search came to. Contracts see it as the
/// text.
#[derive(Drop)]
pub(crate) struct TagSearches<'a> {
    script: TagSearch<'a>,
    style: TagSearch<'a>,
    template: TagSearch<'a>,
}

impl<'a> Model for TagSearches<'a> {
    ghost Value = { List ℕ };

    ghost view = { λ s. s.script.text };

    ghost invariant = { λ s. SeeksTags s.script.text s.script s.style s.template };
}

impl<'a> TagSearches<'a> {
    /// Nothing is searched yet.
    pub(crate) fn new(text: &'a [u8]) -> TagSearches<'a>
        ensures { result ≡ text.now }
    {
        TagSearches {
            script: TagSearch::new(Tag::Script, text),
            style: TagSearch::new(Tag::Style, text),
            template: TagSearch::new(Tag::Template, text),
        }
    }

    /// The element that opens at `place`, as `TagSearch::tag_at` finds it.
    pub(crate) fn tag_at(
        &mut self,
        tag: Tag,
        from: usize,
        place: usize,
        to: usize,
    ) -> Option<TagAt<'a>>
        requires order { from ≤ place }
        requires inside { place < to }
        requires ends { to ≤ length self.old }
        ensures block { option_map tag_seen result
            ≡ tag_block tag (between self.old from to) (place - from) (drop place self.old) }
        ensures same { self.new ≡ self.old }
    {
        match tag {
            Tag::Script => self.script.tag_at(from, place, to),
            Tag::Style => self.style.tag_at(from, place, to),
            Tag::Template => self.template.tag_at(from, place, to),
        }
    }

    /// The first place from `at` on at which an element with the tag can open, as
    /// `TagSearch::next_tag` finds it.
    pub(crate) fn next_tag(&mut self, tag: Tag, start: usize, at: usize, to: usize) -> usize
        requires order { start ≤ at }
        requires inside { at ≤ to }
        requires ends { to ≤ length self.old }
        ensures low { at ≤ result }
        ensures high { result ≤ to }
        ensures none { OpensNoElement tag self.old start to at result }
        ensures exact { result < to
            → is_at (result - start) (first_of (token_of tag) (between self.old start to)) ≡ true }
        ensures same { self.new ≡ self.old }
    {
        match tag {
            Tag::Script => self.script.next_tag(start, at, to),
            Tag::Style => self.style.next_tag(start, at, to),
            Tag::Template => self.template.next_tag(start, at, to),
        }
    }
}
