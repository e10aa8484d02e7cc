//! The search for the blocks of one text.
ghost use Rattle.std.specs.Prelude.{◌≡◌, ℕ, ◌-◌, ◌≤◌, ◌<◌, true, IfSome, List, length, drop, option_map};
ghost use Rattle.tokei_embedding.specs.DocComments.{doc_block};
ghost use Rattle.tokei_embedding.specs.NextOpenings.{OpensNoElement};
ghost use Rattle.tokei_table_row.specs.Slices.{between};
ghost use Rattle.tokei_embedding.specs.Remembered.{SearchDocs};
ghost use Rattle.tokei_embedding.specs.Searches.{first_of, is_at};
ghost use Rattle.tokei_embedding.specs.Seen.{tag_seen};
ghost use Rattle.tokei_embedding.specs.Tags.{token_of, tag_block};
ghost use Rattle.tokei_embedding.specs.TargetBlocks.{target_of};

use crate::doc_comments::{INNER_MARK, OUTER_MARK};
use crate::doc_search::DocSearch;
use crate::mark_search::MarkSearch;
use crate::tag_searches::TagSearches;
use crate::tags::{Tag, TagAt};
use crate::target_blocks::target_of;
use std::alloc::Global;
use std::marker::Model;

/// Finds the elements, the doc comments and the target of one text, and remembers what each search
/// came to: over questions that go from the front of the text to its end, all searches together
/// take time that grows with its length. Contracts see it as the text.
#[derive(Drop)]
pub struct BlockSearch<'a> {
    alloc: Global,
    text: &'a [u8],
    /// None until an element is asked for: most texts have none, so that room for it stands apart.
    tags: Option<Box<TagSearches<'a>>>,
    marks: MarkSearch<'a>,
    outer_docs: DocSearch<'a>,
    inner_docs: DocSearch<'a>,
    /// None until the target is asked for.
    target: Option<Option<&'a [u8]>>,
}

impl<'a> Model for BlockSearch<'a> {
    ghost Value = { List ℕ };

    ghost view = { λ s. s.text.now };

    ghost invariant = { λ s. IfSome s.tags (λ tags. tags.value ≡ s.text.now)
        × SearchDocs s.text.now s.marks s.outer_docs s.inner_docs
        × IfSome s.target (λ t. option_map (λ w. w.now) t ≡ target_of s.text.now) };
}

impl<'a> BlockSearch<'a> {
    /// Searches the text, of which nothing is searched yet. It takes no memory; to remember
    /// searches for elements takes some, and where that is refused they are made anew for each
    /// question.
    pub fn new(alloc: Global, text: &'a [u8]) -> BlockSearch<'a>
        ensures { result ≡ text.now }
    {
        BlockSearch {
            alloc,
            text,
            tags: None,
            marks: MarkSearch::new(text),
            outer_docs: DocSearch::new(text, OUTER_MARK),
            inner_docs: DocSearch::new(text, INNER_MARK),
            target: None,
        }
    }

    /// The element that opens at `place`, where the first token of the tag in the part
    /// `text[from..to]` stands there and its opening ends in the part. None where no closing tag
    /// follows in the text, or nothing but blanks before it.
    pub fn tag_at(&mut self, tag: Tag, from: usize, place: usize, to: usize) -> Option<TagAt<'a>>
        requires order { from ≤ place }
        requires inside { place < to }
        requires ends { to ≤ length self.old }
        ensures block { option_map tag_seen result
            ≡ tag_block tag (between self.old from to) (place - from) (drop place self.old) }
        ensures same { self.new ≡ self.old }
    {
        match &mut self.tags {
            Some(tags) => tags.tag_at(tag, from, place, to),
            None => self.tag_at_first(tag, from, place, to),
        }
    }

    /// The same, where it is the first question for an element: the searches are made. It stands in
    /// no caller's code, which would clear their room at each question.
    #[inline(never)]
    fn tag_at_first(&mut self, tag: Tag, from: usize, place: usize, to: usize) -> Option<TagAt<'a>>
        requires order { from ≤ place }
        requires inside { place < to }
        requires ends { to ≤ length self.old }
        ensures block { option_map tag_seen result
            ≡ tag_block tag (between self.old from to) (place - from) (drop place self.old) }
        ensures same { self.new ≡ self.old }
    {
        let mut tags = TagSearches::new(self.text);
        let found = tags.tag_at(tag, from, place, to);
        self.keep(tags);
        found
    }

    /// Keeps the searches for elements, where memory suffices for that.
    fn keep(&mut self, tags: TagSearches<'a>)
        requires { tags ≡ self.old }
        ensures { self.new ≡ self.old }
    {
        if let Ok(tags) = Box::new(self.alloc, tags) {
            self.tags = Some(tags);
        }
    }

    /// The first place from `at` on at which an element with the tag can open in the part
    /// `text[start..to]`: the tag's first token. `to` where there is none, or where that one stands
    /// before `at`.
    pub fn next_tag(&mut self, tag: Tag, start: usize, at: usize, to: usize) -> usize
        requires order { start ≤ at }
        requires inside { at ≤ to }
        requires ends { to ≤ length self.old }
        ensures low { at ≤ result }
        ensures high { result ≤ to }
        ensures none { OpensNoElement tag self.old start to at result }
        ensures exact { result < to
            → is_at (result - start) (first_of (token_of tag) (between self.old start to)) ≡ true }
        ensures same { self.new ≡ self.old }
    {
        match &mut self.tags {
            Some(tags) => tags.next_tag(tag, start, at, to),
            None => self.next_tag_first(tag, start, at, to),
        }
    }

    /// The same, where it is the first question for an element: the searches are made, in no
    /// caller's code either.
    #[inline(never)]
    fn next_tag_first(&mut self, tag: Tag, start: usize, at: usize, to: usize) -> usize
        requires order { start ≤ at }
        requires inside { at ≤ to }
        requires ends { to ≤ length self.old }
        ensures low { at ≤ result }
        ensures high { result ≤ to }
        ensures none { OpensNoElement tag self.old start to at result }
        ensures exact { result < to
            → is_at (result - start) (first_of (token_of tag) (between self.old start to)) ≡ true }
        ensures same { self.new ≡ self.old }
    {
        let mut tags = TagSearches::new(self.text);
        let place = tags.next_tag(tag, start, at, to);
        self.keep(tags);
        place
    }

    /// The length of the block of doc comments that opens at `place`: the rest of the line there,
    /// which begins with `///` or `//!` behind its front blanks, and the lines behind it that begin
    /// with the same mark.
    pub fn doc_at(&mut self, place: usize) -> Option<usize>
        requires { place < length self.old }
        ensures value { result ≡ option_map (λ b. b.size) (doc_block (drop place self.old)) }
        ensures same { self.new ≡ self.old }
    {
        let mark = self.marks.mark_at(place)?;
        if mark == OUTER_MARK {
            return Some(self.outer_docs.len_at(place));
        }
        Some(self.inner_docs.len_at(place))
    }

    /// The target that the Lingua Franca text names: the word of its first `target` that no word
    /// byte stands before, with blanks between, where blanks with a newline or to the text's end,
    /// or `;` or `{`, follow the word.
    pub fn target(&mut self) -> Option<&'a [u8]>
        ensures value { option_map (λ w. w.now) result ≡ target_of self.old }
        ensures same { self.new ≡ self.old }
    {
        if let Some(target) = self.target {
            return target;
        }
        let target = target_of(self.text);
        self.target = Some(target);
        target
    }
}
