//! The opening tags of one tag in a text.
ghost use Rattle.std.specs.Prelude.{◌≡◌, ◌+◌, ◌-◌, ◌≤◌, ◌<◌, IfSome, length, take, drop, option_map};
ghost use Rattle.tokei_embedding.specs.Seen.{span_seen, opening_seen};
ghost use Rattle.tokei_embedding.specs.TagSearches.{TagSought, SeeksOpenings};
ghost use Rattle.tokei_embedding.specs.Tags.{token_of, attribute_of, value_in, value_end};
ghost use Rattle.tokei_embedding.specs.Tags.{opening_past, opening_at, first_opening};

use crate::first_search::FirstSearch;
use crate::last_search::LastSearch;
use crate::searches::first_of;
use crate::spans::{Span, shifted};
use crate::tags::{Opening, Tag, attribute_of, token_of};
use std::marker::Model;

const QUOTE: &[u8] = b"\"";

const TAG_END: &[u8] = b">";

/// Finds the openings of one tag in one text, and remembers what each of its searches came to.
#[derive(Drop)]
pub(crate) struct OpeningSearch<'a> {
    tag: Tag,
    text: &'a [u8],
    last_ends: LastSearch<'a>,
    quotes: LastSearch<'a>,
    attributes: LastSearch<'a>,
    ends: FirstSearch<'a>,
}

impl<'a> Model for OpeningSearch<'a> {
    ghost Value = { TagSought };

    ghost view = { λ s. record { tag = s.tag; text = s.text.now } };

    ghost invariant = { λ s. SeeksOpenings (record { tag = s.tag; text = s.text.now }) s.last_ends
        s.quotes s.attributes s.ends };
}

/// The place behind the value, or the front without one.
fn value_end(value: Option<Span>) -> usize
    ensures { result ≡ value_end (option_map span_seen value) }
{
    match value {
        Some(v) => v.stop,
        None => 0,
    }
}

impl<'a> OpeningSearch<'a> {
    /// Nothing is searched yet.
    pub(crate) fn new(tag: Tag, text: &'a [u8]) -> OpeningSearch<'a>
        ensures { result ≡ record { tag = tag; text = text.now } }
    {
        OpeningSearch {
            tag,
            text,
            last_ends: LastSearch::new(text, TAG_END),
            quotes: LastSearch::new(text, QUOTE),
            attributes: LastSearch::new(text, attribute_of(tag)),
            ends: FirstSearch::new(text, TAG_END),
        }
    }

    /// Where the attribute's value stands in a tag's inside `text[start..stop]`, counted from
    /// `start`.
    fn value_in(&mut self, start: usize, stop: usize) -> Option<Span>
        requires order { start ≤ stop }
        requires ends { stop ≤ length self.old.text }
        ensures value { option_map span_seen result
            ≡ value_in (attribute_of self.old.tag)
            (take (stop - start) (drop start self.old.text)) }
        ensures within { IfSome result (λ v. (v.start ≤ v.stop) × (v.stop < stop - start)) }
        ensures same { self.new ≡ self.old }
    {
        let quote = self.quotes.last_in(start, stop)?;
        let at = self.attributes.last_in(start, start + quote)?;
        Some(Span {
            start: at + attribute_of(self.tag).len(),
            stop: quote,
        })
    }

    /// The opening that begins at the place `at`, by the bytes `text[start..to]` from the place
    /// `inside` on, and the value in them. Its places count as `at` and `inside` do.
    fn opening_past(
        &mut self,
        at: usize,
        inside: usize,
        start: usize,
        to: usize,
        value: Option<Span>,
    ) -> Option<Opening>
        requires order { start ≤ to }
        requires ends { to ≤ length self.old.text }
        requires behind { at < inside }
        requires counted { inside ≤ start }
        requires within { IfSome value (λ v. (v.start ≤ v.stop) × (v.stop ≤ to - start)) }
        ensures value { option_map opening_seen result ≡ opening_past at inside
            (take (to - start) (drop start self.old.text)) (option_map span_seen value) }
        ensures whole { IfSome result (λ o. (o.whole.start ≡ at) × (at < o.whole.stop)
            × (o.whole.stop ≤ inside + (to - start))) }
        ensures value_within { IfSome result (λ o. IfSome o.value
            (λ v. (v.start ≤ v.stop) × (v.stop ≤ inside + (to - start)))) }
        ensures same { self.new ≡ self.old }
    {
        let behind = value_end(value);
        let end = self.ends.first_in(start + behind, to)?;
        Some(Opening {
            whole: Span {
                start: at,
                stop: inside + (behind + end + 1),
            },
            value: shifted(value, inside),
        })
    }

    /// The opening of the tag whose token stands at the place `at` of the part `text[from..to]`.
    /// Its places count from `from` too.
    pub(crate) fn opening_at(&mut self, from: usize, at: usize, to: usize) -> Option<Opening>
        requires stands { from + at + length (token_of self.old.tag) ≤ to }
        requires ends { to ≤ length self.old.text }
        ensures value { option_map opening_seen result
            ≡ opening_at self.old.tag (take (to - from) (drop from self.old.text)) at }
        ensures whole { IfSome result (λ o. (o.whole.start ≡ at) × (at < o.whole.stop)
            × (o.whole.stop ≤ to - from)) }
        ensures value_within { IfSome result (λ o. IfSome o.value
            (λ v. (v.start ≤ v.stop) × (v.stop ≤ to - from))) }
        ensures same { self.new ≡ self.old }
    {
        let inside = at + token_of(self.tag).len();
        let start = from + inside;
        let last = self.last_ends.last_in(start, to)?;
        let value = self.value_in(start, start + last);
        self.opening_past(at, inside, start, to, value)
    }
}

/// The opening of the tag at the first place of its token in the part.
pub fn first_opening(tag: Tag, part: &[u8]) -> Option<Opening>
    ensures value { option_map opening_seen result ≡ first_opening tag part.now }
    ensures whole { IfSome result (λ o. (o.whole.start ≤ o.whole.stop)
        × (o.whole.stop ≤ length part.now)) }
    ensures value_within { IfSome result (λ o. IfSome o.value
        (λ v. (v.start ≤ v.stop) × (v.stop ≤ length part.now))) }
{
    let at = first_of(part, token_of(tag))?;
    OpeningSearch::new(tag, part).opening_at(0, at, part.len())
}
