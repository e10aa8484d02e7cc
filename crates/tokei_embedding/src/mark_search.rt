//! The marks of doc comments in a text.
ghost use Rattle.std.specs.Prelude.{◌≡◌, ℕ, ◌≤◌, ◌<◌, List, length, drop, option_map};
ghost use Rattle.tokei_embedding.specs.DocComments.{first_line, mark_of};
ghost use Rattle.tokei_embedding.specs.Remembered.{IsMarkPlace};

use crate::doc_comments::front_mark;
use std::marker::Model;
use tokei_table_row::ext::is_whitespace;

/// Finds the marks with which rests of lines of one text begin behind their blanks, and remembers
/// where the blanks end: over places further and further on, each blank is passed once.
#[derive(Drop)]
pub(crate) struct MarkSearch<'a> {
    text: &'a [u8],
    /// Where the last search began.
    from: usize,
    /// What it came to: the first place from there on of a newline or a byte that isn't blank, or
    /// the text's length.
    place: usize,
}

impl<'a> Model for MarkSearch<'a> {
    ghost Value = { List ℕ };

    ghost view = { λ s. s.text.now };

    ghost invariant = { λ s. IsMarkPlace s.text.now s.from s.place };
}

/// The first place from `from` on of a newline or a byte that isn't blank, or the text's length.
fn blanks_end(text: &[u8], from: usize) -> usize
    requires { from ≤ length text.now }
    ensures low { from ≤ result }
    ensures high { result ≤ length text.now }
    ensures mark { IsMarkPlace text.now from result }
{
    let mut at = from;
    while at < text.len() && text[at] != b'\n' && is_whitespace(text[at]) {
        at += 1;
    }
    at
}

impl<'a> MarkSearch<'a> {
    /// Nothing is searched yet: no question lies from 1 to 0.
    pub(crate) fn new(text: &'a [u8]) -> MarkSearch<'a>
        ensures { result ≡ text.now }
    {
        MarkSearch {
            text,
            from: 1,
            place: 0,
        }
    }

    /// The mark with which the rest of the line at `place` begins behind its front blanks.
    pub(crate) fn mark_at(&mut self, place: usize) -> Option<&'static [u8]>
        requires { place ≤ length self.old }
        ensures mark { option_map (λ m. m.now) result ≡ mark_of (first_line (drop place self.old)) }
        ensures same { self.new ≡ self.old }
    {
        if place < self.from || self.place < place {
            self.place = blanks_end(self.text, place);
            self.from = place;
        }
        front_mark(&self.text[self.place..])
    }
}
