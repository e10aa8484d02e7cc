//! The first places of a token in a text.
ghost use Rattle.std.specs.Prelude.{◌≡◌, ◌+◌, ◌-◌, ◌≤◌, ◌<◌, length, take, drop, IfSome};
ghost use Rattle.tokei_embedding.specs.Remembered.{Sought, sought, IsFirstPlace};
ghost use Rattle.tokei_embedding.specs.Searches.{first_of};

use memchr::memmem;
use std::marker::Model;

/// Finds the first place of a token in ranges of one text, and remembers it: over ranges that begin
/// further and further on, the text is searched once.
#[derive(Drop)]
pub(crate) struct FirstSearch<'a> {
    text: &'a [u8],
    token: &'a [u8],
    /// Where the last search began.
    from: usize,
    /// What it came to: the token's first place from there on, or the text's length.
    place: usize,
}

impl<'a> Model for FirstSearch<'a> {
    ghost Value = { Sought };

    ghost view = { λ s. sought s.text.now s.token.now };

    ghost invariant = { λ s. IsFirstPlace (sought s.text.now s.token.now) s.from s.place };
}

/// The token's first place from `from` on, or the text's length.
fn first_from(text: &[u8], token: &[u8], from: usize) -> usize
    requires some { 0 < length token.now }
    requires inside { from ≤ length text.now }
    ensures low { from ≤ result }
    ensures first { IsFirstPlace (sought text.now token.now) from result }
{
    match memmem::find(&text[from..], token) {
        Some(i) => from + i,
        None => text.len(),
    }
}

impl<'a> FirstSearch<'a> {
    /// Nothing is searched yet: no question lies from 1 to 0.
    pub(crate) fn new(text: &'a [u8], token: &'a [u8]) -> FirstSearch<'a>
        requires { 0 < length token.now }
        ensures { result ≡ sought text.now token.now }
    {
        FirstSearch {
            text,
            token,
            from: 1,
            place: 0,
        }
    }

    /// The token's first place from `from` on, or the text's length.
    fn place_from(&mut self, from: usize) -> usize
        requires { from ≤ length self.old.text }
        ensures low { from ≤ result }
        ensures first { IsFirstPlace self.old from result }
        ensures same { self.new ≡ self.old }
    {
        if from < self.from || self.place < from {
            self.place = first_from(self.text, self.token, from);
            self.from = from;
        }
        self.place
    }

    /// The first place of the token in `text[from..to]`, counted from `from`.
    pub(crate) fn first_in(&mut self, from: usize, to: usize) -> Option<usize>
        requires order { from ≤ to }
        requires ends { to ≤ length self.old.text }
        ensures value { result
            ≡ first_of self.old.token (take (to - from) (drop from self.old.text)) }
        ensures within { IfSome result (λ i. i + length self.old.token ≤ to - from) }
        ensures same { self.new ≡ self.old }
    {
        let place = self.place_from(from);
        if place <= to && self.token.len() <= to - place {
            return Some(place - from);
        }
        None
    }
}
