//! The last places of a token in a text.
ghost use Rattle.std.specs.Prelude.{◌≡◌, ◌+◌, ◌-◌, ◌≤◌, ◌<◌, length, take, drop, IfSome};
ghost use Rattle.tokei_embedding.specs.Remembered.{Sought, sought, IsLastPlace};
ghost use Rattle.tokei_embedding.specs.Searches.{last_of};

use memchr::memmem;
use std::marker::Model;

/// Finds the last place of a token in ranges of one text, and remembers it: over ranges that begin
/// further and further on and end at the same place, the text is searched once.
#[derive(Drop)]
pub(crate) struct LastSearch<'a> {
    text: &'a [u8],
    token: &'a [u8],
    /// Where the range of the last search began.
    from: usize,
    /// Where it ended.
    to: usize,
    /// What the search came to: the token's last place in the range.
    last: Option<usize>,
}

impl<'a> Model for LastSearch<'a> {
    ghost Value = { Sought };

    ghost view = { λ s. sought s.text.now s.token.now };

    ghost invariant = { λ s. (0 < length s.token.now)
        × IsLastPlace (sought s.text.now s.token.now) s.from s.to s.last };
}

/// The token's last place in `text[from..to]`, counted from the text's beginning.
fn last_between(text: &[u8], token: &[u8], from: usize, to: usize) -> Option<usize>
    requires some { 0 < length token.now }
    requires order { from ≤ to }
    requires ends { to ≤ length text.now }
    ensures { IsLastPlace (sought text.now token.now) from to result }
{
    match memmem::rfind(&text[from..to], token) {
        Some(i) => Some(from + i),
        None => None,
    }
}

impl<'a> LastSearch<'a> {
    /// Nothing is searched yet but the empty range at the front.
    pub(crate) fn new(text: &'a [u8], token: &'a [u8]) -> LastSearch<'a>
        requires { 0 < length token.now }
        ensures { result ≡ sought text.now token.now }
    {
        LastSearch {
            text,
            token,
            from: 0,
            to: 0,
            last: None,
        }
    }

    /// The token's last place in `text[from..to]`, counted from the text's beginning.
    fn place_in(&mut self, from: usize, to: usize) -> Option<usize>
        requires order { from ≤ to }
        requires ends { to ≤ length self.old.text }
        ensures some { 0 < length self.old.token }
        ensures last { IsLastPlace self.old from to result }
        ensures same { self.new ≡ self.old }
    {
        if to == self.to && self.from <= from {
            return match self.last {
                Some(place) if from <= place => Some(place),
                _ => None,
            };
        }
        let last = last_between(self.text, self.token, from, to);
        self.last = last;
        self.from = from;
        self.to = to;
        last
    }

    /// The last place of the token in `text[from..to]`, counted from `from`.
    pub(crate) fn last_in(&mut self, from: usize, to: usize) -> Option<usize>
        requires order { from ≤ to }
        requires ends { to ≤ length self.old.text }
        ensures value { result
            ≡ last_of self.old.token (take (to - from) (drop from self.old.text)) }
        ensures within { IfSome result (λ i. i + length self.old.token ≤ to - from) }
        ensures same { self.new ≡ self.old }
    {
        match self.place_in(from, to) {
            Some(place) => Some(place - from),
            None => None,
        }
    }
}
