//! The blanks in a text.
ghost use Rattle.std.specs.Prelude.{◌≡◌, ℕ, ◌-◌, ◌≤◌, List, length, take, drop};
ghost use Rattle.tokei_embedding.specs.Remembered.{IsFirstSolid};
ghost use Rattle.tokei_table_row.specs.Bytes.{all_blank};

use std::marker::Model;
use tokei_table_row::ext::is_whitespace;

/// Tells whether ranges of one text are blank, and remembers the first byte that isn't: over ranges
/// that begin further and further on, the text is searched once.
#[derive(Drop)]
pub(crate) struct BlankSearch<'a> {
    text: &'a [u8],
    /// Where the last search began.
    from: usize,
    /// What it came to: the first place from there on of a byte that isn't blank, or the text's
    /// length.
    place: usize,
}

impl<'a> Model for BlankSearch<'a> {
    ghost Value = { List ℕ };

    ghost view = { λ s. s.text.now };

    ghost invariant = { λ s. IsFirstSolid s.text.now s.from s.place };
}

/// The first place from `from` on of a byte that isn't blank, or the text's length.
fn solid_from(text: &[u8], from: usize) -> usize
    requires { from ≤ length text.now }
    ensures low { from ≤ result }
    ensures first { IsFirstSolid text.now from result }
{
    for i in from..text.len() {
        if !is_whitespace(text[i]) {
            return i;
        }
    }
    text.len()
}

impl<'a> BlankSearch<'a> {
    /// Nothing is searched yet: no question lies from 1 to 0.
    pub(crate) fn new(text: &'a [u8]) -> BlankSearch<'a>
        ensures { result ≡ text.now }
    {
        BlankSearch {
            text,
            from: 1,
            place: 0,
        }
    }

    /// The first place from `from` on of a byte that isn't blank, or the text's length.
    fn place_from(&mut self, from: usize) -> usize
        requires { from ≤ length self.old }
        ensures low { from ≤ result }
        ensures first { IsFirstSolid self.old from result }
        ensures same { self.new ≡ self.old }
    {
        if from < self.from || self.place < from {
            self.place = solid_from(self.text, from);
            self.from = from;
        }
        self.place
    }

    /// Whether each byte of `text[from..to]` is blank.
    pub(crate) fn is_blank_in(&mut self, from: usize, to: usize) -> bool
        requires order { from ≤ to }
        requires ends { to ≤ length self.old }
        ensures value { result ≡ all_blank (take (to - from) (drop from self.old)) }
        ensures same { self.new ≡ self.old }
    {
        to <= self.place_from(from)
    }
}
