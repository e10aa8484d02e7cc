//! Where blocks of doc comments end in a text.
ghost use Rattle.std.specs.Prelude.{◌≡◌, ◌+◌, ◌<◌, ◌≤◌, length, drop, Some};
ghost use Rattle.tokei_embedding.specs.DocComments.{first_line, mark_of, marked_len, lines_of};
ghost use Rattle.tokei_embedding.specs.Remembered.{Sought, sought, IsDocEnd};

use crate::doc_comments::marked_len;
use std::marker::Model;

/// Finds the blocks of doc comments with one mark in a text, and remembers where the last one ends:
/// over places further and further on, each line is searched for its mark once.
#[derive(Drop)]
pub(crate) struct DocSearch<'a> {
    text: &'a [u8],
    mark: &'static [u8],
    /// Where the last search began.
    from: usize,
    /// What it came to: where the block ends that opens there.
    end: usize,
}

impl<'a> Model for DocSearch<'a> {
    ghost Value = { Sought };

    ghost view = { λ s. sought s.text.now s.mark.now };

    ghost invariant = { λ s. IsDocEnd (sought s.text.now s.mark.now) s.from s.end };
}

/// Where the lines with the mark end, the first of which is the rest of the line at `from`.
fn lines_end(text: &[u8], mark: &[u8], from: usize) -> usize
    requires { from ≤ length text.now }
    ensures len { result ≡ from + marked_len mark.now (lines_of (drop from text.now)) }
    ensures end { IsDocEnd (sought text.now mark.now) from result }
{
    from + marked_len(mark, &text[from..])
}

impl<'a> DocSearch<'a> {
    /// Nothing is searched yet: no block lies from 0 to 0.
    pub(crate) fn new(text: &'a [u8], mark: &'static [u8]) -> DocSearch<'a>
        ensures { result ≡ sought text.now mark.now }
    {
        DocSearch {
            text,
            mark,
            from: 0,
            end: 0,
        }
    }

    /// The length of the block that opens at `place`, where the rest of the line begins with the
    /// mark behind its front blanks.
    pub(crate) fn len_at(&mut self, place: usize) -> usize
        requires inside { place < length self.old.text }
        requires marked { mark_of (first_line (drop place self.old.text)) ≡ Some self.old.token }
        ensures len { result ≡ marked_len self.old.token (lines_of (drop place self.old.text)) }
        ensures same { self.new ≡ self.old }
    {
        if place < self.from || self.end <= place {
            self.end = lines_end(self.text, self.mark, place);
            self.from = place;
        }
        self.end - place
    }
}
