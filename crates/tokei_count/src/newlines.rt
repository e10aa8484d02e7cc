//! How many newlines a text has.
ghost use Rattle.std.specs.Prelude.{◌≡◌, ◌≤◌, drop, length};
ghost use Rattle.tokei_bytes.specs.Lines.{newline_count};

use tokei_bytes::{BLOCK, line_masks};

/// How many newlines stand in the text from `from` on.
pub(crate) fn count_newlines(text: &[u8], from: usize) -> usize
    requires { from ≤ length text.now }
    ensures { result ≡ newline_count (drop from text.now) }
{
    let mut at = from;
    let mut newlines = 0;
    while BLOCK <= text.len() - at {
        newlines += line_masks(text, at, 0).newlines.count_ones() as usize;
        at += BLOCK;
    }
    while at < text.len() {
        if text[at] == b'\n' {
            newlines += 1;
        }
        at += 1;
    }
    newlines
}
