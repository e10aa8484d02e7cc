//! Where the blanks at the front of a stretch end.
ghost use Rattle.std.specs.Prelude.{◌≡◌, ℕ, ◌≤◌, ◌<◌, true, false, length, slice_index};
ghost use Rattle.tokei_table_row.specs.Bytes.{is_blank};

use tokei_bytes::first_not_of_four;
use tokei_table_row::is_whitespace;

/// Where the blanks end that stand at the front of the stretch of the text from `from` to before
/// `to`: the first place whose byte is no blank, or `to`. A place counts the bytes of the text
/// before it.
#[inline(always)]
pub fn blanks_end(text: &[u8], from: usize, to: usize) -> usize
    requires order { from ≤ to }
    requires within { to ≤ length text.now }
    ensures low { from ≤ result }
    ensures high { result ≤ to }
    ensures blank { (p : ℕ) → from ≤ p → p < result → is_blank (slice_index text.now p) ≡ true }
    ensures found { result < to → is_blank (slice_index text.now result) ≡ false }
{
    if from < to && !is_whitespace(text[from]) {
        return from;
    }
    // few blanks are others than these
    let mut at = first_not_of_four(*b" \t\n\r", text, from, to);
    while at < to && is_whitespace(text[at]) {
        at += 1;
    }
    at
}
