//! Numbers of a tree that are counts: whole ones of 64 bits from 0 on.
ghost use Rattle.std.specs.Prelude.{◌≡◌, ◌==◌, option_and_then, slice_index};
ghost use Rattle.fast_float.specs.Text.{minus};
ghost use Rattle.serde_json.specs.Find.{as_u64};
ghost use Rattle.serde_json.specs.Read.{number_of};

use fast_float::Numeral;

/// Whether the first byte is a minus.
pub(crate) fn has_minus(bytes: &[u8]) -> bool
    ensures { result ≡ (slice_index bytes.now 0 == minus) }
{
    !bytes.is_empty() && bytes[0] == b'-'
}

/// The count that a number's text stands for, where it is one.
pub fn count(text: &str) -> Option<u64>
    ensures { result ≡ option_and_then as_u64 (number_of text.now) }
{
    let bytes = text.as_bytes();
    if has_minus(bytes) {
        return None;
    }
    Numeral::scan(bytes).to_u64()
}
