//! The decoding of a file's contents.
ghost use Rattle.std.specs.Prelude.{◌≡◌, None, Ok, IfOk, MatchOption, slice_index};
ghost use Rattle.tokei_bytes.specs.Decoding.{order_of, unit_of, units_of, text_of_units, decoded};

use std::alloc::{AllocError, Global};

/// Which byte of a unit of UTF-16 comes first.
#[derive(Clone, Copy)]
pub(crate) enum ByteOrder {
    BigEndian,
    LittleEndian,
}

/// A file's contents as they are counted: behind a mark FE FF or FF FE the UTF-8 of what the UTF-16
/// spells, without the mark, where each surrogate that has no partner and an odd last byte is
/// U+FFFD. Contents without a mark are handed back, and take no memory.
pub fn decode_text(alloc: Global, bytes: Vec<u8>) -> Result<Vec<u8>, AllocError>
    ensures decoded { IfOk result (λ text. text.items ≡ decoded bytes.items) }
    ensures unmarked { order_of bytes.items ≡ None → result ≡ Ok bytes }
{
    match decode_marked(alloc, &bytes)? {
        Some(text) => Ok(text),
        None => Ok(bytes),
    }
}

/// What `decode_text` makes of contents with a mark; `None` where there is none, since they are
/// counted as they stand, and then it takes no memory.
pub fn decode_marked(alloc: Global, bytes: &[u8]) -> Result<Option<Vec<u8>>, AllocError>
    ensures decoded { IfOk result (λ text. MatchOption text (decoded bytes.now ≡ bytes.now)
        (λ text. text.items ≡ decoded bytes.now)) }
    ensures unmarked { order_of bytes.now ≡ None → result ≡ Ok None }
{
    match mark_of(bytes) {
        Some(order) => Ok(Some(text_of_units(alloc, order, &bytes[2..])?)),
        None => Ok(None),
    }
}

/// The order of the bytes that a mark at the front names.
fn mark_of(bytes: &[u8]) -> Option<ByteOrder>
    ensures { result ≡ order_of bytes.now }
{
    match bytes {
        [0xFE, 0xFF, ..] => Some(ByteOrder::BigEndian),
        [0xFF, 0xFE, ..] => Some(ByteOrder::LittleEndian),
        _ => None,
    }
}

/// The UTF-8 of the characters that the bytes spell in UTF-16.
#[tactic(auto, using(crate::proofs::Units::encoded_odd, crate::proofs::Units::encoded_even))]
fn text_of_units(alloc: Global, order: ByteOrder, bytes: &[u8]) -> Result<Vec<u8>, AllocError>
    ensures { IfOk result (λ text. text.items ≡ text_of_units order bytes.now) }
{
    let units = units_of(alloc, order, bytes)?;
    let mut text = String::from_utf16_lossy(alloc, units.as_slice())?;
    if bytes.len() % 2 == 1 {
        text.push('\u{FFFD}')?;
    }
    Ok(text.into_bytes())
}

/// The units of the bytes, two by two.
fn units_of(alloc: Global, order: ByteOrder, bytes: &[u8]) -> Result<Vec<u16>, AllocError>
    ensures { IfOk result (λ units. units.items ≡ units_of order bytes.now) }
{
    let (pairs, _odd) = bytes.as_chunks::<2>();
    pairs
        .iter()
        .map(|pair| unit_of(order, *pair))
        .collect(alloc)
}

/// The unit of two bytes.
fn unit_of(order: ByteOrder, pair: [u8; 2]) -> u16
    ensures { result ≡ unit_of order (slice_index pair 0) (slice_index pair 1) }
{
    match order {
        ByteOrder::BigEndian => u16::from_be_bytes(pair),
        ByteOrder::LittleEndian => u16::from_le_bytes(pair),
    }
}
