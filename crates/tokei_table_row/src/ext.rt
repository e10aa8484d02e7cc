//! Blanks, trims and searches over bytes.
ghost use Rattle.std.specs.Prelude.{◌≡◌, ◌==◌, ◌≤◌, ◌<◌, length, IfSome};
ghost use Rattle.tokei_table_row.specs.Slices.{contains_slice};
ghost use Rattle.tokei_table_row.specs.OuterLines.{is_stop, first_stop, last_stop, start_behind, is_return_newline};
ghost use Rattle.tokei_table_row.specs.OuterLines.{end_behind, trim_outer_lines};
ghost use Rattle.tokei_table_row.specs.Bytes.{is_blank, all_blank, solid_len, trim_start, trim_end, trim};
ghost use Rattle.tokei_table_row.specs.Bytes.{begins, begins_with_one, holds};
ghost use Rattle.tokei_table_row.specs.RowOf.{tokens_of};

use memchr::memmem;

/// Whether the byte is a blank: space, or one of the bytes 9 to 13.
pub fn is_whitespace(byte: u8) -> bool
    ensures { result ≡ is_blank byte }
{
    byte == b' ' || (byte >= 9 && byte <= 13)
}

/// Whether the byte ends a line: the newline, byte 10.
pub fn is_line_ending_whitespace(byte: u8) -> bool
    ensures { result ≡ (byte == 10) }
{
    byte == b'\n'
}

/// Whether each byte of the text is a blank.
pub fn is_blank_text(text: &[u8]) -> bool
    ensures { result ≡ all_blank text.now }
{
    for byte in text {
        if !is_whitespace(*byte) {
            return false;
        }
    }
    true
}

/// How many bytes stand before the first blank, or in all.
pub fn solid_len(text: &[u8]) -> usize
    ensures value { result ≡ solid_len text.now }
    ensures within { result ≤ length text.now }
{
    for (i, byte) in text.iter().enumerate() {
        if is_whitespace(*byte) {
            return i;
        }
    }
    text.len()
}

/// The text without the blanks at its front.
pub fn trim_start(text: &[u8]) -> &[u8]
    ensures { result.now ≡ trim_start text.now }
{
    let mut rest = text;
    while let [first, others @ ..] = rest {
        if !is_whitespace(*first) {
            return rest;
        }
        rest = others;
    }
    rest
}

fn trim_end(text: &[u8]) -> &[u8]
    ensures { result.now ≡ trim_end text.now }
{
    let mut rest = text;
    while let [others @ .., last] = rest {
        if !is_whitespace(*last) {
            return rest;
        }
        rest = others;
    }
    rest
}

/// The text without the blanks at both ends.
pub fn trim(text: &[u8]) -> &[u8]
    ensures { result.now ≡ trim text.now }
{
    trim_end(trim_start(text))
}

/// Whether the text holds the needle; none holds the empty one.
pub fn contains_slice(text: &[u8], needle: &[u8]) -> bool
    ensures { result ≡ contains_slice text.now needle.now }
{
    !needle.is_empty() && memmem::find(text, needle).is_some()
}

/// Whether the token stands at the front of the text. Three bytes, as the longest of most languages
/// have, are compared in place.
#[inline(always)]
fn begins(token: &[u8], text: &[u8]) -> bool
    ensures { result ≡ begins token.now text.now }
{
    match (token, text) {
        ([a, b, c], [x, y, z, ..]) => *a == *x && *b == *y && *c == *z,
        _ => text.starts_with(token),
    }
}

/// Whether one of the texts stands at the front of that one.
#[tactic(auto, unfolding(crate::specs::Bytes::begins_with_one))]
pub fn begins_with_one(beginnings: &[String], text: &[u8]) -> bool
    ensures { result ≡ begins_with_one (tokens_of beginnings.now) text.now }
{
    for beginning in beginnings {
        if begins(beginning.as_bytes(), text) {
            return true;
        }
    }
    false
}

/// Whether that text is one of the list.
pub fn holds(texts: &[String], text: &[u8]) -> bool
    ensures { result ≡ holds (tokens_of texts.now) text.now }
{
    for known in texts {
        if known.as_bytes() == text {
            return true;
        }
    }
    false
}

fn is_stop(byte: u8) -> bool
    ensures { result ≡ is_stop byte }
{
    is_line_ending_whitespace(byte) || !is_whitespace(byte)
}

fn first_stop(text: &[u8]) -> Option<usize>
    ensures value { result ≡ first_stop text.now }
    ensures within { IfSome result (λ i. i < length text.now) }
{
    for (i, byte) in text.iter().enumerate() {
        if is_stop(*byte) {
            return Some(i);
        }
    }
    None
}

fn last_stop(text: &[u8]) -> Option<usize>
    ensures value { result ≡ last_stop text.now }
    ensures within { IfSome result (λ i. i < length text.now) }
{
    let mut rest = text;
    while let [others @ .., last] = rest {
        if is_stop(*last) {
            return Some(others.len());
        }
        rest = others;
    }
    None
}

fn inner_start(text: &[u8]) -> usize
    ensures value { result ≡ start_behind (length text.now) (first_stop text.now) }
    ensures within { result ≤ length text.now }
{
    match first_stop(text) {
        Some(i) => (i + 1).min(text.len() - 1),
        None => 0,
    }
}

fn is_return_newline(text: &[u8], i: usize) -> bool
    requires { i < length text.now }
    ensures { result ≡ is_return_newline text.now i }
{
    i > 0 && text[i - 1] == b'\r' && text[i] == b'\n'
}

fn inner_end(text: &[u8]) -> usize
    ensures value { result ≡ end_behind text.now (last_stop text.now) }
    ensures within { result ≤ length text.now }
{
    match last_stop(text) {
        Some(i) => if is_return_newline(text, i) { i } else { i + 1 },
        None => text.len(),
    }
}

/// The text without the blank rest of its first line and the blank front of its last one: from
/// behind the first stop, but no later than the last byte, through the last stop, a stop being a
/// newline or a byte that isn't blank. A last stop that is the newline of a carriage return and a
/// newline goes too. Without a stop the text stays.
pub fn trim_first_and_last_line_of_whitespace(text: &[u8]) -> &[u8]
    ensures { result.now ≡ trim_outer_lines text.now }
{
    let start = inner_start(text);
    let end = inner_end(text);
    if end <= start {
        return &text[..0];
    }
    &text[start..end]
}
