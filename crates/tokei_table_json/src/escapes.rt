//! Escapes in the texts of a table: those of a string literal in Rust source.
ghost use Rattle.std.specs.Prelude.{◌≡◌, ◌<◌, ◌==◌, ◌∷◌, [], length, MatchOption, IfOk, string_bytes};
ghost use Rattle.std.specs.List.{list_any};
ghost use Rattle.std.specs.Str.{chars, IsUtf8};
ghost use Rattle.tokei_table_json.specs.Escapes.{backslash, escape_value, is_escaped_text, unescaped_text};

use std::alloc::{AllocError, Global};

fn first_char(s: &str) -> Option<(char, &str)>
    ensures { MatchOption result (chars s.entry.now ≡ [])
        (λ p. (chars s.entry.now ≡ p.0 ∷ chars p.1.now) × (length p.1.now < length s.entry.now)
        × IsUtf8 p.1.now) }
{
    let mut chars = s.chars();
    let c = chars.next()?;
    Some((c, chars.as_str()))
}

/// What a character behind a backslash stands for.
fn escape_value(c: char) -> Option<char>
    ensures { result ≡ escape_value c }
{
    match c {
        '\\' => Some('\\'),
        '"' => Some('"'),
        '\'' => Some('\''),
        't' => Some('\t'),
        'r' => Some('\r'),
        'n' => Some('\n'),
        '0' => Some('\0'),
        _ => None,
    }
}

/// Whether the text holds a backslash.
pub(crate) fn has_backslash(text: &str) -> bool
    ensures { result ≡ list_any (λ b. b == backslash) text.now }
{
    for byte in text.as_bytes() {
        if *byte == b'\\' {
            return true;
        }
    }
    false
}

/// Whether each backslash of the text, of which it holds some, begins an escape.
pub(crate) fn are_escapes(text: &str) -> bool
    ensures { result ≡ is_escaped_text text.now }
{
    let mut rest = text;
    while let Some((c, later)) = first_char(rest) {
        rest = later;
        if c == '\\' {
            let Some((d, after)) = first_char(later) else {
                return false;
            };
            if escape_value(d).is_none() {
                return false;
            }
            rest = after;
        }
    }
    true
}

/// Whether each backslash of the text begins an escape.
pub(crate) fn is_escaped(text: &str) -> bool
    ensures { result ≡ is_escaped_text text.now }
{
    !has_backslash(text) || are_escapes(text)
}

/// The text after escapes; where memory runs out it fails.
pub fn unescaped(alloc: Global, text: &str) -> Result<String, AllocError>
    ensures { IfOk result (λ s. string_bytes s ≡ unescaped_text text.now) }
{
    let mut out = String::with_capacity(alloc, text.len())?;
    let mut rest = text;
    while let Some((c, later)) = first_char(rest) {
        if c == '\\' {
            let Some((d, after)) = first_char(later) else {
                return Ok(out);
            };
            out.push(escape_value(d).unwrap_or(d))?;
            rest = after;
        } else {
            out.push(c)?;
            rest = later;
        }
    }
    Ok(out)
}
