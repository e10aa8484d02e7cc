//! The ends of a line, and the parts between its slashes.
ghost use Rattle.std.specs.Prelude.{◌≡◌, ◌<◌, ◌==◌, ◌&&◌, [], ◌∷◌, true, false, IfOk, IfSome, MatchOption, length};
ghost use Rattle.std.specs.List.{slice_split};
ghost use Rattle.tokei_folders.specs.Ends.{ends_in, without_last, begins_with as starts_with_char};
ghost use Rattle.tokei_ignore.specs.Trims.{is_escaped, trimmed as trimmed_line};

use std::alloc::AllocError;
use tokei_folders::Items;

/// Whether the last character is this one.
pub fn ends_with(chars: &[char], end: char) -> bool
    ensures { result ≡ ends_in end chars.now }
{
    match chars.split_last() {
        None => false,
        Some((last, _)) => *last == end,
    }
}

/// What stands before this last character, where it is the last one.
pub fn front_before(chars: &[char], end: char) -> Option<&[char]>
    ensures { MatchOption result (ends_in end chars.entry.now ≡ false)
        (λ front. (ends_in end chars.entry.now ≡ true)
        × (front.now ≡ without_last chars.entry.now)) }
{
    match chars.split_last() {
        None => None,
        Some((last, front)) => if *last == end { Some(front) } else { None },
    }
}

/// Whether the first character is this one.
pub fn begins_with(chars: &[char], start: char) -> bool
    ensures { result ≡ starts_with_char start chars.now }
{
    match chars.split_first() {
        None => false,
        Some((first, _)) => *first == start,
    }
}

/// Whether an odd number of backslashes ends the characters.
fn ends_escaped(chars: &[char]) -> bool
    ensures { result ≡ is_escaped false chars.now }
{
    let mut odd = false;
    for c in chars {
        odd = *c == '\\' && !odd;
    }
    odd
}

/// Whether a backslash quotes the first of the dropped spaces.
fn keeps_space(spaces: bool, kept: &[char]) -> bool
    ensures { result ≡ (spaces && is_escaped false kept.now) }
{
    spaces && ends_escaped(kept)
}

/// The line without the spaces at its end; one that a backslash quotes stays.
pub fn trimmed(mut chars: Items<char>) -> Result<Items<char>, AllocError>
    ensures { IfOk result (λ t. t ≡ trimmed_line chars) }
{
    let mut spaces = false;
    while ends_with(chars.as_slice(), ' ') {
        chars.drop_last();
        spaces = true;
    }
    if !keeps_space(spaces, chars.as_slice()) {
        return Ok(chars);
    }
    chars.push(' ')?;
    Ok(chars)
}

/// What stands before the first slash, and what behind it, where there is one.
pub fn cut_at_slash(chars: &[char]) -> (&[char], Option<&[char]>)
    ensures last { MatchOption result.1
        (slice_split (λ c. c == 47) chars.entry.now ≡ result.0.now ∷ [])
        (λ rest. slice_split (λ c. c == 47) chars.entry.now
        ≡ result.0.now ∷ slice_split (λ c. c == 47) rest.now) }
    ensures shorter { IfSome result.1 (λ rest. length rest.now < length chars.entry.now) }
{
    for (i, c) in chars.iter().enumerate() {
        if *c == '/' {
            return (&chars[..i], Some(&chars[i + 1..]));
        }
    }
    (chars, None)
}
