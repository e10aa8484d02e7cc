//! The names of a place, and their order.
ghost use Rattle.std.specs.Prelude.{◌≡◌, IfOk, None, option_map};
ghost use Rattle.std.specs.List.{last_or};
ghost use Rattle.tokei_folders.specs.Tree.{names_of, is_name as is_a_name, names_cmp};

use crate::lists::Items;
use crate::texts::Text;
use std::alloc::{AllocError, Global};
use std::cmp::Ordering;

fn is_name(piece: &str) -> bool
    ensures { result ≡ is_a_name piece.now }
{
    match piece.as_bytes() {
        [] => false,
        [only] => *only != b'.',
        _ => true,
    }
}

/// The names of a place: its pieces between slashes, empty ones and `.` dropped.
#[tactic(auto, unfolding(crate::specs::Tree::names_of))]
pub fn names(alloc: Global, place: &str) -> Result<Items<Text>, AllocError>
    ensures { IfOk result (λ v. v ≡ names_of place.now) }
{
    let mut names = Items::new(alloc);
    for piece in place.split('/') {
        if is_name(piece) {
            names.push(Text::from_str(alloc, piece)?)?;
        }
    }
    Ok(names)
}

/// The last name of a place, where it has one. It takes no memory, and looks at the place from its
/// end.
pub fn last_name(place: &str) -> Option<&str>
    ensures { option_map (λ n. n.now) result ≡ last_or None (names_of place.entry.now) }
{
    let mut rest = place;
    while let Some((front, piece)) = rest.rsplit_once('/') {
        if is_name(piece) {
            return Some(piece);
        }
        rest = front;
    }
    if is_name(rest) { Some(rest) } else { None }
}

/// The order of two lists of names: name by name, in bytes.
pub fn compare(a: &[Text], b: &[Text]) -> Ordering
    ensures { result ≡ names_cmp a.now b.now }
{
    match (a.split_first(), b.split_first()) {
        (None, None) => Ordering::Equal,
        (None, Some(_)) => Ordering::Less,
        (Some(_), None) => Ordering::Greater,
        (Some((m, ms)), Some((n, ns))) => match m.as_str().cmp(n.as_str()) {
            Ordering::Less => Ordering::Less,
            Ordering::Equal => compare(ms, ns),
            Ordering::Greater => Ordering::Greater,
        },
    }
}

/// A copy of some names.
pub fn copied(alloc: Global, texts: &[Text]) -> Result<Items<Text>, AllocError>
    ensures { IfOk result (λ ts. ts ≡ texts.now) }
{
    let mut copies = Items::new(alloc);
    for text in texts {
        copies.push(Text::from_str(alloc, text.as_str())?)?;
    }
    Ok(copies)
}
