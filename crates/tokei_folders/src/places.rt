//! The place of an entry of a folder.
ghost use Rattle.std.specs.Prelude.{◌≡◌, ◌++◌, IfOk};
ghost use Rattle.tokei_folders.specs.Ends.{ends_in};
ghost use Rattle.tokei_folders.specs.Places.{joined as joined_places};
ghost use Rattle.tokei_folders.specs.Tree.{names_of};

use crate::texts::Text;
use std::alloc::{AllocError, Global};

/// The place of an entry of a folder.
#[tactic(auto, unfolding(crate::specs::Places::joined))]
pub fn joined(alloc: Global, place: &str, name: &str) -> Result<Text, AllocError>
    ensures place { IfOk result (λ t. t ≡ joined_places place.now name.now) }
    ensures names { IfOk result (λ t. names_of t ≡ names_of place.now ++ names_of name.now) }
{
    let bytes = place.len().saturating_add(name.len()).saturating_add(1);
    let mut whole = Text::with_capacity(alloc, bytes)?;
    whole.push_str(place)?;
    if !ends_in_slash(place) {
        whole.push_str("/")?;
    }
    whole.push_str(name)?;
    Ok(whole)
}

fn ends_in_slash(place: &str) -> bool
    ensures { result ≡ ends_in 47 place.now }
{
    match place.as_bytes().split_last() {
        None => false,
        Some((last, _)) => *last == b'/',
    }
}
