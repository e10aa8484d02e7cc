//! The first place of a token.
ghost use Rattle.std.specs.Prelude.{◌≡◌, ◌+◌, ◌≤◌, ◌<◌, length, IfSome};
ghost use Rattle.tokei_embedding.specs.Searches.{first_of, is_at};

use memchr::memmem;

/// The first place in the text at which the token stands.
pub fn first_of(text: &[u8], token: &[u8]) -> Option<usize>
    requires { 0 < length token.now }
    ensures value { result ≡ first_of token.now text.now }
    ensures within { IfSome result (λ i. i + length token.now ≤ length text.now) }
{
    memmem::find(text, token)
}

/// Whether what was found is the given place.
pub(crate) fn is_at(found: Option<usize>, place: usize) -> bool
    ensures { result ≡ is_at place found }
{
    matches!(found, Some(at) if at == place)
}
