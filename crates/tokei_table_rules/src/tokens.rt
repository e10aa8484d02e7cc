//! Whether the texts of a table are tokens, with which a text can be read line by line.
ghost use Rattle.std.specs.Prelude.{◌≡◌};
ghost use Rattle.std.specs.List.{list_all};
ghost use Rattle.tokei_table_row.specs.RowOf.{pairs_of, tokens_of};
ghost use Rattle.tokei_table_row.specs.Sound.{no_newline, is_token, is_pair};

use tokei_table_row::is_blank_text;

fn no_newline(text: &[u8]) -> bool
    ensures { result ≡ no_newline text.now }
{
    for byte in text {
        if *byte == b'\n' {
            return false;
        }
    }
    true
}

fn is_token(text: &[u8]) -> bool
    ensures { result ≡ is_token text.now }
{
    match text {
        [] => false,
        [_, ..] => no_newline(text) && !is_blank_text(text),
    }
}

/// Whether each of the texts is neither empty nor all blank, and none holds a newline.
pub(crate) fn are_tokens(tokens: &[String]) -> bool
    ensures { result ≡ list_all is_token (tokens_of tokens.now) }
{
    for token in tokens {
        if !is_token(token.as_bytes()) {
            return false;
        }
    }
    true
}

/// The same of both texts of each pair.
pub(crate) fn are_pairs(pairs: &[(String, String)]) -> bool
    ensures { result ≡ list_all is_pair (pairs_of pairs.now) }
{
    for pair in pairs {
        if !is_token(pair.0.as_bytes()) || !is_token(pair.1.as_bytes()) {
            return false;
        }
    }
    true
}
