//! The last two bytes of path suffixes, by which the rows that have a suffix of a name are found.
ghost use Rattle.std.specs.Prelude.{◌≡◌, map};
ghost use Rattle.std.specs.List.{list_any};
ghost use Rattle.tokei_table_row.specs.RowOf.{row_of, tokens_of};
ghost use Rattle.tokei_table_rules.specs.PathSuffixes.{tail_of, is_short, has_short_suffix};

use tokei_table_row::Syntax;

/// The last two bytes of the text, or the whole of a shorter one.
pub(crate) fn tail(text: &[u8]) -> &[u8]
    ensures { result.now ≡ tail_of text.entry.now }
{
    &text[text.len().saturating_sub(2)..]
}

fn is_short(text: &[u8]) -> bool
    ensures { result ≡ is_short text.now }
{
    match text {
        [_, _, ..] => false,
        _ => true,
    }
}

fn has_short(texts: &[String]) -> bool
    ensures { result ≡ list_any is_short (tokens_of texts.now) }
{
    for text in texts {
        if is_short(text.as_bytes()) {
            return true;
        }
    }
    false
}

/// Whether a row has a path suffix of fewer than two bytes.
pub(crate) fn has_short_suffix(rows: &[Syntax]) -> bool
    ensures { result ≡ list_any has_short_suffix (map row_of rows.now) }
{
    for row in rows {
        if has_short(&row.path_suffixes) {
            return true;
        }
    }
    false
}
