//! Whether the rows of a table can be counted with.
ghost use Rattle.std.specs.Prelude.{◌≡◌, true, false, not, map, is_some, IfSome};
ghost use Rattle.std.specs.List.{list_all, list_any};
ghost use Rattle.tokei_table_row.specs.Bytes.{holds};
ghost use Rattle.tokei_table_row.specs.RowOf.{row_of};
ghost use Rattle.tokei_table_rules.specs.Families.{family_of, needed_keys};
ghost use Rattle.tokei_table_rules.specs.Fallbacks.{has_key, has_fallbacks};
ghost use Rattle.tokei_table_rules.specs.RowNames.{is_total};
ghost use Rattle.tokei_table_rules.specs.Tokens.{has_tokens, member_has_tokens};

use crate::family::Family;
use crate::names::has_name;
use crate::tokens::{are_pairs, are_tokens};
use tokei_table_row::Syntax;

/// The member of the row that has a text which a count looks for and which is no token.
#[tactic(auto, unfolding(crate::specs::Tokens::has_tokens))]
pub fn bad_member(row: &Syntax) -> Option<&str>
    ensures found { is_some result ≡ not (has_tokens (row_of row.entry.now)) }
    ensures bad { IfSome result (λ m. member_has_tokens (row_of row.entry.now) m.now ≡ false) }
{
    if !are_tokens(&row.line_comment) {
        Some("line_comment")
    } else if !are_pairs(&row.multi_line_comments) {
        Some("multi_line_comments")
    } else if !are_pairs(&row.nested_comments) {
        Some("nested_comments")
    } else if !are_pairs(&row.quotes) {
        Some("quotes")
    } else if !are_pairs(&row.verbatim_quotes) {
        Some("verbatim_quotes")
    } else if !are_pairs(&row.doc_quotes) {
        Some("doc_quotes")
    } else if !are_tokens(&row.important_syntax) {
        Some("important_syntax")
    } else if !are_tokens(&row.contexts) {
        Some("contexts")
    } else {
        None
    }
}

/// Whether all texts that a count looks for are tokens.
pub fn all_have_tokens(rows: &[Syntax]) -> bool
    ensures { result ≡ list_all has_tokens (map row_of rows.now) }
{
    for row in rows {
        if bad_member(row).is_some() {
            return false;
        }
    }
    true
}

/// Whether the key or the name is `Total`.
pub fn is_total(row: &Syntax) -> bool
    ensures { result ≡ is_total (row_of row.now) }
{
    has_name(row, "Total".as_bytes())
}

/// Whether a key or a name is `Total`.
pub fn names_total(rows: &[Syntax]) -> bool
    ensures { result ≡ list_any is_total (map row_of rows.now) }
{
    for row in rows {
        if is_total(row) {
            return true;
        }
    }
    false
}

fn has_key(rows: &[Syntax], key: &str) -> bool
    ensures { result ≡ has_key (map row_of rows.now) key.now }
{
    for row in rows {
        if row.key.as_str() == key {
            return true;
        }
    }
    false
}

/// The key of a language that is missing, on which children of the row's language fall back.
pub fn missing_key(rows: &[Syntax], row: &Syntax) -> Option<&'static str>
    ensures found { is_some result ≡ not (has_fallbacks (map row_of rows.now) (row_of row.now)) }
    ensures needed { IfSome result
        (λ k. holds (needed_keys (family_of (row_of row.now).key)) k.now ≡ true) }
    ensures missing { IfSome result (λ k. has_key (map row_of rows.now) k.now ≡ false) }
{
    let keys = Family::of_key(row.key.as_str()).needed_keys();
    for key in keys {
        if !has_key(rows, *key) {
            return Some(*key);
        }
    }
    None
}

/// Whether the languages are there on which the children of others fall back.
pub fn all_have_fallbacks(rows: &[Syntax]) -> bool
    ensures { result ≡ list_all (has_fallbacks (map row_of rows.now)) (map row_of rows.now) }
{
    for row in rows {
        if missing_key(rows, row).is_some() {
            return false;
        }
    }
    true
}
