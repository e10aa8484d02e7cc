//! Languages whose texts are searched and walked alike.
ghost use Rattle.std.specs.Prelude.{◌≡◌, ◌<◌, true};
ghost use Rattle.tokei_table.specs.RowOf.{row_of, pairs_of, tokens_of};
ghost use Rattle.tokei_parts.specs.Alike.{HaveSameQuotes, HaveSameComments, HaveSameTexts};
ghost use Rattle.tokei_parts.specs.Matchers.{matchers_of};

use tokei_table_row::Syntax;
use tokei_table_rules::Family;

/// How many different values `mark_of` has.
pub const MARKS: usize = 256;

/// Adds the bytes of the text, each with a weight by its place, so that texts of the same bytes in
/// another order mostly have other sums.
fn add_text(sum: &mut usize, text: &str) {
    for byte in text.as_bytes() {
        *sum = sum.wrapping_mul(7).wrapping_add(usize::from(*byte));
    }
}

/// Adds the bytes of the openers.
fn add_openers(sum: &mut usize, pairs: &[(String, String)]) {
    for pair in pairs {
        add_text(sum, pair.0.as_str());
    }
}

/// A number below `MARKS` which is the same for languages that are alike, and for few others.
pub fn mark_of(syntax: &Syntax) -> usize
    ensures { result < 256 }
{
    let mut sum = 0;
    add_openers(&mut sum, &syntax.quotes);
    add_openers(&mut sum, &syntax.verbatim_quotes);
    add_openers(&mut sum, &syntax.doc_quotes);
    add_openers(&mut sum, &syntax.multi_line_comments);
    add_openers(&mut sum, &syntax.nested_comments);
    for text in &syntax.line_comment {
        add_text(&mut sum, text.as_str());
    }
    sum % MARKS
}

/// Whether the lists have the same texts, in the same order.
fn are_same_texts(texts: &[String], others: &[String]) -> bool
    ensures { result ≡ true → tokens_of texts.now ≡ tokens_of others.now }
{
    texts == others
}

/// Whether the lists have the same openers and closers, in the same order.
fn are_same_pairs(pairs: &[(String, String)], others: &[(String, String)]) -> bool
    ensures { result ≡ true → pairs_of pairs.now ≡ pairs_of others.now }
{
    pairs == others
}

/// Whether both languages have the same string literals.
fn have_same_quotes(one: &Syntax, other: &Syntax) -> bool
    ensures { result ≡ true → HaveSameQuotes (row_of one.now) (row_of other.now) }
{
    are_same_pairs(&one.quotes, &other.quotes)
        && are_same_pairs(&one.verbatim_quotes, &other.verbatim_quotes)
        && are_same_pairs(&one.doc_quotes, &other.doc_quotes)
}

/// Whether both languages have the same comments.
fn have_same_comments(one: &Syntax, other: &Syntax) -> bool
    ensures { result ≡ true → HaveSameComments (row_of one.now) (row_of other.now) }
{
    are_same_texts(&one.line_comment, &other.line_comment)
        && are_same_pairs(&one.multi_line_comments, &other.multi_line_comments)
        && are_same_pairs(&one.nested_comments, &other.nested_comments)
}

/// Whether lines of both languages have to hold the same further texts to be walked.
fn have_same_texts(one: &Syntax, other: &Syntax) -> bool
    ensures { result ≡ true → HaveSameTexts (row_of one.now) (row_of other.now) }
{
    Family::of_key(one.key.as_str()) == Family::of_key(other.key.as_str())
        && are_same_texts(&one.important_syntax, &other.important_syntax)
        && are_same_texts(&one.contexts, &other.contexts)
}

/// Whether the texts of both languages are searched and walked with the same matchers, as they are
/// where the table says the same of their comments, string literals and children.
pub fn are_alike(one: &Syntax, other: &Syntax) -> bool
    ensures { result ≡ true → matchers_of (row_of one.now) ≡ matchers_of (row_of other.now) }
{
    if !have_same_quotes(one, other) {
        return false;
    }
    if !have_same_comments(one, other) {
        return false;
    }
    have_same_texts(one, other)
}
