//! The bytes at which a choice can begin.
ghost use Rattle.std.specs.Prelude.{◌≡◌, ℕ, ◌||◌, length};
ghost use Rattle.std.specs.List.{list_any};
ghost use Rattle.tokei_bytes.specs.ByteSets.{is_in};
ghost use Rattle.tokei_table.specs.FirstOpener.{is_first_of};
ghost use Rattle.tokei_table.specs.RowOf.{row_of, pairs_of, tokens_of};
ghost use Rattle.tokei_parts.specs.Matchers.{begins_opener, begins_choice, begins_in_comment, begins_comment};
ghost use Rattle.tokei_parts.specs.Matchers.{flags};

use tokei_bytes::{BitSet, ByteSet};
use tokei_table_row::Syntax;

/// Adds the token's first byte.
fn add_first(begins: &mut ByteSet, token: &[u8])
    ensures long { length begins.new ≡ length begins.old }
    ensures each { (x : ℕ) → is_in begins.new x
        ≡ (is_in begins.old x || is_first_of x token.now) }
{
    match token {
        [] => {}
        [first, ..] => begins.insert(*first),
    }
}

/// Adds each opener's first byte.
fn add_openers(begins: &mut ByteSet, pairs: &[(String, String)])
    ensures long { length begins.new ≡ length begins.old }
    ensures each { (x : ℕ) → is_in begins.new x
        ≡ (is_in begins.old x || begins_opener (pairs_of pairs.now) x) }
{
    for pair in pairs {
        add_first(begins, pair.0.as_bytes());
    }
}

/// Adds each token's first byte.
fn add_tokens(begins: &mut ByteSet, tokens: &[String])
    ensures long { length begins.new ≡ length begins.old }
    ensures each { (x : ℕ) → is_in begins.new x
        ≡ (is_in begins.old x || list_any (is_first_of x) (tokens_of tokens.now)) }
{
    for token in tokens {
        add_first(begins, token.as_bytes());
    }
}

/// Adds each line comment's first byte to those at which a comment can begin.
fn add_line_comments(begins: &mut BitSet, tokens: &[String])
    ensures long { length begins.new ≡ length begins.old }
    ensures each { (x : ℕ) → is_in begins.new x
        ≡ (is_in begins.old x || list_any (is_first_of x) (tokens_of tokens.now)) }
{
    for token in tokens {
        match token.as_bytes() {
            [] => {}
            [first, ..] => begins.insert(*first),
        }
    }
}

/// Adds each opener's first byte to those at which a choice can begin in a comment.
fn add_in_comment(begins: &mut BitSet, pairs: &[(String, String)])
    ensures long { length begins.new ≡ length begins.old }
    ensures each { (x : ℕ) → is_in begins.new x
        ≡ (is_in begins.old x || begins_opener (pairs_of pairs.now) x) }
{
    for pair in pairs {
        match pair.0.as_bytes() {
            [] => {}
            [first, ..] => begins.insert(*first),
        }
    }
}

/// The bytes at which a choice other than the byte itself, a closer and a child can begin in plain
/// text.
pub fn beginnings(syntax: &Syntax) -> ByteSet
    ensures { result ≡ flags (begins_choice (row_of syntax.now)) 256 }
{
    let mut begins = ByteSet::empty();
    begins.insert(b'\\');
    add_openers(&mut begins, &syntax.quotes);
    add_openers(&mut begins, &syntax.verbatim_quotes);
    add_openers(&mut begins, &syntax.doc_quotes);
    add_openers(&mut begins, &syntax.multi_line_comments);
    add_openers(&mut begins, &syntax.nested_comments);
    add_tokens(&mut begins, &syntax.line_comment);
    begins
}

/// The same in a comment.
pub fn beginnings_in_comment(syntax: &Syntax) -> BitSet
    ensures { result ≡ flags (begins_in_comment (row_of syntax.now)) 256 }
{
    let mut begins = BitSet::empty();
    begins.insert(b'\\');
    add_in_comment(&mut begins, &syntax.multi_line_comments);
    add_in_comment(&mut begins, &syntax.nested_comments);
    begins
}

/// The bytes at which a comment can begin, of lines too, and the backslash.
pub fn beginnings_of_comments(syntax: &Syntax) -> BitSet
    ensures { result ≡ flags (begins_comment (row_of syntax.now)) 256 }
{
    let mut begins = beginnings_in_comment(syntax);
    add_line_comments(&mut begins, &syntax.line_comment);
    begins
}
