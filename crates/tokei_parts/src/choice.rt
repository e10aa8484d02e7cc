//! The choice at one place.
ghost use Rattle.std.specs.Prelude.{◌≡◌, ◌≢◌, true, false, None, Some, Option, option_map, is_some};
ghost use Rattle.std.specs.Option.{option_copied};
ghost use Rattle.tokei_table_row.specs.Bytes.{begins};
ghost use Rattle.tokei_table_row.specs.RowOf.{pair_of, pairs_of, tokens_of, row_of};
ghost use Rattle.tokei_parts.specs.Items.{Block};
ghost use Rattle.tokei_parts.specs.Choice.{opened, any_begins, is_escape, has_pair, met_in_comment};
ghost use Rattle.tokei_parts.specs.Choice.{choice_in_string, choice_in_comment, choice};
ghost use Rattle.tokei_parts.specs.PlainOpenings.{openings};
ghost use Rattle.tokei_parts.specs.SeenChoices.{choice_of, mode_of};

use crate::items::{Enclosure, ItemKind};
use crate::matchers::LanguageMatchers;
use tokei_table_row::Syntax;

/// The choice at a place.
#[derive(Clone, Copy)]
pub enum Choice<'a> {
    /// The closer of the innermost item that encloses the place.
    Closes,
    /// A backslash and the byte behind it.
    Escapes,
    /// The opening of a child.
    ChildOpens,
    /// The opener of a string literal or a comment.
    Opens(ItemKind, &'a (String, String)),
    /// An opener that stands for nothing inside a comment.
    PassesOver(&'a (String, String)),
    /// A line comment, which covers the rest of its line.
    BeginsLineComment,
    /// A byte that stands for itself.
    TakesByte,
}

/// Whether the token stands at the front of the text. One to three bytes, as most tokens have, are
/// compared in place, and of a longer one the first two are first.
#[inline(always)]
pub fn stands(token: &[u8], text: &[u8]) -> bool
    ensures { result ≡ begins token.now text.now }
{
    match (token, text) {
        ([first, ..], [byte, ..]) if *first != *byte => false,
        ([_], [_, ..]) => true,
        ([_, second, ..], [_, byte, ..]) if *second != *byte => false,
        ([_, _], [_, _, ..]) => true,
        ([_, _, third], [_, _, byte, ..]) => *third == *byte,
        _ => text.starts_with(token),
    }
}

/// The same.
#[inline(always)]
pub fn begins(token: &str, text: &[u8]) -> bool
    ensures { result ≡ begins token.now text.now }
{
    stands(token.as_bytes(), text)
}

/// The first pair whose opener stands at the front of the text.
#[inline(always)]
fn opened<'a>(pairs: &'a [(String, String)], text: &[u8]) -> Option<&'a (String, String)>
    ensures { option_map pair_of (option_copied result) ≡ opened (pairs_of pairs.now) text.now }
{
    for pair in pairs {
        if begins(&pair.0, text) {
            return Some(pair);
        }
    }
    None
}

/// Whether the text has another byte than the token where the token ends, so that the token can't
/// stand at its front. Of tokens that begin alike, as a mark behind some blanks, it tells most.
#[inline(always)]
fn ends_otherwise(token: &[u8], text: &[u8]) -> bool
    ensures { result ≡ true → begins token.now text.now ≡ false }
{
    match token {
        [front @ .., last] => match text.get(front.len()) {
            Some(byte) => *byte != *last,
            None => true,
        },
        [] => false,
    }
}

/// Whether some token stands at the front of the text.
pub fn any_begins(tokens: &[String], text: &[u8]) -> bool
    ensures { result ≡ any_begins (tokens_of tokens.now) text.now }
{
    for token in tokens {
        if !ends_otherwise(token.as_bytes(), text) && begins(token, text) {
            return true;
        }
    }
    false
}

/// Whether an escape stands at the front of the text.
#[inline(always)]
fn is_escape(syntax: &Syntax, text: &[u8]) -> bool
    ensures { result ≡ is_escape (row_of syntax.now) text.now }
{
    match text {
        [b'\\', rest @ ..] => begins("\\", rest) || opened(&syntax.quotes, rest).is_some(),
        _ => false,
    }
}

/// Whether the pair is in the list. It stands in no caller's code, since few languages have some.
#[inline(never)]
fn has_pair(pairs: &[(String, String)], pair: &(String, String)) -> bool
    ensures { result ≡ has_pair (pairs_of pairs.now) (pair_of pair.now) }
{
    for other in pairs {
        if other.0 == pair.0 && other.1 == pair.1 {
            return true;
        }
    }
    false
}

/// The choice for a multi-line opener that is met inside a comment.
#[inline(always)]
fn met_in_comment<'a>(syntax: &Syntax, pair: &'a (String, String)) -> Choice<'a>
    ensures choice { (block : Option Block)
        → choice_of block result ≡ met_in_comment (row_of syntax.now) (pair_of pair.now) }
    ensures no_child { result ≢ Choice.ChildOpens }
{
    if syntax.nested || has_pair(&syntax.nested_comments, pair) {
        Choice::Opens(ItemKind::MultiLineComment, pair)
    } else {
        Choice::PassesOver(pair)
    }
}

#[inline(always)]
fn in_string<'a>(syntax: &Syntax, verbatim: bool, closer: &[u8], text: &[u8]) -> Choice<'a>
    ensures choice { (block : Option Block)
        → choice_of block result
        ≡ choice_in_string (row_of syntax.now) verbatim closer.now text.now }
    ensures no_child { result ≢ Choice.ChildOpens }
{
    if stands(closer, text) {
        Choice::Closes
    } else if !verbatim && is_escape(syntax, text) {
        Choice::Escapes
    } else {
        Choice::TakesByte
    }
}

#[inline(always)]
fn in_comment<'a>(syntax: &'a Syntax, closer: &[u8], text: &[u8]) -> Choice<'a>
    ensures choice { (block : Option Block)
        → choice_of block result ≡ choice_in_comment (row_of syntax.now) closer.now text.now }
    ensures no_child { result ≢ Choice.ChildOpens }
{
    if is_escape(syntax, text) {
        Choice::Escapes
    } else if stands(closer, text) {
        Choice::Closes
    } else if let Some(pair) = opened(&syntax.multi_line_comments, text) {
        met_in_comment(syntax, pair)
    } else if let Some(pair) = opened(&syntax.nested_comments, text) {
        Choice::Opens(ItemKind::MultiLineComment, pair)
    } else {
        Choice::TakesByte
    }
}

/// The first choice that fits at the front of the text in plain text; `opens` says whether a child
/// can open there.
#[tactic(auto, unfolding(crate::specs::Choice::choice))]
#[inline(always)]
pub fn choose_in_plain<'t>(
    syntax: &Syntax,
    matchers: &LanguageMatchers<'t>,
    opens: bool,
    text: &[u8],
) -> Choice<'t>
    requires matched { matchers.now.openings ≡ openings (row_of syntax.now) }
    ensures choice { (block : Option Block) → is_some block ≡ opens
        → choice_of block result ≡ choice (row_of syntax.now) None block text.now }
    ensures child { result ≡ Choice.ChildOpens → opens ≡ true }
{
    if is_escape(syntax, text) {
        Choice::Escapes
    } else if opens {
        Choice::ChildOpens
    } else {
        matchers.opening(text)
    }
}

/// The first choice that fits at the front of the text in the item.
#[tactic(auto, unfolding(crate::specs::Choice::choice))]
#[inline(always)]
pub fn choose_within<'a>(syntax: &'a Syntax, item: Enclosure<'a>, text: &[u8]) -> Choice<'a>
    ensures choice { (block : Option Block)
        → choice_of block result
        ≡ choice (row_of syntax.now) (mode_of (Some item.entry)) block text.now }
    ensures no_child { result ≢ Choice.ChildOpens }
{
    match item.kind {
        ItemKind::DocString | ItemKind::OrdinaryString => in_string(
            syntax,
            false,
            item.closer,
            text,
        ),
        ItemKind::VerbatimString => in_string(syntax, true, item.closer, text),
        ItemKind::MultiLineComment => in_comment(syntax, item.closer, text),
    }
}
