//! What opens in plain text, by the first byte.
ghost use Rattle.std.specs.Prelude.{◌≡◌, ◌≢◌, ℕ, ◌+◌, ◌<◌, List, ◌∷◌, ◌++◌, Option, IfOk, OnOk};
ghost use Rattle.std.specs.Prelude.{false};
ghost use Rattle.tokei_table_row.specs.Bytes.{begins};
ghost use Rattle.tokei_table_row.specs.RowOf.{pairs_of, row_of, tokens_of};
ghost use Rattle.tokei_parts.specs.Items.{Block};
ghost use Rattle.tokei_parts.specs.PlainOpenings.{first_opening, item_openings, line_openings, openings};
ghost use Rattle.tokei_parts.specs.SeenChoices.{choice_of};
ghost use Rattle.tokei_parts.specs.Spans.{opening_of, openings_of, IsSpan, AreSpans};

use crate::choice::{Choice, stands};
use crate::items::ItemKind;
use std::alloc::{AllocError, Global};
use std::marker::Model;
use tokei_table_row::Syntax;

/// The end of a span that goes through to the end of all.
const TO_THE_END: u8 = 255;

/// A token of the table's that opens an item in plain text, or begins a line comment there.
#[derive(Clone, Copy)]
pub(crate) enum Opening<'t> {
    /// It opens an item of that kind, and stands with the item's closer.
    Item(ItemKind, &'t (String, String)),
    /// It begins a line comment.
    LineComment(&'t String),
}

impl<'t> Opening<'t> {
    /// The token.
    #[inline(always)]
    fn token(self) -> &'t [u8]
        ensures { result.now ≡ (opening_of self.entry).pair.opener }
    {
        match self {
            Opening::Item(_, pair) => pair.0.as_bytes(),
            Opening::LineComment(token) => token.as_bytes(),
        }
    }
}

/// Where the openings that begin with a byte stand among all: from the first of them to behind the
/// last.
#[derive(Clone, Copy)]
pub(crate) struct Span {
    pub from: u8,
    pub to: u8,
}

/// The tokens that open something in plain text, by their first bytes. Contracts see it as the list
/// of them.
#[derive(Drop)]
pub struct OpeningTable<'t> {
    /// In the order of choices.
    all: Vec<Opening<'t>>,
    /// For each byte those to look at where it stands first.
    spans: [Span; 256],
}

impl<'t> Model for OpeningTable<'t> {
    ghost use Rattle.std.specs.Prelude.{List};
    ghost use Rattle.tokei_parts.specs.PlainOpenings.{Opening};

    ghost Value = { List Opening };

    ghost use Rattle.tokei_parts.specs.Spans.{openings_of, AreSpans};

    ghost view = { λ t. openings_of t.all.items };

    ghost invariant = { λ t. AreSpans t.all.items t.spans };
}

/// Adds the openers of items of a kind.
fn add_pairs<'t>(
    all: &mut Vec<Opening<'t>>,
    kind: ItemKind,
    pairs: &'t [(String, String)],
) -> Result<(), AllocError>
    ensures { OnOk result (openings_of all.new.items
        ≡ openings_of all.old.items ++ item_openings kind (pairs_of pairs.now)) }
{
    for pair in pairs {
        all.push(Opening::Item(kind, pair))?;
    }
    Ok(())
}

/// Adds the beginnings of line comments.
fn add_lines<'t>(all: &mut Vec<Opening<'t>>, tokens: &'t [String]) -> Result<(), AllocError>
    ensures { OnOk result (openings_of all.new.items
        ≡ openings_of all.old.items ++ line_openings (tokens_of tokens.now)) }
{
    for token in tokens {
        all.push(Opening::LineComment(token))?;
    }
    Ok(())
}

/// What opens in plain text of the language, in the order of choices.
fn openings_of<'t>(alloc: Global, syntax: &'t Syntax) -> Result<Vec<Opening<'t>>, AllocError>
    ensures { IfOk result (λ all. openings_of all.items ≡ openings (row_of syntax.now)) }
{
    let mut all = Vec::with_capacity(alloc, 8)?;
    add_pairs(&mut all, ItemKind::DocString, &syntax.doc_quotes)?;
    add_pairs(&mut all, ItemKind::VerbatimString, &syntax.verbatim_quotes)?;
    add_pairs(&mut all, ItemKind::OrdinaryString, &syntax.quotes)?;
    add_pairs(
        &mut all,
        ItemKind::MultiLineComment,
        &syntax.multi_line_comments,
    )?;
    add_pairs(
        &mut all,
        ItemKind::MultiLineComment,
        &syntax.nested_comments,
    )?;
    add_lines(&mut all, &syntax.line_comment)?;
    Ok(all)
}

/// Whether the token can stand where that byte does: it begins with it, or is empty.
fn can_begin(token: &[u8], byte: u8) -> bool
    ensures { result ≡ false → (t : List ℕ) → begins token.now (byte ∷ t) ≡ false }
{
    match token {
        [] => true,
        [first, ..] => *first == byte,
    }
}

/// Those to look at where the byte stands first. More than a span has room for are all looked at.
fn span_of(all: &[Opening], byte: u8) -> Span
    ensures { IsSpan all.now byte result }
{
    let mut from = 0;
    let mut to = 0;
    for (i, opening) in all.iter().enumerate() {
        if can_begin(opening.token(), byte) {
            if to == 0 {
                from = i;
            }
            to = i + 1;
        }
    }
    if to < 255 {
        Span {
            from: from as u8,
            to: to as u8,
        }
    } else {
        Span {
            from: 0,
            to: TO_THE_END,
        }
    }
}

/// For each byte all of them.
fn whole_spans(all: &[Opening]) -> [Span; 256]
    ensures { AreSpans all.now result }
{
    [Span {
        from: 0,
        to: TO_THE_END,
    }; 256]
}

/// Notes those to look at where the byte stands first, if that hasn't been done.
fn add_span(spans: &mut [Span; 256], all: &[Opening], byte: u8)
    requires { AreSpans all.now spans.old }
    ensures { AreSpans all.now spans.new }
{
    let place = usize::from(byte);
    if spans[place].to == TO_THE_END {
        spans[place] = span_of(all, byte);
    }
}

/// For each byte those to look at where it stands first. They are all of them where no token begins
/// with it, and no escape, since nothing asks there.
fn spans_of(all: &[Opening]) -> [Span; 256]
    ensures { AreSpans all.now result }
{
    let mut spans = whole_spans(all);
    add_span(&mut spans, all, b'\\');
    for opening in all {
        match opening.token() {
            [] => {}
            [first, ..] => add_span(&mut spans, all, *first),
        }
    }
    spans
}

/// The choice by the first of them whose token stands at the front of the text.
#[inline(always)]
fn first_standing<'t>(openings: &[Opening<'t>], text: &[u8]) -> Choice<'t>
    ensures choice { (block : Option Block)
        → choice_of block result ≡ first_opening (openings_of openings.now) text.now }
    ensures no_child { result ≢ Choice.ChildOpens }
{
    for opening in openings {
        if stands(opening.token(), text) {
            return match *opening {
                Opening::Item(kind, pair) => Choice::Opens(kind, pair),
                Opening::LineComment(_) => Choice::BeginsLineComment,
            };
        }
    }
    Choice::TakesByte
}

impl<'t> OpeningTable<'t> {
    /// The table of a language. It fails where memory runs out.
    pub fn new(alloc: Global, syntax: &'t Syntax) -> Result<OpeningTable<'t>, AllocError>
        ensures { IfOk result (λ t. t ≡ openings (row_of syntax.now)) }
    {
        let all = openings_of(alloc, syntax)?;
        let spans = spans_of(&all);
        Ok(OpeningTable { all, spans })
    }

    /// The choice at the front of the text in plain text where no child opens and no escape stands.
    #[inline(always)]
    pub fn opening(&self, text: &[u8]) -> Choice<'t>
        ensures choice { (block : Option Block)
            → choice_of block result ≡ first_opening self.entry.now text.now }
        ensures no_child { result ≢ Choice.ChildOpens }
    {
        match text {
            [byte, ..] => {
                let span = self.spans[usize::from(*byte)];
                let to = if span.to < TO_THE_END {
                    usize::from(span.to)
                } else {
                    self.all.len()
                };
                first_standing(&self.all[usize::from(span.from)..to], text)
            }
            [] => first_standing(&self.all, text),
        }
    }
}
