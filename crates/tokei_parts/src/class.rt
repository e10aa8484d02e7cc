//! What a part counts as.
ghost use Rattle.std.specs.Prelude.{◌≡◌, ℕ, List, ◌-◌, ◌<◌, ◌≤◌, true};
ghost use Rattle.std.specs.Prelude.{false, None, Some, [], drop, length, slice_index, take};
ghost use Rattle.tokei_table.specs.Bytes.{all_blank, is_blank, trim, trim_start};
ghost use Rattle.tokei_table.specs.RowOf.{pairs_of, row_of, tokens_of};
ghost use Rattle.tokei_parts.specs.Items.{kind_in};
ghost use Rattle.tokei_parts.specs.Class.{encloses, opens_with, class_of, head_of};
ghost use Rattle.tokei_parts.specs.Items.{Mode};
ghost use Rattle.tokei_parts.specs.LineWalk.{item_in, mode_in};
ghost use Rattle.tokei_parts.specs.Class.{in_comment, in_string, in_doc_string, ends_opened};
ghost use Rattle.tokei_parts.specs.Class.{keeps_columns};
ghost use Rattle.tokei_parts.specs.CodeHeads.{BeginsNoComment, HasCodeHead, HasSolid};
ghost use Rattle.tokei_parts.specs.CommentHeads.{HasCommentHead, OpensComment, any_solid_begins, ends_solid};
ghost use Rattle.tokei_parts.specs.CommentHeads.{opens_solid};
ghost use Rattle.tokei_parts.specs.Derivation.{closer_of};
ghost use Rattle.tokei_parts.specs.Modes.{innermost};
ghost use Rattle.tokei_parts.specs.PlainBytes.{BeginsNone};
ghost use Rattle.tokei_parts.specs.ReadingOf.{row_in};
ghost use Rattle.tokei_parts.specs.SeenChoices.{mode_of};
ghost use Rattle.tokei_parts.specs.Seen.{chain_of};

use crate::choice::{any_begins, begins};
use crate::items::{Enclosure, ItemKind, LineItem, kind_of};
use crate::matchers::LanguageMatchers;
use crate::reading::Reading;
use crate::walk::innermost;
use tokei_table_row::Syntax;
use tokei_table_row::ext::{is_blank_text, is_whitespace, trim};
use tokei_table_search::blanks_end;

/// What a line counts as.
#[derive(Clone, Copy, Debug, PartialEq, Eq)]
pub enum Class {
    Blank,
    Code,
    Comment,
}

/// Whether a pair opens at the front of the text and closes at its end.
fn encloses(pairs: &[(String, String)], text: &[u8]) -> bool
    ensures { result ≡ encloses (pairs_of pairs.now) text.now }
{
    for pair in pairs {
        if begins(&pair.0, text) && text.ends_with(pair.1.as_bytes()) {
            return true;
        }
    }
    false
}

/// Whether a pair with this closer opens at the front of the text.
fn opens_with(pairs: &[(String, String)], text: &[u8], closer: &[u8]) -> bool
    ensures { result ≡ opens_with (pairs_of pairs.now) text.now closer.now }
{
    for pair in pairs {
        if begins(&pair.0, text) && pair.1.as_bytes() == closer {
            return true;
        }
    }
    false
}

/// Whether an item of that kind is a comment.
#[inline(always)]
fn is_comment(kind: Option<ItemKind>) -> bool
    ensures { (m : Mode) → kind_in m ≡ kind → result ≡ in_comment m }
{
    match kind {
        Some(kind) => kind == ItemKind::MultiLineComment,
        None => false,
    }
}

/// Whether an item of that kind is a string.
#[inline(always)]
fn is_string(kind: Option<ItemKind>) -> bool
    ensures { (m : Mode) → kind_in m ≡ kind → result ≡ in_string m }
{
    match kind {
        Some(kind) => kind != ItemKind::MultiLineComment,
        None => false,
    }
}

/// Whether an item of that kind is a doc string.
#[inline(always)]
fn is_doc_string(kind: Option<ItemKind>) -> bool
    ensures { (m : Mode) → kind_in m ≡ kind → result ≡ in_doc_string m }
{
    match kind {
        Some(kind) => kind == ItemKind::DocString,
        None => false,
    }
}

/// Whether a comment encloses the place.
fn in_comment(mode: Option<Enclosure>) -> bool
    ensures { result ≡ in_comment (mode_of mode.entry) }
{
    is_comment(kind_of(mode))
}

/// Whether a string does.
fn in_string(mode: Option<Enclosure>) -> bool
    ensures { result ≡ in_string (mode_of mode.entry) }
{
    is_string(kind_of(mode))
}

/// Whether a doc string does.
fn in_doc_string(mode: Option<Enclosure>) -> bool
    ensures { result ≡ in_doc_string (mode_of mode.entry) }
{
    is_doc_string(kind_of(mode))
}

/// Whether comments are told by their column in the language.
fn keeps_columns(key: &str) -> bool
    ensures { result ≡ keeps_columns key.now }
{
    key == "FortranLegacy" || key == "FortranModern"
}

/// The part without its blanks, which is `trimmed`, or as it stands where columns count.
fn head_of<'t>(syntax: &Syntax, text: &'t [u8], trimmed: &'t [u8]) -> &'t [u8]
    requires { trimmed.now ≡ trim text.now }
    ensures { result.now ≡ head_of (row_of syntax.now) text.now }
{
    if keeps_columns(syntax.key.as_str()) {
        text
    } else {
        trimmed
    }
}

/// Whether the part ends in a comment that a pair at its head could have opened.
fn ends_opened(syntax: &Syntax, head: &[u8], ended: Option<Enclosure>) -> bool
    ensures { result ≡ ends_opened (row_of syntax.now) head.now (mode_of ended.entry) }
{
    match ended {
        Some(enclosure) => {
            enclosure.kind == ItemKind::MultiLineComment
                && (opens_with(&syntax.multi_line_comments, head, enclosure.closer)
                    || opens_with(&syntax.nested_comments, head, enclosure.closer))
        }
        None => false,
    }
}

/// The class of a part that began and ended in these modes; `docs_are_comments` says whether doc
/// strings are treated as comments.
#[tactic(auto, unfolding(crate::specs::Class::class_of))]
#[inline(never)]
pub fn class_of(
    syntax: &Syntax,
    docs_are_comments: bool,
    begun: Option<Enclosure>,
    bytes: &[u8],
    ended: Option<Enclosure>,
) -> Class
    ensures { result ≡ class_of (row_of syntax.now) docs_are_comments
        (record { begun = mode_of begun.entry; bytes = bytes.now; ended = mode_of ended.entry }) }
{
    if begun.is_none() && is_blank_text(bytes) {
        return Class::Blank;
    }
    if syntax.literate || (in_doc_string(ended) && docs_are_comments) {
        return Class::Comment;
    }
    if in_string(ended) {
        return Class::Code;
    }
    if in_comment(begun) || (in_doc_string(begun) && docs_are_comments) {
        return Class::Comment;
    }
    if in_string(begun) {
        return Class::Code;
    }
    let trimmed = trim(bytes);
    let head = head_of(syntax, bytes, trimmed);
    if any_begins(&syntax.line_comment, head)
        || encloses(&syntax.multi_line_comments, trimmed)
        || encloses(&syntax.nested_comments, trimmed)
        || ends_opened(syntax, head, ended)
    {
        return Class::Comment;
    }
    Class::Code
}

/// What the part of the text from `start` to before `stop` is by its front alone, where it begins
/// plain: blank where all its bytes are, and code where neither a comment nor an opener can begin
/// it or stand behind its front blanks, unless the language or the mode at its end says otherwise.
/// Only blanks stand before `solid`.
#[inline(always)]
fn class_by_front(
    matchers: &LanguageMatchers,
    text: &[u8],
    start: usize,
    solid: usize,
    stop: usize,
) -> Option<Class>
    requires order { start ≤ stop }
    requires within { stop ≤ length text.now }
    requires low { start ≤ solid }
    requires solid { (p : ℕ) → start ≤ p → p < solid → is_blank (slice_index text.now p) ≡ true }
    ensures blank { result ≡ Some Class.Blank
        → trim_start (take (stop - start) (drop start text.now)) ≡ [] }
    ensures code { result ≡ Some Class.Code
        → HasCodeHead matchers.now (take (stop - start) (drop start text.now)) }
    ensures solid { result ≡ None
        → all_blank (take (stop - start) (drop start text.now)) ≡ false }
{
    if stop <= solid {
        return Some(Class::Blank);
    }
    let head = blanks_end(text, solid, stop);
    if head == stop {
        return Some(Class::Blank);
    }
    if matchers.begins(text[start]) || matchers.begins(text[head]) {
        return None;
    }
    Some(Class::Code)
}

/// How many bytes before an opener are looked at for one that is no blank.
const NEAR: usize = 4;

/// Whether a byte that is no blank stands in the text from `start` to before `end`, and close to
/// the end, where it mostly does.
#[inline(always)]
fn has_solid(text: &[u8], start: usize, end: usize) -> bool
    requires { end ≤ length text.now }
    ensures { result ≡ true → HasSolid text.now start end }
{
    let least = start.max(end.saturating_sub(NEAR));
    let mut at = end;
    while least < at {
        at -= 1;
        if !is_whitespace(text[at]) {
            return true;
        }
    }
    false
}

/// Whether no comment can begin at the byte.
#[inline(always)]
fn begins_no_comment(matchers: &LanguageMatchers, byte: u8) -> bool
    ensures { result ≡ true → BeginsNoComment matchers.now byte }
{
    !matchers.begins_comment(byte)
}

/// The class of the part of the reading's text from `start` to before `stop`, which began in plain
/// text and ended in the stack's items, as `class_of` has it. It stands in no caller's code, which
/// mostly tells the class by less, and looks up the mode at the end itself, so that the caller's
/// stands in no memory. Where a string opens at the head, `class_of` isn't asked.
#[inline(never)]
fn class_begun_plain(reading: &Reading, start: usize, stop: usize, stack: &[Enclosure]) -> Class
    requires order { start ≤ stop }
    requires within { stop ≤ length reading.now.text.now }
    ensures { result ≡ class_of (row_in reading.now) reading.now.docs_are_comments (record {
      begun = None;
      bytes = take (stop - start) (drop start reading.now.text.now);
      ended = innermost (chain_of stack.now);
    }) }
{
    let text = reading.text;
    let ended = innermost(stack);
    let head = blanks_end(text, start, stop);
    if head < stop
        && !reading.syntax.literate
        && !in_doc_string(ended)
        && begins_no_comment(reading.matchers, text[start])
        && begins_no_comment(reading.matchers, text[head])
    {
        return Class::Code;
    }
    class_of(
        reading.syntax,
        reading.docs_are_comments,
        None,
        &text[start..stop],
        ended,
    )
}

/// The same of a part that began in an item of that kind, of which nothing else counts.
#[inline(never)]
fn class_begun_within(
    reading: &Reading,
    kind: ItemKind,
    start: usize,
    stop: usize,
    stack: &[Enclosure],
) -> Class
    requires order { start ≤ stop }
    requires within { stop ≤ length reading.now.text.now }
    ensures { result ≡ class_of (row_in reading.now) reading.now.docs_are_comments (record {
      begun = Some (record { kind = kind; closer = [] });
      bytes = take (stop - start) (drop start reading.now.text.now);
      ended = innermost (chain_of stack.now);
    }) }
{
    let closer = &reading.text[..0];
    let mode = Some(Enclosure { kind, closer });
    class_of(
        reading.syntax,
        reading.docs_are_comments,
        mode,
        &reading.text[start..stop],
        innermost(stack),
    )
}

/// The class of the part of the reading's text from `start` to before `stop`, which began in an
/// item of that kind, or in plain text, and ended in the stack's items, as `class_of` has it. That
/// is asked only where neither the part's front nor the kinds of the items tell. At no byte before
/// `front` can a choice begin.
#[inline(always)]
pub fn class_by(
    reading: &Reading,
    begun: Option<ItemKind>,
    start: usize,
    front: usize,
    stop: usize,
    stack: &[Enclosure],
) -> Class
    requires low { start ≤ front }
    requires high { front ≤ stop }
    requires within { stop ≤ length reading.now.text.now }
    requires plain { (p : ℕ) → start ≤ p → p < front
        → BeginsNone reading.now.matchers.now (slice_index reading.now.text.now p) }
    ensures { (m : Mode) → kind_in m ≡ begun
        → result ≡ class_of (row_in reading.now) reading.now.docs_are_comments (record {
          begun = m;
          bytes = take (stop - start) (drop start reading.now.text.now);
          ended = innermost (chain_of stack.now);
        }) }
{
    let syntax = reading.syntax;
    let text = reading.text;
    let docs_are_comments = reading.docs_are_comments;
    let ended = innermost(stack);
    match begun {
        None if !syntax.literate && !in_doc_string(ended) && has_solid(text, start, front) => {
            Class::Code
        }
        None => match class_by_front(reading.matchers, text, start, start, stop) {
            Some(Class::Blank) => Class::Blank,
            Some(Class::Code) if !syntax.literate && !in_doc_string(ended) => Class::Code,
            None if !syntax.literate && !docs_are_comments && in_string(ended) => Class::Code,
            None if syntax.literate => Class::Comment,
            Some(Class::Code) if syntax.literate => Class::Comment,
            _ => class_begun_plain(reading, start, stop, stack),
        },
        Some(_) if is_comment(begun) && !in_string(ended) => Class::Comment,
        Some(_) if !is_comment(begun) && !docs_are_comments && !syntax.literate => Class::Code,
        Some(kind) => class_begun_within(reading, kind, start, stop, stack),
    }
}

/// Whether a byte that is no blank stands at the place, before `to`.
#[inline(always)]
fn is_solid_at(text: &[u8], at: usize, to: usize) -> bool
    requires { to ≤ length text.now }
    ensures place { result ≡ true → at < to }
    ensures solid { result ≡ true → is_blank (slice_index text.now at) ≡ false }
{
    at < to && !is_whitespace(text[at])
}

/// The stack of that item alone, or of none.
#[inline(always)]
fn stack_of<'t, 'a>(item: &'t Option<Enclosure<'a>>) -> &'t [Enclosure<'a>]
    ensures { innermost (chain_of result.now) ≡ mode_of item.now }
{
    match item {
        Some(item) => std::slice::from_ref(item),
        None => &[],
    }
}

/// The same of a part whose end an item of that kind with that closer alone encloses, or none. It
/// stands in no caller's code, so that the caller's item stands in no memory but here.
#[inline(never)]
fn class_by_all(
    reading: &Reading,
    begun: Option<ItemKind>,
    start: usize,
    stop: usize,
    kind: Option<ItemKind>,
    closer: &[u8],
) -> Class
    requires order { start ≤ stop }
    requires within { stop ≤ length reading.now.text.now }
    ensures { (m : Mode) → kind_in m ≡ begun
        → result ≡ class_of (row_in reading.now) reading.now.docs_are_comments (record {
          begun = m;
          bytes = take (stop - start) (drop start reading.now.text.now);
          ended = mode_in kind closer.now;
        }) }
{
    let ended = match kind {
        Some(kind) => Some(Enclosure { kind, closer }),
        None => None,
    };
    class_by(reading, begun, start, start, stop, stack_of(&ended))
}

/// Whether the part of the text from `start` to before `stop` ends in that item, a comment, which a
/// pair at the part's head opened.
#[inline(always)]
fn ends_in_own_comment(reading: &Reading, start: usize, stop: usize, ended: LineItem) -> bool
    requires order { start ≤ stop }
    requires within { stop ≤ length reading.now.text.now }
    ensures comment { result ≡ true → in_comment (mode_of (item_in ended.entry)) ≡ true }
    ensures opens { result ≡ true → OpensComment (row_in reading.now)
        (take (stop - start) (drop start reading.now.text.now))
        (closer_of (mode_of (item_in ended.entry))) }
{
    is_comment(ended.kind) && opens_comment(reading.syntax, reading.text, start, stop, ended.closer)
}

/// The same, where most lines are told at once by the kinds of the items, by a solid byte, or by
/// one that begins no comment.
#[inline(always)]
pub fn class_by_item(
    reading: &Reading,
    begun: Option<ItemKind>,
    start: usize,
    front: usize,
    stop: usize,
    ended: LineItem,
) -> Class
    requires low { start ≤ front }
    requires high { front ≤ stop }
    requires within { stop ≤ length reading.now.text.now }
    requires plain { (p : ℕ) → start ≤ p → p < front
        → BeginsNone reading.now.matchers.now (slice_index reading.now.text.now p) }
    ensures { (m : Mode) → kind_in m ≡ begun
        → result ≡ class_of (row_in reading.now) reading.now.docs_are_comments (record {
          begun = m;
          bytes = take (stop - start) (drop start reading.now.text.now);
          ended = mode_of (item_in ended.entry);
        }) }
{
    let literate = reading.syntax.literate;
    match begun {
        None
            if !literate
                && !reading.docs_are_comments
                && is_string(ended.kind)
                && is_solid_at(reading.text, front, stop) => { Class::Code }
        None if !literate && !is_doc_string(ended.kind) && has_solid(reading.text, start, front) =>
            { Class::Code }
        None
            if !literate
                && !is_doc_string(ended.kind)
                && is_solid_at(reading.text, front, stop)
                && begins_no_comment(reading.matchers, reading.text[front]) => { Class::Code }
        None if !literate && ends_in_own_comment(reading, start, stop, ended) => Class::Comment,
        Some(_) if is_comment(begun) && !is_string(ended.kind) => Class::Comment,
        Some(_) if !is_comment(begun) && !reading.docs_are_comments && !literate => Class::Code,
        _ => class_by_all(reading, begun, start, stop, ended.kind, ended.closer),
    }
}

/// The class of each line that begins and ends within the item, as `class_of` has it: its bytes say
/// nothing.
#[tactic(auto, unfolding(crate::specs::Class::class_of))]
#[inline(always)]
pub fn class_within(reading: &Reading, item: Enclosure) -> Class
    ensures { (bytes : List ℕ)
        → result
        ≡ class_of (row_in reading.now) reading.now.docs_are_comments
        (record {
          begun = mode_of (Some item.entry);
          bytes = bytes;
          ended = mode_of (Some item.entry);
        }) }
{
    let is_comment = match item.kind {
        ItemKind::MultiLineComment => true,
        ItemKind::DocString => reading.docs_are_comments,
        ItemKind::VerbatimString | ItemKind::OrdinaryString => false,
    };
    if is_comment || reading.syntax.literate {
        Class::Comment
    } else {
        Class::Code
    }
}

/// The class of a line that no item encloses at either end, as `class_of` has it. It stands in no
/// caller's code, since most lines are told by their fronts, and takes values, so that the caller's
/// stand in no memory.
#[inline(never)]
fn class_of_line(syntax: &Syntax, docs_are_comments: bool, bytes: &[u8]) -> Class
    ensures { result ≡ class_of (row_of syntax.now) docs_are_comments
        (record { begun = None; bytes = bytes.now; ended = None }) }
{
    class_of(syntax, docs_are_comments, None, bytes, None)
}

/// Whether the token's last byte is no blank.
#[inline(always)]
fn ends_solid(token: &[u8]) -> bool
    ensures { result ≡ ends_solid token.now }
{
    match token.split_last() {
        None => false,
        Some((last, _)) => !is_whitespace(*last),
    }
}

/// Whether a token that doesn't end in a blank stands at the front of the text.
#[inline(always)]
fn any_solid_begins(tokens: &[String], text: &[u8]) -> bool
    ensures { result ≡ any_solid_begins (tokens_of tokens.now) text.now }
{
    for token in tokens {
        if ends_solid(token.as_bytes()) && begins(token, text) {
            return true;
        }
    }
    false
}

/// Whether a line comment stands at the head of the part of the text from `start` to before `stop`,
/// and doesn't end in a blank, by which a trimmed part can end too early for it. Only blanks stand
/// before `solid`.
#[inline(never)]
fn begins_comment(syntax: &Syntax, text: &[u8], start: usize, solid: usize, stop: usize) -> bool
    requires order { start ≤ stop }
    requires within { stop ≤ length text.now }
    requires low { start ≤ solid }
    requires solid { (p : ℕ) → start ≤ p → p < solid → is_blank (slice_index text.now p) ≡ true }
    ensures { result ≡ true
        → HasCommentHead (row_of syntax.now) (take (stop - start) (drop start text.now)) }
{
    if stop <= solid {
        return false;
    }
    let head = blanks_end(text, solid, stop);
    if start < head && keeps_columns(syntax.key.as_str()) {
        return false;
    }
    any_solid_begins(&syntax.line_comment, &text[head..stop])
}

/// Whether a pair with this closer opens at the front of the text, by an opener that doesn't end in
/// a blank.
#[inline(always)]
fn opens_solid(pairs: &[(String, String)], text: &[u8], closer: &[u8]) -> bool
    ensures { result ≡ opens_solid (pairs_of pairs.now) text.now closer.now }
{
    for pair in pairs {
        if ends_solid(pair.0.as_bytes()) && begins(&pair.0, text) && pair.1.as_bytes() == closer {
            return true;
        }
    }
    false
}

/// Whether a comment with this closer opens at the head of the part of the text from `start` to
/// before `stop`, by an opener that doesn't end in a blank.
#[inline(never)]
fn opens_comment(syntax: &Syntax, text: &[u8], start: usize, stop: usize, closer: &[u8]) -> bool
    requires order { start ≤ stop }
    requires within { stop ≤ length text.now }
    ensures { result ≡ true → OpensComment (row_of syntax.now)
        (take (stop - start) (drop start text.now)) closer.now }
{
    let head = blanks_end(text, start, stop);
    if start < head && keeps_columns(syntax.key.as_str()) {
        return false;
    }
    let behind = &text[head..stop];
    opens_solid(&syntax.multi_line_comments, behind, closer)
        || opens_solid(&syntax.nested_comments, behind, closer)
}

/// Whether a line comment that doesn't end in a blank stands at the place of the text, in a
/// language whose comments aren't told by their columns.
pub fn line_comment_stands(syntax: &Syntax, text: &[u8], at: usize) -> bool
    requires { at ≤ length text.now }
    ensures line { result ≡ true
        → any_solid_begins (row_of syntax.now).line_comment (drop at text.now) ≡ true }
    ensures columns { result ≡ true → keeps_columns (row_of syntax.now).key ≡ false }
{
    !keeps_columns(syntax.key.as_str()) && any_solid_begins(&syntax.line_comment, &text[at..])
}

/// The class of the line of a text from `start` to before `stop`, in the reading's language, which
/// no item encloses at either end, as `class_of` has it. Only blanks stand before `solid`.
#[inline(always)]
pub fn class_of_plain(
    reading: &Reading,
    text: &[u8],
    start: usize,
    solid: usize,
    stop: usize,
) -> Class
    requires order { start ≤ stop }
    requires within { stop ≤ length text.now }
    requires low { start ≤ solid }
    requires solid { (p : ℕ) → start ≤ p → p < solid → is_blank (slice_index text.now p) ≡ true }
    ensures { result ≡ class_of (row_in reading.now) reading.now.docs_are_comments (record {
      begun = None;
      bytes = take (stop - start) (drop start text.now);
      ended = None;
    }) }
{
    let syntax = reading.syntax;
    match class_by_front(reading.matchers, text, start, solid, stop) {
        Some(Class::Blank) => Class::Blank,
        Some(Class::Code) if syntax.literate => Class::Comment,
        Some(Class::Code) => Class::Code,
        _ if begins_comment(syntax, text, start, solid, stop) => Class::Comment,
        _ => class_of_line(syntax, reading.docs_are_comments, &text[start..stop]),
    }
}
