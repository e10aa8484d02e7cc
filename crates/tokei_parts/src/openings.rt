//! The children that open in a text.
ghost use Rattle.std.specs.Prelude.{◌≡◌, ◌-◌, ◌<◌, ◌≤◌, length, option_map};
ghost use Rattle.tokei_embedding.specs.NextOpenings.{OpensNoElement};
ghost use Rattle.tokei_parts.specs.NamedLanguages.{by_word, by_mime, by_name};
ghost use Rattle.tokei_table.specs.Families.{fallback};
ghost use Rattle.tokei_parts.specs.MarkdownChildren.{known_piece, markdown_block};
ghost use Rattle.tokei_parts.specs.HtmlChildren.{by_value, usual_key, element_language, element_at, html_block};
ghost use Rattle.tokei_parts.specs.RustChildren.{rust_block};
ghost use Rattle.tokei_parts.specs.LinguaFrancaChildren.{target_language, franca_block};
ghost use Rattle.tokei_parts.specs.Places.{Childless, IsAt, StopsAt, block_here, part_to, text_from, text_of};
ghost use Rattle.tokei_parts.specs.Seen.{block_of};

use crate::line_ends::line_stop;
use crate::place::Place;
use crate::reading::Reading;
use tokei_embedding::{BlockSearch, Tag, fence_at, next_doc, next_fence, next_target, target_at};
use tokei_table::{LanguageTable, LanguageType};
use tokei_table_row::ext::{trim, trim_first_and_last_line_of_whitespace};
use tokei_table_rules::family::Family;

/// A child that opens at a place of a text.
#[derive(Clone, Copy)]
pub struct Block<'a> {
    pub language: LanguageType,
    /// The child's text, or the lines of a doc comment that say it.
    pub contents: &'a [u8],
    /// Whether the contents are lines of a doc comment, each with its mark.
    pub is_doc: bool,
    /// How many bytes of the parent's text the child takes.
    pub size: usize,
    /// How many lines of code and of comments the child adds to its parent.
    pub code: usize,
    pub comments: usize,
}

impl<'a> Block<'a> {
    /// An empty child at the front of the reading's text, of its language.
    pub fn empty(reading: &Reading<'a, '_>) -> Block<'a> {
        Block {
            language: reading.language,
            contents: &reading.text[..0],
            is_doc: false,
            size: 0,
            code: 0,
            comments: 0,
        }
    }
}

fn by_word(table: &LanguageTable, word: &[u8]) -> Option<LanguageType>
    ensures { result ≡ by_word table.now word.now }
{
    match std::str::from_utf8(word) {
        Ok(word) => LanguageType::from_str(table, word),
        Err(_) => None,
    }
}

fn by_mime(table: &LanguageTable, mime: &[u8]) -> Option<LanguageType>
    ensures { result ≡ by_mime table.now mime.now }
{
    match std::str::from_utf8(mime) {
        Ok(mime) => LanguageType::from_mime(table, mime),
        Err(_) => None,
    }
}

fn by_name(table: &LanguageTable, name: &[u8]) -> Option<LanguageType>
    ensures { result ≡ by_name table.now name.now }
{
    match std::str::from_utf8(name) {
        Ok(name) => LanguageType::from_name(table, name),
        Err(_) => None,
    }
}

/// The language that a family falls back on.
fn fallback(table: &LanguageTable, parent: LanguageType, key: &str) -> LanguageType
    ensures { result ≡ fallback table.now parent key.now }
{
    LanguageType::from_name(table, key).unwrap_or(parent)
}

/// The language of the first piece between commas that names one.
fn known_piece(table: &LanguageTable, info: &[u8]) -> Option<LanguageType>
    ensures { result ≡ known_piece table.now info.now }
{
    let mut begun = 0;
    for (i, byte) in info.iter().enumerate() {
        if *byte == b',' {
            let known = by_word(table, &info[begun..i]);
            if known.is_some() {
                return known;
            }
            begun = i + 1;
        }
    }
    by_word(table, &info[begun..])
}

/// The child that a fence of Markdown opens at the place, whose part goes to `to`.
fn markdown_block<'a>(place: &Place<'_, 'a, '_>, to: usize) -> Option<Block<'a>>
    requires order { place.now.start ≤ place.now.at }
    requires inside { place.now.at < to }
    requires ends { to ≤ length (text_of place.now) }
    ensures { option_map block_of result ≡ markdown_block place.now.reading.now.table.now
        (part_to place.now to) (place.now.at - place.now.start) (text_from place.now place.now.at) }
{
    let reading = place.reading;
    let fence = fence_at(reading.text, place.start, place.at, to)?;
    let language = known_piece(reading.table, fence.info)?;
    Some(Block {
        language,
        contents: trim(fence.contents),
        is_doc: false,
        size: fence.size,
        code: 0,
        comments: if fence.closed { 2 } else { 1 },
    })
}

fn by_value(table: &LanguageTable, tag: Tag, value: &[u8]) -> Option<LanguageType>
    ensures { result ≡ by_value table.now tag value.now }
{
    match tag {
        Tag::Script => by_mime(table, trim(value)),
        Tag::Style | Tag::Template => by_word(table, trim(value)),
    }
}

fn usual_key(tag: Tag) -> &'static str
    ensures { result.now ≡ usual_key tag }
{
    match tag {
        Tag::Script => "JavaScript",
        Tag::Style => "Css",
        Tag::Template => "Html",
    }
}

fn element_language(
    table: &LanguageTable,
    parent: LanguageType,
    tag: Tag,
    value: Option<&[u8]>,
) -> LanguageType
    ensures { result ≡ element_language table.now parent tag (option_map (λ v. v.now) value.entry) }
{
    if let Some(value) = value {
        if let Some(language) = by_value(table, tag, value) {
            return language;
        }
    }
    fallback(table, parent, usual_key(tag))
}

/// The child that an element with the tag opens at the place, whose part goes to `to`.
fn element_at<'a>(
    place: &Place<'_, 'a, '_>,
    search: &mut BlockSearch<'a>,
    tag: Tag,
    to: usize,
) -> Option<Block<'a>>
    requires order { place.now.start ≤ place.now.at }
    requires inside { place.now.at < to }
    requires ends { to ≤ length (text_of place.now) }
    requires searched { search.old ≡ text_of place.now }
    ensures same { search.new ≡ search.old }
    ensures block { option_map block_of result
        ≡ element_at place.now.reading.now.table.now place.now.reading.now.language tag
        (part_to place.now to) (place.now.at - place.now.start) (text_from place.now place.now.at) }
{
    let reading = place.reading;
    let element = search.tag_at(tag, place.start, place.at, to)?;
    Some(Block {
        language: element_language(reading.table, reading.language, tag, element.value),
        contents: trim_first_and_last_line_of_whitespace(element.contents),
        is_doc: false,
        size: element.size,
        code: 1,
        comments: 0,
    })
}

/// The child that an element opens at the place, whose part goes to `to`.
fn html_block<'a>(
    place: &Place<'_, 'a, '_>,
    search: &mut BlockSearch<'a>,
    to: usize,
) -> Option<Block<'a>>
    requires order { place.now.start ≤ place.now.at }
    requires inside { place.now.at < to }
    requires ends { to ≤ length (text_of place.now) }
    requires searched { search.old ≡ text_of place.now }
    ensures same { search.new ≡ search.old }
    ensures block { option_map block_of result
        ≡ html_block place.now.reading.now.table.now place.now.reading.now.language
        (part_to place.now to) (place.now.at - place.now.start) (text_from place.now place.now.at) }
{
    if let Some(block) = element_at(place, search, Tag::Script, to) {
        return Some(block);
    }
    if let Some(block) = element_at(place, search, Tag::Style, to) {
        return Some(block);
    }
    element_at(place, search, Tag::Template, to)
}

/// The child that a doc comment opens at the place.
fn rust_block<'a>(place: &Place<'_, 'a, '_>, search: &mut BlockSearch<'a>) -> Option<Block<'a>>
    requires inside { place.now.at < length (text_of place.now) }
    requires searched { search.old ≡ text_of place.now }
    ensures same { search.new ≡ search.old }
    ensures block { option_map block_of result
        ≡ rust_block place.now.reading.now.table.now place.now.reading.now.language
        (text_from place.now place.now.at) }
{
    let reading = place.reading;
    let size = search.doc_at(place.at)?;
    let rest = &reading.text[place.at..];
    let language = match reading.markdown {
        Some(language) => *language,
        None => reading.language,
    };
    Some(Block {
        language,
        contents: &rest[..size],
        is_doc: true,
        size,
        code: 0,
        comments: 0,
    })
}

fn target_language(
    table: &LanguageTable,
    parent: LanguageType,
    target: Option<&[u8]>,
) -> LanguageType
    ensures { result ≡ target_language table.now parent (option_map (λ w. w.now) target.entry) }
{
    match target {
        None => parent,
        Some(word) => {
            let name = if word == b"CCpp".as_slice() {
                b"C".as_slice()
            } else {
                word
            };
            by_name(table, name).unwrap_or(parent)
        }
    }
}

/// The child that a block of the target language opens at the place, whose part goes to `to`.
fn franca_block<'a>(
    place: &Place<'_, 'a, '_>,
    search: &mut BlockSearch<'a>,
    to: usize,
) -> Option<Block<'a>>
    requires order { place.now.start ≤ place.now.at }
    requires inside { place.now.at < to }
    requires ends { to ≤ length (text_of place.now) }
    requires searched { search.old ≡ text_of place.now }
    ensures same { search.new ≡ search.old }
    ensures block { option_map block_of result
        ≡ franca_block place.now.reading.now.table.now place.now.reading.now.language
        (text_of place.now) (part_to place.now to) (place.now.at - place.now.start)
        (text_from place.now place.now.at) }
{
    let reading = place.reading;
    let block = target_at(reading.text, place.start, place.at, to)?;
    Some(Block {
        language: target_language(reading.table, reading.language, search.target()),
        contents: trim_first_and_last_line_of_whitespace(block.contents),
        is_doc: false,
        size: block.size,
        code: 0,
        comments: 0,
    })
}

/// Where the next element can open at the place `at` or behind it, in the part `text[start..to]`,
/// or the part's end.
fn next_element(search: &mut BlockSearch, start: usize, at: usize, to: usize) -> usize
    requires order { start ≤ at }
    requires inside { at ≤ to }
    requires ends { to ≤ length search.old }
    ensures high { result ≤ to }
    ensures none { (tag : Tag) → OpensNoElement tag search.old start to at result }
    ensures same { search.new ≡ search.old }
{
    let script = search.next_tag(Tag::Script, start, at, to);
    let style = search.next_tag(Tag::Style, start, at, to);
    let template = search.next_tag(Tag::Template, start, at, to);
    script.min(style).min(template)
}

/// From the place to before the answer no child opens in its part, which goes to `to`. `child` is
/// such an answer for an earlier place of the part, or that place: while it lies ahead, or where
/// nothing is to be skipped, nothing is searched anew.
#[inline(always)]
pub fn next_child<'a>(
    place: &Place<'_, 'a, '_>,
    search: &mut BlockSearch<'a>,
    to: usize,
    child: usize,
) -> usize
    requires here { IsAt place.now }
    requires inside { place.now.at < to }
    requires line { StopsAt place.now to }
    requires childless { Childless place.now child }
    requires searched { search.old ≡ text_of place.now }
    ensures same { search.new ≡ search.old }
    ensures childless { Childless place.now result }
{
    let reading = place.reading;
    if place.at < child || !reading.skips {
        return child;
    }
    if reading.levels < 1 {
        return to;
    }
    match reading.family {
        Family::Plain | Family::Jupyter => to,
        Family::Markdown => next_fence(reading.text, place.start, place.at, to),
        Family::HtmlLike => next_element(search, place.start, place.at, to),
        Family::Rust => next_doc(reading.text, place.at, to),
        Family::LinguaFranca => next_target(reading.text, place.start, place.at, to),
    }
}

/// The child that opens at the place.
pub fn block_at<'a>(place: &Place<'_, 'a, '_>, search: &mut BlockSearch<'a>) -> Option<Block<'a>>
    requires here { IsAt place.now }
    requires some { place.now.at < place.now.end }
    requires searched { search.old ≡ text_of place.now }
    ensures same { search.new ≡ search.old }
    ensures block { option_map block_of result ≡ block_here place.now }
{
    let reading = place.reading;
    if reading.levels == 0 {
        return None;
    }
    let to = line_stop(reading.text, place.end);
    match reading.family {
        Family::Plain | Family::Jupyter => None,
        Family::Markdown => markdown_block(place, to),
        Family::HtmlLike => html_block(place, search, to),
        Family::Rust => rust_block(place, search),
        Family::LinguaFranca => franca_block(place, search, to),
    }
}
