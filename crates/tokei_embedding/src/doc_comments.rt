//! Rust's doc comments.
ghost use Rattle.std.specs.Prelude.{◌≡◌, ◌≤◌, ◌<◌, IfOk, length, option_map};
ghost use Rattle.tokei_embedding.specs.DocComments.{first_line, front_mark, marked_len, lines_of, doc_text};

use std::alloc::{AllocError, Global};
use tokei_bytes::first_of_one;
use tokei_table_row::ext::trim_start;

/// The text through its first newline.
pub fn first_line(text: &[u8]) -> &[u8]
    ensures value { result.now ≡ first_line text.now }
    ensures within { length result.now ≤ length text.now }
    ensures some { 0 < length text.now → 0 < length result.now }
{
    let newline = first_of_one(b'\n', text, 0, text.len());
    if newline < text.len() {
        &text[..newline + 1]
    } else {
        text
    }
}

/// The mark of comments on what follows.
pub(crate) const OUTER_MARK: &[u8] = b"///";

/// The mark of comments on what they stand in.
pub(crate) const INNER_MARK: &[u8] = b"//!";

/// The mark at the front.
pub(crate) fn front_mark(text: &[u8]) -> Option<&'static [u8]>
    ensures { option_map (λ m. m.now) result ≡ front_mark text.now }
{
    if text.starts_with(OUTER_MARK) {
        return Some(OUTER_MARK);
    }
    if text.starts_with(INNER_MARK) {
        return Some(INNER_MARK);
    }
    None
}

/// The length of the lines before the first one that doesn't begin with the mark behind its front
/// blanks.
pub(crate) fn marked_len(mark: &[u8], text: &[u8]) -> usize
    ensures value { result ≡ marked_len mark.now (lines_of text.now) }
    ensures within { result ≤ length text.now }
{
    let mut at = 0;
    while at < text.len() {
        let line = first_line(&text[at..]);
        if !trim_start(line).starts_with(mark) {
            return at;
        }
        at += line.len();
    }
    at
}

/// What a block of doc comments says: its lines joined, each without its front blanks and its mark.
/// Memory is taken once, as much as the block has bytes. Fails where it is refused.
pub fn doc_text(alloc: Global, block: &[u8]) -> Result<Vec<u8>, AllocError>
    ensures { IfOk result (λ v. v.items ≡ doc_text block.now) }
{
    let mut said = Vec::with_capacity(alloc, block.len())?;
    let mut rest = block;
    while !rest.is_empty() {
        let line = first_line(rest);
        let solid = trim_start(line);
        said.extend_from_slice(&solid[solid.len().min(3)..])?;
        rest = &rest[line.len()..];
    }
    Ok(said)
}
