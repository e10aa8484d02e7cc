//! Where a child opens in a part of a line, and where what it holds ends: the fences of Markdown,
//! the script, style and template elements of HTML, the doc comments of Rust and the blocks of
//! Lingua Franca. It knows no table of languages. A part is a range of a text's bytes, and every
//! place counts bytes.
//!
//! Openings and closings are also there as captures: bytes of the caller's text, and where they
//! stand in it. No count uses these.
#![tactic(auto)]

mod blank_search;
mod block_search;
mod captures;
mod doc_comments;
mod doc_search;
mod fences;
mod first_search;
mod html_like;
mod last_search;
pub mod laws;
mod mark_search;
mod next_openings;
mod opening_search;
mod openings;
mod searches;
mod spans;
mod tag_search;
mod tag_searches;
mod tags;
mod target_blocks;

pub use block_search::BlockSearch;
pub use captures::{Capture, SimpleCapture};
pub use doc_comments::{doc_text, first_line};
pub use fences::{FenceAt, closing_len, fence_at, first_fence, info_len};
pub use html_like::HtmlLike;
pub use next_openings::{next_doc, next_fence, next_target};
pub use opening_search::first_opening;
pub use openings::{
    end_lf, end_markdown, end_script, end_style, end_template, start_lf, start_markdown,
    start_script, start_style, start_template,
};
pub use searches::first_of;
pub use spans::Span;
pub use tags::{Opening, Tag, TagAt, closer_of};
pub use target_blocks::{TargetAt, target_at};
