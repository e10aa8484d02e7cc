//! Texts made of pieces: children inside one another past the last level, notebooks as deep as JSON
//! may nest and deeper, texts past two mebibytes, and many plain lines, in which a reading that
//! skips takes no step.
ghost use Rattle.std.specs.Prelude.{◌<◌, length};

use crate::rows::{Row, Texts, first_wrong};
use crate::verdict::all_right;
use std::alloc::{AllocError, Global};
use test_answers::bench_json;
use test_texts::every_call::agreed;
use tokei_count::{Counter, count_plain_counted};
use tokei_options::CountConfig;
use tokei_stats::CodeStats;
use tokei_table::LanguageType;

/// Blank, code and comment lines.
type Lines = (usize, usize, usize);

/// Pieces, and how many times each stands.
type Pieces = &'static [(&'static str, usize)];

/// The language of a text's children, how many lie in one another, and the own lines of the
/// innermost one, or those of the text where it has none. None holds two, and those between have no
/// lines.
type Inside = (&'static str, usize, Lines);

/// A text, and what every call has to tell of it: its own lines, its children, and the steps of the
/// reading that skips and of the plain one, where they are asked.
pub type Made = (Pieces, Lines, Inside, (Option<u128>, Option<u128>));

/// The pieces as one text.
pub fn text_of(alloc: Global, pieces: &[(&str, usize)]) -> Result<String, AllocError> {
    let mut text = String::new(alloc);
    for (piece, times) in pieces {
        for _ in 0..*times {
            text.push_str(piece)?;
        }
    }
    Ok(text)
}

/// Whether a text has these own lines, and these children, of the language.
fn are_nested(stats: &CodeStats, own: Lines, language: LanguageType, inside: &Inside) -> bool {
    let (_, depth, innermost) = *inside;
    let mut here = stats;
    let mut lines = own;
    for _ in 0..depth {
        if own_of(here) != lines || here.blobs.len() != 1 {
            return false;
        }
        match here.blobs.get(&language) {
            Some(child) => here = child,
            None => return false,
        }
        lines = (0, 0, 0);
    }
    own_of(here) == innermost && here.blobs.is_empty()
}

/// The text's own lines.
fn own_of(stats: &CodeStats) -> Lines {
    (stats.blanks, stats.code, stats.comments)
}

/// The steps that the plain reading takes.
fn plain_steps(
    alloc: Global,
    counter: &Counter,
    language: LanguageType,
    text: &[u8],
    config: &CountConfig,
) -> Option<u128>
    requires { language < length counter.now }
{
    match count_plain_counted(alloc, counter, language, text, config) {
        Ok((_, steps)) => Some(steps),
        Err(_) => None,
    }
}

/// Whether every call tells of a text what it has to.
fn is_told(
    alloc: Global,
    counter: &Counter,
    language: LanguageType,
    config: &CountConfig,
    made: &Made,
) -> bool
    requires { language < length counter.now }
{
    let (pieces, own, inside, (skipping, plain)) = made;
    let Ok(text) = text_of(alloc, pieces) else {
        return false;
    };
    let text = text.as_bytes();
    let Some(child) = LanguageType::from_name(counter.table(), inside.0) else {
        return false;
    };
    if plain.is_some() && *plain != plain_steps(alloc, counter, language, text, config) {
        return false;
    }
    match agreed(alloc, counter, language, text, config) {
        Ok(Some((stats, steps))) => {
            are_nested(&stats, *own, child, inside) && skipping.unwrap_or(steps) == steps
        }
        Ok(None) | Err(_) => false,
    }
}

/// The place of the first text of which something else is told, if there is such a text.
pub fn first_other(
    alloc: Global,
    counter: &Counter,
    language: LanguageType,
    config: &CountConfig,
    texts: &[Made],
) -> Option<usize>
    requires { language < length counter.now }
{
    for (at, made) in texts.iter().enumerate() {
        if !is_told(alloc, counter, language, config, made) {
            return Some(at);
        }
    }
    None
}

/// Children inside one another past the last level.
const OPENINGS: &[Made] = &[
    (
        &[("{=\n", 50)],
        (0, 0, 0),
        ("LinguaFranca", 50, (1, 0, 0)),
        (Some(50), None),
    ),
    (
        &[("{=\n", 51)],
        (0, 0, 0),
        ("LinguaFranca", 50, (0, 1, 0)),
        (Some(53), None),
    ),
    (
        &[("{=\n", 60)],
        (0, 0, 0),
        ("LinguaFranca", 50, (0, 10, 0)),
        (Some(80), None),
    ),
    (
        &[("{=\n", 200)],
        (0, 0, 0),
        ("LinguaFranca", 50, (0, 150, 0)),
        (Some(500), None),
    ),
];

/// What stands before the kernel of a notebook of one cell.
const CELL: &str =
    r#"{"cells":[{"cell_type":"code","source":["x"]}],"metadata":{"language_info":0,"kernelspec":"#;

/// Notebooks whose kernel is so many lists inside one another. The notebook and its metadata are
/// two levels of the 127 that JSON may nest.
const NOTEBOOKS: &[Made] = &[
    (
        &[(CELL, 1), ("[", 125), ("]", 125), ("}}", 1)],
        (0, 0, 0),
        ("Python", 1, (0, 1, 0)),
        (None, None),
    ),
    (
        &[(CELL, 1), ("[", 126), ("]", 126), ("}}", 1)],
        (0, 0, 0),
        ("Python", 0, (0, 0, 0)),
        (None, None),
    ),
];

/// How often a piece of ten bytes fills two mebibytes.
const COPIES: usize = 209_716;

/// Lines of C that each hold a comment, so that all of them are walked.
const COMMENTED: &[Made] = &[(
    &[("x /* a */\n", COPIES)],
    (0, COPIES, 0),
    ("C", 0, (0, COPIES, 0)),
    (Some(1_677_728), None),
)];

/// A fence of Markdown that holds lines of Rust, and is two comments around them.
const FENCED: &[Made] = &[(
    &[("```rust\n", 1), ("fn a() {}\n", COPIES), ("```\n", 1)],
    (0, 0, 2),
    ("Rust", 1, (0, COPIES, 0)),
    (Some(1), None),
)];

/// A thousand lines of C of two bytes, and then three lines of which two are in a comment. The
/// plain reading takes steps for each of them.
const LONG: &[Made] = &[(
    &[("x\n", 1_000), ("/* a /*/ b\nc */\nd\n", 1)],
    (0, 1_001, 2),
    ("C", 0, (0, 1_001, 2)),
    (Some(13), Some(2_015)),
)];

/// The table with the syntax of C alone.
const C_TABLE: &[u8] =
    br#"{"languages":{"C":{"line_comment":["//"],"multi_line_comments":[["/*","*/"]],"quotes":[["\"","\""]]}}}"#;

static ROWS: &[Row] = &[
    ("LinguaFranca", None, Texts::Made(OPENINGS)),
    ("Jupyter", None, Texts::Made(NOTEBOOKS)),
    ("C", None, Texts::Made(LONG)),
];

#[test]
fn levels_lists_and_plain_lines(rt: HostRuntime) {
    all_right(&rt, first_wrong(rt.alloc(), bench_json(), ROWS));
}

static ROWS_OF_C: &[Row] = &[("C", None, Texts::Made(LONG))];

#[test]
fn plain_lines_in_a_table_of_c(rt: HostRuntime) {
    all_right(&rt, first_wrong(rt.alloc(), C_TABLE, ROWS_OF_C));
}

static WALKED: &[Row] = &[("C", None, Texts::Made(COMMENTED))];

#[test]
fn two_mebibytes_are_walked(rt: HostRuntime) {
    all_right(&rt, first_wrong(rt.alloc(), bench_json(), WALKED));
}

static IN_A_FENCE: &[Row] = &[("Markdown", None, Texts::Made(FENCED))];

#[test]
fn two_mebibytes_stand_in_a_fence(rt: HostRuntime) {
    all_right(&rt, first_wrong(rt.alloc(), bench_json(), IN_A_FENCE));
}
