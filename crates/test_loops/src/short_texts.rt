//! Every text of a few pieces, in languages of all families: every call tells the same of it.
ghost use Rattle.std.specs.Prelude.{◌<◌, length};

use crate::rows::{Row, Texts, first_wrong};
use crate::verdict::all_right;
use std::alloc::{AllocError, Global};
use test_answers::bench_json;
use test_texts::every_call::agreed;
use tokei_count::Counter;
use tokei_options::CountConfig;
use tokei_table::LanguageType;

/// How many texts have at most five pieces of six kinds.
const COUNT: usize = 9_331;

/// Writes the text with this number in place of what stands there: the empty one is 0, then come
/// those of one piece, those of two, and so on.
fn write_text(text: &mut Vec<u8>, pieces: &[&str], number: usize) -> Result<(), AllocError> {
    text.clear();
    let mut left = number;
    if pieces.is_empty() {
        return Ok(());
    }
    // At least one is taken away each time.
    for _ in 0..number {
        if left == 0 {
            break;
        }
        left -= 1;
        text.extend_from_slice(pieces[left % pieces.len()].as_bytes())?;
        left /= pieces.len();
    }
    Ok(())
}

/// The number of the first text of which two calls differ, or which can't be counted, if there is
/// such a text.
pub fn first_unlike(
    alloc: Global,
    counter: &Counter,
    language: LanguageType,
    config: &CountConfig,
    pieces: &[&str],
) -> Option<usize>
    requires { language < length counter.now }
{
    let mut text = Vec::new(alloc);
    for number in 0..COUNT {
        let is_written = write_text(&mut text, pieces, number).is_ok();
        let told = agreed(alloc, counter, language, &text, config);
        if !is_written || !matches!(told, Ok(Some(_))) {
            return Some(number);
        }
    }
    None
}

/// The pieces of languages that have comments and strings.
const PLAIN: &[&str] = &["/", "*", "\"", "\\", "a", "\n"];

static TEXTS: &[Row] = &[
    ("C", None, Texts::Short(PLAIN)),
    ("Rust", None, Texts::Short(PLAIN)),
    ("D", None, Texts::Short(PLAIN)),
];

#[test]
fn short_texts(rt: HostRuntime) {
    all_right(&rt, first_wrong(rt.alloc(), bench_json(), TEXTS));
}

#[test]
fn the_last_text_is_five_pieces_long(rt: HostRuntime) {
    let mut last = Vec::new(rt.alloc());
    let is_written = write_text(&mut last, PLAIN, COUNT - 1).is_ok();
    assert!(rt; is_written && last.as_slice() == b"\n\n\n\n\n".as_slice());
}

static FAMILIES: &[Row] = &[
    (
        "Markdown",
        None,
        Texts::Short(&["```c", "```", " ", "\n", ",", "`"]),
    ),
    (
        "Html",
        None,
        Texts::Short(&["<script", " type=\"", "\"", ">x", "</script>", "\n"]),
    ),
    (
        "Vue",
        None,
        Texts::Short(&[
            "<style>",
            "<template>",
            "</template>",
            "</style>",
            "x",
            "\n",
        ]),
    ),
    (
        "Rust",
        None,
        Texts::Short(&["///", "//!", " ", "\n", "\"", "/*"]),
    ),
    (
        "LinguaFranca",
        None,
        Texts::Short(&["{=", "=}", "\n", "target C;", " ", "\""]),
    ),
    (
        "CSharp",
        None,
        Texts::Short(&["@\"", "\"", "\\", "\n", "/*", "*/"]),
    ),
    (
        "D",
        None,
        Texts::Short(&["/+", "+/", "/*", "*/", "\n", "\""]),
    ),
    (
        "Python",
        Some(true),
        Texts::Short(&["\"\"\"", "\"", "'", "\\", "#", "\n"]),
    ),
    (
        "FortranLegacy",
        None,
        Texts::Short(&["c", " ", "\"", "'", "\\", "\n"]),
    ),
];

#[test]
fn short_texts_of_families(rt: HostRuntime) {
    all_right(&rt, first_wrong(rt.alloc(), bench_json(), FAMILIES));
}
