//! Worked texts cut after each byte: of each piece every call tells the same, and neither its lines
//! nor its steps are more than its bytes.
ghost use Rattle.std.specs.Prelude.{◌<◌, length};

use crate::rows::{Row, Texts, first_wrong};
use crate::verdict::all_right;
use std::alloc::Global;
use test_answers::bench_json;
use test_texts::every_call::agreed;
use tokei_count::Counter;
use tokei_options::CountConfig;
use tokei_stats::{CodeStats, CountError};
use tokei_table::LanguageType;

/// Texts in which each kind of opener and closer stands.
static TEXTS: &[Row] = &[
    ("Rust", None, Texts::Cut("/* a\n\nb */\n")),
    ("Rust", None, Texts::Cut("let s = \"// no\";\n")),
    ("C", None, Texts::Cut("/* a /*/ b\nc */\nd\n")),
    ("D", None, Texts::Cut("/+ /+ +/\n+/\nx\n")),
    ("C", None, Texts::Cut("let s = \"a\n// b\";\n")),
    ("FortranLegacy", None, Texts::Cut("c x\n c x\n")),
    ("Markdown", None, Texts::Cut("```rust\nfn a() {}\n```\n")),
    (
        "Markdown",
        None,
        Texts::Cut("```rust\r\nfn a() {}\r\n```\r\n"),
    ),
    (
        "Html",
        None,
        Texts::Cut("<script>\nlet x = 1;\n</script>\n"),
    ),
    ("Html", None, Texts::Cut("<script>ab</script>\n")),
    ("Html", None, Texts::Cut("<style>\na {}\n")),
    ("Rust", None, Texts::Cut("let s = \"q\";\n/// d\n")),
    ("Rust", None, Texts::Cut("x /// d\n")),
    (
        "LinguaFranca",
        None,
        Texts::Cut("target C;\nreaction(a) {=\n  x();\n=}\n"),
    ),
    ("Python", None, Texts::Cut("\"\"\"d\ne\"\"\"\nx = 1\n")),
    (
        "Python",
        Some(true),
        Texts::Cut("\"\"\"d\ne\"\"\"\nx = 1\n"),
    ),
    ("Python", Some(true), Texts::Cut("\"\"\"d\"\"\"\n")),
    ("CSharp", None, Texts::Cut("s = @\"\\\";\n// c\n")),
    (
        "Jupyter",
        None,
        Texts::Cut(
            "{\"cells\":[{\"cell_type\":\"code\",\"source\":[\"x = 1\\n\",\"y = 2\"]}],\
            \"metadata\":{\"kernelspec\":{},\"language_info\":{}}}",
        ),
    ),
    (
        "Jupyter",
        None,
        Texts::Cut(
            "{\"cells\":[{\"cell_type\":\"markdown\",\
            \"source\":[\"```rust\\n\",\"x\\n\",\"```\\n\"]}],\
            \"metadata\":{\"kernelspec\":{},\"language_info\":{}}}",
        ),
    ),
];

/// Whether neither all lines that are told, those of its children with them, nor the steps are more
/// than the bytes.
fn are_few(told: Result<Option<(CodeStats, u128)>, CountError>, bytes: usize) -> bool {
    match told {
        Ok(Some((stats, steps))) => match stats.summarise() {
            Ok(all) => match all.lines() {
                Ok(lines) => lines <= bytes && steps <= bytes as u128,
                Err(_) => false,
            },
            Err(_) => false,
        },
        Ok(None) | Err(_) => false,
    }
}

/// Where the first piece of a text ends that hasn't few lines and steps, if there is such a piece.
pub fn first_heavy(
    alloc: Global,
    counter: &Counter,
    language: LanguageType,
    config: &CountConfig,
    text: &[u8],
) -> Option<usize>
    requires { language < length counter.now }
{
    for end in 0..=text.len() {
        let told = agreed(alloc, counter, language, &text[..end], config);
        if !are_few(told, end) {
            return Some(end);
        }
    }
    None
}

#[test]
fn pieces_have_few_lines_and_steps(rt: HostRuntime) {
    all_right(&rt, first_wrong(rt.alloc(), bench_json(), TEXTS));
}
