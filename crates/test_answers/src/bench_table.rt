//! The bench table, on which tests and measurements of this repository stand.
ghost use Rattle.std.specs.Prelude.{◌≡◌};

/// Twenty languages in the layout of a table: the text of `bench/languages.json`, byte for byte.
pub const BENCH: &str = r##"{
  "languages": {
    "Bash": {
      "name": "BASH",
      "line_comment": ["#"],
      "quotes": [["\\\"", "\\\""], ["'", "'"]],
      "extensions": ["bash"],
      "shebangs": ["#!/bin/bash"],
      "env": ["bash"]
    },
    "Batch": {
      "line_comment": ["rem ", "REM ", "::"],
      "extensions": ["bat", "cmd"]
    },
    "C": {
      "line_comment": ["//"],
      "multi_line_comments": [["/*", "*/"]],
      "quotes": [["\\\"", "\\\""]],
      "extensions": ["c"]
    },
    "CSharp": {
      "name": "C#",
      "line_comment": ["//"],
      "multi_line_comments": [["/*", "*/"]],
      "quotes": [["\\\"", "\\\""]],
      "verbatim_quotes": [["@\\\"", "\\\""]],
      "extensions": ["cs"]
    },
    "Css": {
      "name": "CSS",
      "line_comment": ["//"],
      "multi_line_comments": [["/*", "*/"]],
      "quotes": [["\\\"", "\\\""], ["'", "'"]],
      "extensions": ["css"]
    },
    "D": {
      "line_comment": ["//"],
      "multi_line_comments": [["/*", "*/"]],
      "nested_comments": [["/+", "+/"]],
      "quotes": [["\\\"", "\\\""]],
      "extensions": ["d"]
    },
    "FortranLegacy": {
      "name": "FORTRAN Legacy",
      "line_comment": ["c", "C", "!", "*"],
      "quotes": [["\\\"", "\\\""], ["'", "'"]],
      "extensions": ["f", "for"]
    },
    "FortranModern": {
      "name": "FORTRAN Modern",
      "line_comment": ["!"],
      "quotes": [["\\\"", "\\\""]],
      "extensions": ["f90"]
    },
    "Html": {
      "name": "HTML",
      "kind": "html",
      "multi_line_comments": [["<!--", "-->"]],
      "quotes": [["\\\"", "\\\""], ["'", "'"]],
      "contexts": [{"tag": "script"}, {"tag": "style"}],
      "extensions": ["html", "htm"],
      "mime": ["text/html"]
    },
    "JavaScript": {
      "line_comment": ["//"],
      "multi_line_comments": [["/*", "*/"]],
      "quotes": [["\\\"", "\\\""], ["'", "'"]],
      "extensions": ["js"],
      "mime": ["application/javascript", "text/javascript"]
    },
    "Json": {
      "name": "JSON",
      "blank": true,
      "extensions": ["json"]
    },
    "Jupyter": {
      "name": "Jupyter Notebooks",
      "extensions": ["ipynb"]
    },
    "LinguaFranca": {
      "name": "Lingua Franca",
      "line_comment": ["//", "#"],
      "multi_line_comments": [["/*", "*/"]],
      "nested": true,
      "quotes": [["\\\"", "\\\""]],
      "important_syntax": ["{="],
      "extensions": ["lf"]
    },
    "Markdown": {
      "literate": true,
      "important_syntax": ["```"],
      "extensions": ["md", "markdown"]
    },
    "Python": {
      "line_comment": ["#"],
      "quotes": [["\\\"", "\\\""], ["'", "'"]],
      "doc_quotes": [["\\\"\\\"\\\"", "\\\"\\\"\\\""], ["'''", "'''"]],
      "extensions": ["py"],
      "env": ["python"]
    },
    "Rust": {
      "line_comment": ["//"],
      "multi_line_comments": [["/*", "*/"]],
      "nested": true,
      "quotes": [["\\\"", "\\\""]],
      "important_syntax": ["///", "//!"],
      "extensions": ["rs"]
    },
    "Svelte": {
      "kind": "html",
      "multi_line_comments": [["<!--", "-->"]],
      "quotes": [["\\\"", "\\\""], ["'", "'"]],
      "contexts": [{"tag": "script"}, {"tag": "style"}],
      "extensions": ["svelte"]
    },
    "Text": {
      "name": "Plain Text",
      "literate": true,
      "extensions": ["txt"]
    },
    "Toml": {
      "name": "TOML",
      "line_comment": ["#"],
      "quotes": [["\\\"", "\\\""], ["'", "'"]],
      "extensions": ["toml"],
      "filenames": ["cargo.lock"]
    },
    "Vue": {
      "kind": "html",
      "line_comment": ["//"],
      "multi_line_comments": [["<!--", "-->"], ["/*", "*/"]],
      "quotes": [["\\\"", "\\\""], ["'", "'"]],
      "contexts": [{"tag": "template"}, {"tag": "script"}, {"tag": "style"}],
      "extensions": ["vue"]
    }
  }
}
"##;

/// The bench table as JSON text, which `LanguageTable::from_json` reads.
pub fn bench_json() -> &'static [u8]
    ensures { result.now ≡ BENCH.now }
{
    BENCH.as_bytes()
}
