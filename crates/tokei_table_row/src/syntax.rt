//! What the table says of one language.
ghost use Rattle.std.specs.Prelude.{◌≡◌, IfOk};
ghost use Rattle.tokei_table_row.specs.NewRow.{new_row};
ghost use Rattle.tokei_table_row.specs.Row.{is_html};
ghost use Rattle.tokei_table_row.specs.RowOf.{row_of};

use std::alloc::{AllocError, Global};

/// One language: its name, its comments and string literals, and what it is found by.
#[derive(Drop)]
pub struct Syntax {
    /// The name under which the table lists the language.
    pub key: String,
    /// The name that is shown.
    pub name: String,
    /// The kind as the table has it, without escapes; empty where it names none.
    pub kind: String,
    /// What begins a comment that runs to its line's end.
    pub line_comment: Vec<String>,
    /// The opener and the closer of each comment over many lines.
    pub multi_line_comments: Vec<(String, String)>,
    /// Whether each comment over many lines may hold others.
    pub nested: bool,
    /// The comments that may stand in comments.
    pub nested_comments: Vec<(String, String)>,
    /// The opener and the closer of each string literal.
    pub quotes: Vec<(String, String)>,
    /// The string literals in which a backslash means itself.
    pub verbatim_quotes: Vec<(String, String)>,
    /// The string literals that document code.
    pub doc_quotes: Vec<(String, String)>,
    /// Whether every line that isn't blank is a comment.
    pub literate: bool,
    /// Whether the language has no comments.
    pub blank: bool,
    /// Further texts that a quick search of a line has to find.
    pub important_syntax: Vec<String>,
    /// What follows the last dot of the names of its files.
    pub extensions: Vec<String>,
    /// Whole names of its files, in lower case.
    pub filenames: Vec<String>,
    /// What the names of its files end with, in lower case.
    pub path_suffixes: Vec<String>,
    /// Its MIME types.
    pub mime: Vec<String>,
    /// The first words of its scripts' first lines.
    pub shebangs: Vec<String>,
    /// The programs that `#!/usr/bin/env` starts for its scripts.
    pub env: Vec<String>,
    /// The tags whose contents are of another language; only a language of kind `html` has some.
    pub contexts: Vec<String>,
}

impl Syntax {
    /// A language of that key and name, without comments, string literals or files. It fails where
    /// memory runs out.
    pub fn new(alloc: Global, key: &str) -> Result<Syntax, AllocError>
        ensures { IfOk result (λ s. row_of s ≡ new_row key.now) }
    {
        Ok(Syntax {
            key: String::from_str(alloc, key)?,
            name: String::from_str(alloc, key)?,
            kind: String::new(alloc),
            line_comment: Vec::new(alloc),
            multi_line_comments: Vec::new(alloc),
            nested: false,
            nested_comments: Vec::new(alloc),
            quotes: Vec::new(alloc),
            verbatim_quotes: Vec::new(alloc),
            doc_quotes: Vec::new(alloc),
            literate: false,
            blank: false,
            important_syntax: Vec::new(alloc),
            extensions: Vec::new(alloc),
            filenames: Vec::new(alloc),
            path_suffixes: Vec::new(alloc),
            mime: Vec::new(alloc),
            shebangs: Vec::new(alloc),
            env: Vec::new(alloc),
            contexts: Vec::new(alloc),
        })
    }

    /// Whether its contexts are tags: whether its kind is `html`.
    pub fn is_html(&self) -> bool
        ensures { result ≡ is_html (row_of self.now) }
    {
        self.kind.as_str() == "html"
    }
}
