//! Languages that hold children of other languages.
ghost use Rattle.std.specs.Prelude.{◌≡◌};
ghost use Rattle.tokei_table_rules.specs.Families.{family_of, needed_keys};
ghost use Rattle.tokei_table_rules.specs.MetNames.{words_of};

/// How a language opens children; it goes by the language's key.
#[derive(Clone, Copy, Debug, PartialEq, Eq)]
pub enum Family {
    /// It opens none.
    Plain,
    /// Fenced code.
    Markdown,
    /// Scripts, styles and templates.
    HtmlLike,
    /// Documentation in comments.
    Rust,
    /// Code of the target language.
    LinguaFranca,
    /// Cells of a notebook.
    Jupyter,
}

impl Family {
    /// The family of the language of that key.
    pub fn of_key(key: &str) -> Family
        ensures { result ≡ family_of key.now }
    {
        match key {
            "Markdown" | "UnrealDeveloperMarkdown" => Family::Markdown,
            "Html" | "RubyHtml" | "Svelte" | "Vue" | "GlimmerJs" | "GlimmerTs" => Family::HtmlLike,
            "Rust" => Family::Rust,
            "LinguaFranca" => Family::LinguaFranca,
            "Jupyter" => Family::Jupyter,
            _ => Family::Plain,
        }
    }

    /// The keys of the languages on which children of one of the family fall back.
    pub(crate) fn needed_keys(self) -> &'static [&'static str]
        ensures { words_of result.now ≡ needed_keys self }
    {
        match self {
            Family::Plain | Family::Markdown => &[],
            Family::HtmlLike => &["JavaScript", "Css", "Html"],
            Family::Rust => &["Markdown"],
            Family::LinguaFranca => &["C"],
            Family::Jupyter => &["Markdown", "Python"],
        }
    }
}
