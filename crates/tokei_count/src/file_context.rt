//! A text of another language that was read inside a text.
ghost use Rattle.std.specs.Prelude.{◌≡◌};

use tokei_stats::CodeStats;
use tokei_table::LanguageType;

/// By which rules a text of another language opened, and in which language it is read.
#[derive(Clone, Copy, Debug, PartialEq, Eq)]
pub enum LanguageContext {
    /// A script, style or template element.
    Html {
        language: LanguageType,
    },
    /// A block of Lingua Franca's target language.
    LinguaFranca,
    /// A fence; `balanced` where a closing fence ends it.
    Markdown {
        balanced: bool,
        language: LanguageType,
    },
    /// A block of doc comments.
    Rust,
}

/// A text of another language inside a text, once it is read.
#[derive(Debug, Drop)]
pub struct FileContext {
    pub language: LanguageContext,
    /// The byte of the outer text at which reading goes on, counted from its beginning.
    pub end: usize,
    pub stats: CodeStats,
}

impl FileContext {
    /// The block that opened by these rules, ends there, and holds these statistics.
    pub fn new(language: LanguageContext, end: usize, stats: CodeStats) -> FileContext
        ensures language { result.language ≡ language }
        ensures end { result.end ≡ end }
        ensures stats { result.stats ≡ stats }
    {
        FileContext {
            language,
            end,
            stats,
        }
    }
}
