//! The formats of a document, and its text, which is printed and read.
ghost use Rattle.std.specs.Prelude.{◌≡◌, ◌≢◌, ◌≤◌, IfErr, IfOk, IsErrOf, Some, Ok, Err, map, string_bytes};
ghost use Rattle.serde_json.specs.Data.{depth};
ghost use Rattle.serde_json.specs.Read.{max_depth, read};
ghost use Rattle.tokei_earlier.specs.Outcome.{outcome_of_text};
ghost use Rattle.tokei_json.specs.Document.{document};
ghost use Rattle.tokei_earlier.specs.DocumentTexts.{document_text, DocumentSumsFit};
ghost use Rattle.tokei_earlier.specs.Formats.{all_words, format_of_word, supported_words, unsupported_words};
ghost use Rattle.tokei_languages.specs.Seen.{languages_of};

use crate::document::from_text;
use crate::error::InputError;
use std::alloc::Global;
use std::str::FromStr;
use thiserror::Error;
use tokei_json::to_text;
use tokei_languages::Languages;
use tokei_stats::CountError;
use tokei_table::LanguageTable;

/// A format in which languages are printed and read.
#[derive(Clone, Copy, Debug, PartialEq, Eq)]
pub enum Format {
    Json,
}

/// Why a word names no format that can be had.
#[derive(Clone, Copy, Debug, PartialEq, Eq, Error)]
pub enum FormatError {
    /// The format is known, but isn't part of this program.
    #[error("this format isn't built in")]
    NotBuilt,
    /// There is no such format.
    #[error("no such format")]
    Unknown,
}

impl Format {
    /// The text of languages in this format; in JSON the compact text of `to_value`. `Overflow`
    /// only where a sum that it shows passes the greatest `usize`, or `Memory`.
    pub fn print(
        self,
        alloc: Global,
        table: &LanguageTable,
        languages: &Languages,
    ) -> Result<String, CountError>
        ensures text { IfOk result (λ s. string_bytes s
            ≡ document_text self table.now (languages_of languages.now)) }
        ensures reads_back { IfOk result
            (λ s. depth (document table.now (languages_of languages.now)) ≤ max_depth
            → read (string_bytes s) ≡ Some (document table.now (languages_of languages.now))) }
        ensures overflow { IsErrOf result CountError.Overflow
            → ¬ DocumentSumsFit self (languages_of languages.now) }
    {
        let Format::Json = self;
        to_text(alloc, table, languages)
    }

    /// The languages of a text. Refused is exactly what has a cause of `InputError` from `Empty` to
    /// `NamedTwice`, and of those that apply the first is answered; `Memory` comes only where an
    /// allocation failed.
    pub fn parse(alloc: Global, table: &LanguageTable, text: &str) -> Result<Languages, InputError>
        ensures languages { IfOk result (λ ls. outcome_of_text table.now text.now
            ≡ Ok (languages_of ls)) }
        ensures refused { IfErr result (λ e. e ≢ InputError.Memory
            → outcome_of_text table.now text.now ≡ Err e) }
        ensures not_unreadable { result ≢ Err InputError.Unreadable }
        ensures not_too_long { result ≢ Err InputError.TooLong }
        ensures not_overflow { result ≢ Err InputError.Overflow }
    {
        from_text(alloc, table, text)
    }

    /// The words of the formats that can be had.
    pub fn supported() -> &'static [&'static str]
        ensures { map (λ w. w.now) result.now ≡ supported_words }
    {
        &["json"]
    }

    /// The words of all formats that are known.
    pub fn all() -> &'static [&'static str]
        ensures { map (λ w. w.now) result.now ≡ all_words }
    {
        &["cbor", "json", "yaml"]
    }

    /// The words by which formats are chosen when the program is built: those of all formats.
    pub fn all_feature_names() -> &'static [&'static str]
        ensures { map (λ w. w.now) result.now ≡ all_words }
    {
        Format::all()
    }

    /// The words of the formats that are known but can't be had.
    pub fn not_supported() -> &'static [&'static str]
        ensures { map (λ w. w.now) result.now ≡ unsupported_words }
    {
        &["cbor", "yaml"]
    }
}

/// Reads `json`, exactly; `cbor` and `yaml` are refused as `NotBuilt`, other words as `Unknown`.
impl FromStr for Format {
    type Err = FormatError;

    ghost from_str_gives = { λ word r. r ≡ format_of_word word };

    fn from_str(word: &str) -> Result<Format, FormatError> {
        match word {
            "json" => Ok(Format::Json),
            "cbor" | "yaml" => Err(FormatError::NotBuilt),
            _ => Err(FormatError::Unknown),
        }
    }
}
