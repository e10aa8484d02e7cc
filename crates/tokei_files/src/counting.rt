//! The report of one file: what its content counts, decoded, in a language.
ghost use Rattle.std.specs.Prelude.{◌≡◌, ◌≢◌, ◌<◌, None, Some, Err, length, IfOk, IsSomeAnd};
ghost use Rattle.tokei_count.specs.Seen.{docs_of};
ghost use Rattle.tokei_stats.specs.Overflow.{Fits};
ghost use Rattle.tokei_stats.specs.Seen.{stats_of};
ghost use Rattle.tokei_folders.specs.Answers.{Told};
ghost use Rattle.tokei_files.specs.declared.error.ParseFault.TheVariants.{Refused as NotRead, Memory as OutOfMemory, Overflow as TooMany};
ghost use Rattle.tokei_files.specs.Contents.{content_at};
ghost use Rattle.tokei_files.specs.ContentStatistics.{stats_at, stats_in, stats_of_text};
ghost use Rattle.tokei_folders.specs.AsTheyWere.{SameTree, FaultsStay};

use crate::contents::content;
use crate::error::ParseFault;
use std::alloc::Global;
use tokei_bytes::decode_marked;
use tokei_count::{Counter, parse_from_slice};
use tokei_folders::Folders;
use tokei_options::CountConfig;
use tokei_stats::CodeStats;
use tokei_table::LanguageType;

/// By what files are counted.
#[derive(Drop)]
pub struct Counting<'a, 't> {
    pub alloc: Global,
    /// Of the table by which files have their languages.
    pub counter: &'a Counter<'t>,
    pub config: CountConfig,
    /// The languages that count; `None` means all.
    pub types: Option<&'a [LanguageType]>,
}

impl Counting<'_, '_> {
    /// The statistics of a text in a language. `Overflow` comes only where one of its counts passes
    /// the greatest `usize`.
    fn count_text(&self, language: LanguageType, text: &[u8]) -> Result<CodeStats, ParseFault>
        requires { language < length self.now.counter.now }
        ensures stats { IfOk result (λ s. stats_of s
            ≡ stats_of_text self.now.counter.now (docs_of self.now.config) language text.now) }
        ensures overflow { result ≡ Err TooMany
            → ¬ Fits
            (stats_of_text self.now.counter.now (docs_of self.now.config) language text.now) }
        ensures counted { result ≢ Err NotRead }
    {
        Ok(parse_from_slice(self.alloc, self.counter, language, text, &self.config)?)
    }

    /// The statistics of a content in a language, once it is decoded. `Overflow` comes only where
    /// one of its counts passes the greatest `usize`.
    fn count(&self, language: LanguageType, content: &[u8]) -> Result<CodeStats, ParseFault>
        requires { language < length self.now.counter.now }
        ensures stats { IfOk result (λ s. stats_of s
            ≡ stats_in self.now.counter.now (docs_of self.now.config) language content.now) }
        ensures overflow { result ≡ Err TooMany
            → ¬ Fits
            (stats_in self.now.counter.now (docs_of self.now.config) language content.now) }
        ensures counted { result ≢ Err NotRead }
    {
        match decode_marked(self.alloc, content)? {
            Some(text) => self.count_text(language, &text),
            None => self.count_text(language, content),
        }
    }

    /// The statistics of the file at a place, in a language. A file that the walk has just listed
    /// is opened without being asked for once more.
    pub fn count_file<F: Folders>(
        &self,
        folders: &mut F,
        language: LanguageType,
        place: &str,
        listed: bool,
    ) -> Result<CodeStats, ParseFault>
        requires { language < length self.now.counter.now }
        ensures same { SameTree F.tree folders.old folders.new }
        ensures told { Told (F.tree folders.old) (λ t. IfOk result (λ s. Some (stats_of s)
            ≡ stats_at t self.now.counter.now (docs_of self.now.config) language place.now)) }
        ensures refused { result ≡ Err NotRead → Told (F.tree folders.old) (λ t.
            content_at t place.now ≡ None) }
        ensures overflow { result ≡ Err TooMany
            → Told (F.tree folders.old) (λ t. IsSomeAnd
            (stats_at t self.now.counter.now (docs_of self.now.config) language place.now)
            (λ s. ¬ Fits s)) }
        ensures honest { result ≢ Err OutOfMemory
            → FaultsStay F.memory_faults folders.old folders.new }
    {
        let content = content(folders, place, listed)?;
        let counted = self.count(language, content.as_slice());
        folders.take_back(content);
        counted
    }
}
