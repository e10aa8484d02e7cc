//! Languages in the table's order.
use crate::language::Language;
use crate::merge::add_all;
use std::alloc::Global;
use std::collections::BTreeMap;
use std::collections::btree_map::Iter;
use std::fmt;
use tokei_stats::{CountError, Report};
use tokei_table::LanguageType;

/// The languages that were counted, each once, in the table's order.
#[derive(PartialEq, Drop)]
pub struct Languages {
    pub(crate) languages: BTreeMap<LanguageType, Language>,
    pub(crate) alloc: Global,
}

// Shown as the map that a reader thinks of.
impl fmt::Debug for Languages {
    fn fmt<W: fmt::Write>(&self, f: &mut fmt::Formatter<W>) -> fmt::Result {
        fmt::Debug::fmt(&self.languages, f)
    }
}

impl Languages {
    ghost use Rattle.std.specs.Prelude.{◌≡◌, [], length, option_copied, option_map, true, IfOk, IfErr, IsErrOf, OnOk};
    ghost use Rattle.std.specs.Prelude.{OnErr};
    ghost use Rattle.std.specs.Ordering.{nat_cmp};
    ghost use Rattle.std.specs.BTreeMap.{insert_entry};
    ghost use Rattle.tokei_languages.specs.Maps.{put_at};
    ghost use Rattle.tokei_languages.specs.Merging.{merged_languages, with_report, MergeFits};
    ghost use Rattle.tokei_languages.specs.Values.{empty_language, marked, IsInOrder, language_at};
    ghost use Rattle.tokei_languages.specs.Seen.{allocator_of, entries_of, language_of, languages_of, report_of};

    /// No language; takes no memory.
    pub fn new(alloc: Global) -> Languages
        ensures empty { languages_of result ≡ [] }
        ensures allocator { allocator_of result ≡ alloc }
    {
        Languages {
            languages: BTreeMap::new(alloc),
            alloc,
        }
    }

    /// What the languages grow with.
    pub fn allocator(&self) -> Global
        ensures { result ≡ allocator_of self.now }
    {
        self.alloc
    }

    /// What was counted of the language, if anything was.
    pub fn get(&self, language: LanguageType) -> Option<&Language>
        ensures { option_map language_of (option_copied result)
            ≡ language_at (languages_of self.now) language }
    {
        self.languages.get(&language)
    }

    /// How many languages there are.
    pub fn len(&self) -> usize
        ensures { result ≡ length (languages_of self.now) }
    {
        self.languages.len()
    }

    /// The languages in the table's order.
    pub fn iter(&self) -> Iter<'_, LanguageType, Language>
        ensures entries { entries_of result ≡ languages_of self.now }
        ensures order { IsInOrder (languages_of self.now) }
    {
        self.languages.iter()
    }

    /// Puts what was counted of the language, and answers what stood there. A refusal changes
    /// nothing.
    pub fn insert(
        &mut self,
        language: LanguageType,
        value: Language,
    ) -> Result<Option<Language>, CountError>
        ensures ok { OnOk result (languages_of self.new
            ≡ insert_entry nat_cmp (languages_of self.old) language (language_of value)) }
        ensures replaced { IfOk result (λ old.
            option_map language_of old ≡ language_at (languages_of self.old) language) }
        ensures memory { IfErr result (λ e. e ≡ CountError.Memory) }
        ensures err { OnErr result (languages_of self.new ≡ languages_of self.old) }
    {
        Ok(self.languages.insert(language, value)?)
    }

    /// Adds the report to the language, which is put there where it is missing. A refusal, only
    /// when out of memory, changes nothing.
    pub fn add_report(&mut self, language: LanguageType, report: Report) -> Result<(), CountError>
        ensures ok { OnOk result (languages_of self.new
            ≡ put_at (λ s. with_report s (report_of report))
            (with_report empty_language (report_of report)) (languages_of self.old) language) }
        ensures memory { IfErr result (λ e. e ≡ CountError.Memory) }
        ensures err { OnErr result (languages_of self.new ≡ languages_of self.old) }
    {
        if let Some(there) = self.languages.get_mut(&language) {
            return there.add_report(report);
        }
        let mut first = Language::new(self.alloc);
        first.add_report(report)?;
        let _none = self.languages.insert(language, first)?;
        Ok(())
    }

    /// Marks the language, which is put there where it is missing, as counted without all of its
    /// files. A refusal, only when out of memory, changes nothing.
    pub fn mark_inaccurate(&mut self, language: LanguageType) -> Result<(), CountError>
        ensures ok { OnOk result (languages_of self.new
            ≡ put_at marked (marked empty_language) (languages_of self.old) language) }
        ensures memory { IfErr result (λ e. e ≡ CountError.Memory) }
        ensures err { OnErr result (languages_of self.new ≡ languages_of self.old) }
    {
        if let Some(there) = self.languages.get_mut(&language) {
            there.mark_inaccurate();
            return Ok(());
        }
        let mut first = Language::new(self.alloc);
        first.mark_inaccurate();
        let _none = self.languages.insert(language, first)?;
        Ok(())
    }

    /// Adds every language of the other. `Overflow` only where a sum of two counts passes the
    /// greatest `usize`, or `Memory`; a refusal changes nothing.
    pub fn add(&mut self, other: Languages) -> Result<(), CountError>
        ensures ok { OnOk result (languages_of self.new
            ≡ merged_languages (languages_of self.old) (languages_of other)) }
        ensures fits { OnOk result (MergeFits (languages_of self.old) (languages_of other)) }
        ensures overflow { IsErrOf result CountError.Overflow
            → ¬ MergeFits (languages_of self.old) (languages_of other) }
        ensures err { OnErr result (languages_of self.new ≡ languages_of self.old) }
    {
        add_all(&mut self.languages, other.languages)
    }
}
