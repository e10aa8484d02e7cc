//! Counts anew, and the total of all languages.
ghost use Rattle.std.specs.Prelude.{◌≡◌, IfErr, OnOk, OnErr};
ghost use Rattle.tokei_languages.specs.Renewing.{own_sum, renewed, renewed_languages, RenewalFits};
ghost use Rattle.tokei_languages.specs.Seen.{entries_of, language_of};
ghost use Rattle.tokei_stats.specs.Overflow.{CountsFit};

use crate::copies::copy_at;
use crate::language::Language;
use crate::languages::Languages;
use crate::sums::own_sums;
use std::collections::BTreeMap;
use tokei_stats::{CountError, Report, Sums};
use tokei_table::LanguageType;

/// Tests whether the sums of each language's reports fit.
fn test_sums(languages: &BTreeMap<LanguageType, Language>) -> Result<(), CountError>
    ensures fits { OnOk result (RenewalFits (entries_of languages.now.entries)) }
    ensures past { OnErr result (¬ RenewalFits (entries_of languages.now.entries)) }
    ensures overflow { IfErr result (λ e. e ≡ CountError.Overflow) }
{
    for (_, language) in languages.iter() {
        let _sums = own_sums(&language.reports)?;
    }
    Ok(())
}

/// Renews the counts where they fit.
fn renew(language: &mut Language)
    ensures { CountsFit (own_sum (language_of language.old).reports)
        → language_of language.new ≡ renewed (language_of language.old) }
{
    if let Ok(sums) = own_sums(&language.reports) {
        language.put_counts(sums);
    }
}

/// Renews the counts of all languages, whose sums fit.
fn renew_all(languages: &mut BTreeMap<LanguageType, Language>)
    requires { RenewalFits (entries_of languages.old.entries) }
    ensures { entries_of languages.new.entries
        ≡ renewed_languages (entries_of languages.old.entries) }
{
    languages.retain(|_, language| {
        renew(language);
        true
    });
}

impl Languages {
    ghost use Rattle.std.specs.Prelude.{◌≡◌, IfOk, IfErr, OnOk, OnErr, IsErrOf};
    ghost use Rattle.tokei_stats.specs.Overflow.{CountsFit};
    ghost use Rattle.tokei_stats.specs.Seen.{sums_of};
    ghost use Rattle.tokei_languages.specs.Renewing.{renewed_languages, RenewalFits};
    ghost use Rattle.tokei_languages.specs.Seen.{children_of, language_of, languages_of};
    ghost use Rattle.tokei_languages.specs.Summaries.{any_inaccurate, languages_summary, reports_by_language, total_of};

    /// Renews the counts of every language: they become the sums of its reports' own counts.
    /// `Overflow` exactly where one of these passes the greatest `usize`, which changes nothing.
    pub fn renew_counts(&mut self) -> Result<(), CountError>
        ensures ok { OnOk result
            (languages_of self.new ≡ renewed_languages (languages_of self.old)) }
        ensures fits { OnOk result (RenewalFits (languages_of self.old)) }
        ensures past { OnErr result (¬ RenewalFits (languages_of self.old)) }
        ensures overflow { IfErr result (λ e. e ≡ CountError.Overflow) }
        ensures err { OnErr result (languages_of self.new ≡ languages_of self.old) }
    {
        test_sums(&self.languages)?;
        renew_all(&mut self.languages);
        Ok(())
    }

    /// Whether a file of any language couldn't be read.
    pub fn is_inaccurate(&self) -> bool
        ensures { result ≡ any_inaccurate (languages_of self.now) }
    {
        for (_, language) in self.languages.iter() {
            if language.inaccurate {
                return true;
            }
        }
        false
    }

    /// The counts of all languages with those of the texts inside, added up: the counts of `total`,
    /// without its memory. `Overflow` exactly where one of the three passes the greatest `usize`.
    pub fn summary_counts(&self) -> Result<Sums, CountError>
        ensures sum { IfOk result (λ n. sums_of n ≡ languages_summary (languages_of self.now)) }
        ensures past { OnErr result (¬ CountsFit (languages_summary (languages_of self.now))) }
        ensures overflow { IfErr result (λ e. e ≡ CountError.Overflow) }
    {
        let mut sums = Sums::new();
        for (_, language) in self.languages.iter() {
            sums = sums.plus(language.summary_counts()?)?;
        }
        Ok(sums)
    }

    /// A copy of the reports of each language.
    fn copied_reports(&self) -> Result<BTreeMap<LanguageType, Vec<Report>>, CountError>
        ensures ok { IfOk result (λ m.
            children_of m.entries ≡ reports_by_language (languages_of self.now)) }
        ensures memory { IfErr result (λ e. e ≡ CountError.Memory) }
    {
        let mut copies = BTreeMap::new(self.alloc);
        for (language, value) in self.languages.iter() {
            copy_at(self.alloc, &mut copies, *language, &value.reports)?;
        }
        Ok(copies)
    }

    /// All languages in one: their summaries added up, a copy of the reports of each language as
    /// children, and the marks joined. `Overflow` exactly where a count passes the greatest
    /// `usize`, or `Memory`.
    pub fn total(&self) -> Result<Language, CountError>
        ensures ok { IfOk result (λ total. language_of total ≡ total_of (languages_of self.now)) }
        ensures fits { OnOk result (CountsFit (languages_summary (languages_of self.now))) }
        ensures overflow { IsErrOf result CountError.Overflow
            → ¬ CountsFit (languages_summary (languages_of self.now)) }
        ensures memory { IsErrOf result CountError.Memory
            → CountsFit (languages_summary (languages_of self.now)) }
    {
        let counts = self.summary_counts()?;
        let mut total = Language::new(self.alloc);
        total.put_counts(counts);
        total.children = self.copied_reports()?;
        total.inaccurate = self.is_inaccurate();
        Ok(total)
    }
}
