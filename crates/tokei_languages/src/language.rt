//! A language's counts and reports.
use crate::children::append;
use crate::copies::{blob_reports, copied_children, copied_reports};
use crate::sums::{add_children, own_sums};
use std::alloc::Global;
use std::collections::BTreeMap;
use std::fmt;
use tokei_stats::{CountError, Report, Sums};
use tokei_table::LanguageType;

/// How many lines of a language are blank, code and comments, the reports of its files, and those
/// of the texts of other languages inside its files.
#[derive(PartialEq, Drop)]
pub struct Language {
    pub blanks: usize,
    pub code: usize,
    pub comments: usize,
    /// One for each file, in the order in which they were added, or were sorted.
    pub reports: Vec<Report>,
    /// By the language inside: a report, under the file's name, for each file that holds texts of
    /// it.
    pub children: BTreeMap<LanguageType, Vec<Report>>,
    /// Whether a file of the language couldn't be read.
    pub inaccurate: bool,
    pub(crate) alloc: Global,
}

// The allocator is no member that a reader of the text knows.
impl fmt::Debug for Language {
    fn fmt<W: fmt::Write>(&self, f: &mut fmt::Formatter<W>) -> fmt::Result {
        f.debug_struct("Language")
            .field("blanks", &self.blanks)
            .field("code", &self.code)
            .field("comments", &self.comments)
            .field("reports", &self.reports)
            .field("children", &self.children)
            .field("inaccurate", &self.inaccurate)
            .finish()
    }
}

impl Language {
    ghost use Rattle.std.specs.Prelude.{◌≡◌, ◌<◌, ◌↔◌, [], true, IfOk, IfErr, OnOk, OnErr, IsErrOf, IsTrue};
    ghost use Rattle.tokei_stats.specs.Overflow.{CountsFit};
    ghost use Rattle.tokei_stats.specs.Seen.{sums_of};
    ghost use Rattle.tokei_stats.specs.Statistics.{lines_of, no_lines, plus};
    ghost use Rattle.tokei_languages.specs.Merging.{merged_language, with_report};
    ghost use Rattle.tokei_languages.specs.Renewing.{own_sum, renewed};
    ghost use Rattle.tokei_languages.specs.Summaries.{language_summary, summarised};
    ghost use Rattle.tokei_languages.specs.Values.{empty_language, marked};
    ghost use Rattle.tokei_languages.specs.Seen.{language_of, report_of};

    /// No lines and no reports; takes no memory.
    pub fn new(alloc: Global) -> Language
        ensures { language_of result ≡ empty_language }
    {
        Language {
            blanks: 0,
            code: 0,
            comments: 0,
            reports: Vec::new(alloc),
            children: BTreeMap::new(alloc),
            inaccurate: false,
            alloc,
        }
    }

    /// Marks the language as counted without all of its files.
    pub fn mark_inaccurate(&mut self)
        ensures { language_of self.new ≡ marked (language_of self.old) }
    {
        self.inaccurate = true;
    }

    /// Whether the three counts are 0 and no other language is inside.
    pub fn is_empty(&self) -> bool
        ensures { IsTrue result
            ↔ (((language_of self.now).counts ≡ no_lines)
            × ((language_of self.now).children ≡ [])) }
    {
        self.blanks == 0 && self.code == 0 && self.comments == 0 && self.children.is_empty()
    }

    /// The sum of the three counts; refused with `Overflow` exactly where it passes the greatest
    /// `usize`.
    pub fn lines(&self) -> Result<usize, CountError>
        ensures sum { IfOk result (λ n. n ≡ lines_of (language_of self.now).counts) }
        ensures past { OnErr result (usize.MAX < lines_of (language_of self.now).counts) }
        ensures overflow { IfErr result (λ e. e ≡ CountError.Overflow) }
    {
        match self.blanks.checked_add(self.code) {
            None => Err(CountError::Overflow),
            Some(begun) => match begun.checked_add(self.comments) {
                None => Err(CountError::Overflow),
                Some(all) => Ok(all),
            },
        }
    }

    /// The three counts.
    pub(crate) fn counts(&self) -> Sums
        ensures { sums_of result ≡ (language_of self.now).counts }
    {
        Sums {
            blanks: self.blanks,
            code: self.code,
            comments: self.comments,
        }
    }

    /// Puts other counts in the place of these.
    pub(crate) fn put_counts(&mut self, counts: Sums)
        ensures { self.new ≡ record self.old {
          blanks = counts.blanks;
          code = counts.code;
          comments = counts.comments;
        } }
    {
        self.blanks = counts.blanks;
        self.code = counts.code;
        self.comments = counts.comments;
    }

    /// Puts the report behind the others, and one of the same name for each of its blobs behind
    /// those of the blob's language; the counts stay until `total` renews them. A refusal, only
    /// when out of memory, changes nothing.
    pub fn add_report(&mut self, report: Report) -> Result<(), CountError>
        ensures ok { OnOk result
            (language_of self.new ≡ with_report (language_of self.old) (report_of report)) }
        ensures memory { IfErr result (λ e. e ≡ CountError.Memory) }
        ensures err { OnErr result (language_of self.new ≡ language_of self.old) }
    {
        if report.stats.blobs.is_empty() {
            self.reports.push(report)?;
            return Ok(());
        }
        let more = blob_reports(self.alloc, &report.name, &report.stats.blobs)?;
        self.reports.reserve(1)?;
        let _before = append(self.alloc, &mut self.children, more)?;
        self.reports.push(report).unwrap();
        Ok(())
    }

    /// Adds the counts, puts the other's reports behind these, and joins the marks. `Overflow`
    /// exactly where a sum of two counts passes the greatest `usize`, or `Memory`; a refusal
    /// changes nothing.
    pub fn add(&mut self, other: Language) -> Result<(), CountError>
        ensures ok { OnOk result
            (language_of self.new ≡ merged_language (language_of self.old) (language_of other)) }
        ensures fits { OnOk result
            (CountsFit (plus (language_of self.old).counts (language_of other).counts)) }
        ensures overflow { IsErrOf result CountError.Overflow
            → ¬ CountsFit (plus (language_of self.old).counts (language_of other).counts) }
        ensures memory { IsErrOf result CountError.Memory
            → CountsFit (plus (language_of self.old).counts (language_of other).counts) }
        ensures err { OnErr result (language_of self.new ≡ language_of self.old) }
    {
        let _before = self.grow(other)?;
        Ok(())
    }

    /// Renews the counts: they become the sums of the reports' own counts. `Overflow` exactly where
    /// one of these passes the greatest `usize`, which changes nothing.
    pub fn total(&mut self) -> Result<(), CountError>
        ensures ok { OnOk result (language_of self.new ≡ renewed (language_of self.old)) }
        ensures fits { OnOk result (CountsFit (own_sum (language_of self.old).reports)) }
        ensures past { OnErr result (¬ CountsFit (own_sum (language_of self.old).reports)) }
        ensures overflow { IfErr result (λ e. e ≡ CountError.Overflow) }
        ensures err { OnErr result (language_of self.new ≡ language_of self.old) }
    {
        let counts = own_sums(&self.reports)?;
        self.put_counts(counts);
        Ok(())
    }

    /// The counts with those of the texts inside: the counts of `summarise`, without its memory.
    /// `Overflow` exactly where one of the three passes the greatest `usize`.
    pub fn summary_counts(&self) -> Result<Sums, CountError>
        ensures sum { IfOk result (λ n. sums_of n ≡ language_summary (language_of self.now)) }
        ensures past { OnErr result (¬ CountsFit (language_summary (language_of self.now))) }
        ensures overflow { IfErr result (λ e. e ≡ CountError.Overflow) }
    {
        add_children(self.counts(), &self.children)
    }

    /// A copy without children, whose counts have taken in the summaries of all child reports;
    /// reports and mark stay. `Overflow` exactly where a count passes the greatest `usize`, or
    /// `Memory`.
    pub fn summarise(&self) -> Result<Language, CountError>
        ensures ok { IfOk result (λ summary.
            language_of summary ≡ summarised (language_of self.now)) }
        ensures fits { OnOk result (CountsFit (language_summary (language_of self.now))) }
        ensures overflow { IsErrOf result CountError.Overflow
            → ¬ CountsFit (language_summary (language_of self.now)) }
        ensures memory { IsErrOf result CountError.Memory
            → CountsFit (language_summary (language_of self.now)) }
    {
        let counts = self.summary_counts()?;
        Ok(Language {
            blanks: counts.blanks,
            code: counts.code,
            comments: counts.comments,
            reports: copied_reports(self.alloc, &self.reports)?,
            children: BTreeMap::new(self.alloc),
            inaccurate: self.inaccurate,
            alloc: self.alloc,
        })
    }

    /// A copy, equal by `==`, which differs from a clone in that it may be refused when out of
    /// memory.
    pub fn try_clone(&self) -> Result<Language, CountError>
        ensures ok { IfOk result (λ copy. language_of copy ≡ language_of self.now) }
        ensures equal { IfOk result (λ copy. IsTrue (⟦<Language as PartialEq>⟧.eq copy self.now)) }
        ensures memory { IfErr result (λ e. e ≡ CountError.Memory) }
    {
        let reports = copied_reports(self.alloc, &self.reports)?;
        let children = copied_children(self.alloc, &self.children)?;
        Ok(Language {
            blanks: self.blanks,
            code: self.code,
            comments: self.comments,
            reports,
            children,
            inaccurate: self.inaccurate,
            alloc: self.alloc,
        })
    }
}
