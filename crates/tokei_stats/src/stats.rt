//! The statistics of a text: a tree of counts.
use crate::error::CountError;
use crate::sums::Sums;
use std::alloc::Global;
use std::collections::BTreeMap;
use std::fmt;
use tokei_table::LanguageType;

/// How many lines of a text are blank, code and comments, and the same of the texts of other
/// languages inside it.
#[derive(PartialEq, Drop)]
pub struct CodeStats {
    pub blanks: usize,
    pub code: usize,
    pub comments: usize,
    /// The statistics of the texts inside, added up by language; they aren't in the three numbers
    /// above.
    pub blobs: BTreeMap<LanguageType, CodeStats>,
    alloc: Global,
}

// The allocator is no member that a reader of the text knows.
impl fmt::Debug for CodeStats {
    fn fmt<W: fmt::Write>(&self, f: &mut fmt::Formatter<W>) -> fmt::Result {
        f.debug_struct("CodeStats")
            .field("blanks", &self.blanks)
            .field("code", &self.code)
            .field("comments", &self.comments)
            .field("blobs", &self.blobs)
            .finish()
    }
}

impl CodeStats {
    ghost use Rattle.std.specs.Prelude.{◌≡◌, ◌≢◌, ◌<◌, Err, IfOk, IsOk, OnOk, OnErr};
    ghost use Rattle.std.specs.Prelude.{IfErr, IfSome, IsErrOf, IsTrue};
    ghost use Rattle.tokei_stats.specs.Statistics.{blobs, empty, sum, summary, lines_of, plus};
    ghost use Rattle.tokei_stats.specs.Statistics.Statistics.{node};
    ghost use Rattle.tokei_stats.specs.Statistics.Blobs.{blob, none};
    ghost use Rattle.tokei_stats.specs.Overflow.{CountsFit, Fits};
    ghost use Rattle.tokei_stats.specs.Seen.{stats_of, counts_of, sums_of, blobs_of, entries_of};

    /// No lines and no blobs; takes no memory.
    pub fn new(alloc: Global) -> Self
        ensures { stats_of result ≡ empty }
    {
        CodeStats::assembled(alloc, Sums::new(), BTreeMap::new(alloc))
    }

    /// The counts of the text itself.
    pub fn own_counts(&self) -> Sums
        ensures { sums_of result ≡ counts_of self.now }
    {
        Sums {
            blanks: self.blanks,
            code: self.code,
            comments: self.comments,
        }
    }

    /// All lines of the text itself, of whatever class; refused with `Overflow` where their number
    /// passes the greatest `usize`.
    pub fn lines(&self) -> Result<usize, CountError>
        ensures sum { IfOk result (λ n. n ≡ lines_of (counts_of self.now)) }
        ensures past { OnErr result (usize.MAX < lines_of (counts_of self.now)) }
        ensures overflow { IfErr result (λ e. e ≡ CountError.Overflow) }
    {
        match self.blanks.checked_add(self.code) {
            None => Err(CountError::Overflow),
            Some(begun) => match begun.checked_add(self.comments) {
                None => Err(CountError::Overflow),
                Some(all) => Ok(all),
            },
        }
    }

    /// A copy, equal by `==`, which differs from a clone in that it may be refused when out of
    /// memory; without blobs it takes none.
    pub fn try_clone(&self) -> Result<CodeStats, CountError>
        ensures ok { IfOk result (λ s. stats_of s ≡ stats_of self.now) }
        ensures equal { IfOk result (λ s. IsTrue (⟦<CodeStats as PartialEq>⟧.eq s self.now)) }
        ensures fits { IfOk result (λ s. Fits (stats_of s)) }
        ensures memory { IfErr result (λ e. e ≡ CountError.Memory) }
        ensures free { blobs (stats_of self.now) ≡ none → IsOk result }
    {
        let mut blobs = BTreeMap::new(self.alloc);
        for (language, stats) in self.blobs.iter() {
            let copy = stats.try_clone()?;
            put(&mut blobs, *language, copy)?;
        }
        let (blanks, code, comments) = (self.blanks, self.code, self.comments);
        Ok(CodeStats {
            blanks,
            code,
            comments,
            blobs,
            alloc: self.alloc,
        })
    }

    /// The statistics of a text with these own counts and these blobs.
    pub fn assembled(
        alloc: Global,
        own: Sums,
        blobs: BTreeMap<LanguageType, CodeStats>,
    ) -> CodeStats
        ensures { stats_of result ≡ node (sums_of own) (blobs_of (entries_of blobs.entries)) }
    {
        CodeStats {
            blanks: own.blanks,
            code: own.code,
            comments: own.comments,
            blobs,
            alloc,
        }
    }

    /// The sum of `other` and this, by number and by language.
    fn added_to(&self, other: &CodeStats) -> Result<CodeStats, CountError>
        ensures ok { IfOk result (λ s. stats_of s ≡ sum (stats_of other.now) (stats_of self.now)) }
        ensures fits { OnOk result (Fits (sum (stats_of other.now) (stats_of self.now))) }
        ensures overflow { IsErrOf result CountError.Overflow
            → ¬ Fits (sum (stats_of other.now) (stats_of self.now)) }
        ensures free { blobs (stats_of self.now) ≡ none → blobs (stats_of other.now) ≡ none
            → result ≢ Err CountError.Memory }
    {
        let own = other.own_counts().plus(self.own_counts())?;
        let CodeStats {
            blanks: _,
            code: _,
            comments: _,
            mut blobs,
            alloc,
        } = other.try_clone()?;
        for (language, stats) in self.blobs.iter() {
            let both = match blobs.get(language) {
                Some(mine) => stats.added_to(mine)?,
                None => stats.try_clone()?,
            };
            put(&mut blobs, *language, both)?;
        }
        Ok(CodeStats::assembled(alloc, own, blobs))
    }

    /// Adds the other statistics, by number and by language, at every depth. `Overflow` exactly
    /// where a sum of two numbers passes the greatest `usize`, or `Memory`, which comes only where
    /// one of both has blobs; a refusal changes nothing.
    pub fn add(&mut self, other: &CodeStats) -> Result<(), CountError>
        ensures ok { OnOk result
            (stats_of self.new ≡ sum (stats_of self.old) (stats_of other.now)) }
        ensures fits { OnOk result (Fits (sum (stats_of self.old) (stats_of other.now))) }
        ensures overflow { IsErrOf result CountError.Overflow
            → ¬ Fits (sum (stats_of self.old) (stats_of other.now)) }
        ensures err { OnErr result (self.new ≡ self.old) }
        ensures free { blobs (stats_of self.old) ≡ none → blobs (stats_of other.now) ≡ none
            → result ≢ Err CountError.Memory }
    {
        *self = other.added_to(self)?;
        Ok(())
    }

    /// Adds other statistics that have no blobs: the three numbers. A refusal changes nothing.
    fn add_lines(&mut self, other: &CodeStats) -> Result<(), CountError>
        requires { blobs (stats_of other.now) ≡ none }
        ensures ok { OnOk result
            (stats_of self.new ≡ sum (stats_of self.old) (stats_of other.now)) }
        ensures overflow { IsErrOf result CountError.Overflow
            → ¬ Fits (sum (stats_of self.old) (stats_of other.now)) }
        ensures err { OnErr result (self.new ≡ self.old) }
    {
        let both = self.own_counts().plus(other.own_counts())?;
        self.set_counts(both);
        Ok(())
    }

    /// Gives the text itself these counts.
    fn set_counts(&mut self, counts: Sums)
        ensures { stats_of self.new ≡ node (sums_of counts) (blobs (stats_of self.old)) }
    {
        self.blanks = counts.blanks;
        self.code = counts.code;
        self.comments = counts.comments;
    }

    /// The language and the counts of the blob, where there is just one, and none inside it.
    fn only_blob(&self) -> Option<(LanguageType, Sums)>
        ensures { IfSome result (λ b. blobs (stats_of self.now)
            ≡ blob b.0 (node (sums_of b.1) none) none) }
    {
        if self.blobs.len() != 1 {
            return None;
        }
        match self.blobs.first_key_value() {
            Some((language, stats)) if stats.blobs.is_empty() => {
                Some((*language, stats.own_counts()))
            }
            _ => None,
        }
    }

    /// Adds the other statistics, as `add`; with no copy where they have no blobs, or just one, of
    /// a language that stands here too.
    fn join(&mut self, other: &CodeStats) -> Result<(), CountError>
        ensures ok { OnOk result
            (stats_of self.new ≡ sum (stats_of self.old) (stats_of other.now)) }
        ensures overflow { IsErrOf result CountError.Overflow
            → ¬ Fits (sum (stats_of self.old) (stats_of other.now)) }
        ensures err { OnErr result (self.new ≡ self.old) }
    {
        if other.blobs.is_empty() {
            return self.add_lines(other);
        }
        if let Some((language, counts)) = other.only_blob() {
            if let Some(there) = self.blobs.get(&language) {
                let own = self.own_counts().plus(other.own_counts())?;
                let inner = there.own_counts().plus(counts)?;
                // Up to here nothing has changed; from here nothing is refused.
                if let Some(there) = self.blobs.get_mut(&language) {
                    there.set_counts(inner);
                }
                self.set_counts(own);
                return Ok(());
            }
        }
        self.add(other)
    }

    /// The counts of this text and of all texts inside it, added up: the counts of `summarise`,
    /// without its memory. `Overflow` exactly where one of the three numbers passes the greatest
    /// `usize`.
    pub fn summary_counts(&self) -> Result<Sums, CountError>
        ensures sum { IfOk result (λ n. sums_of n ≡ summary (stats_of self.now)) }
        ensures past { OnErr result (¬ CountsFit (summary (stats_of self.now))) }
        ensures overflow { IfErr result (λ e. e ≡ CountError.Overflow) }
    {
        let mut sums = self.own_counts();
        for (_, stats) in self.blobs.iter() {
            let inner = stats.summary_counts()?;
            sums = sums.plus(inner)?;
        }
        Ok(sums)
    }

    /// The counts of this text and of all texts inside it, added up, with no blobs. `Overflow`
    /// exactly where one of the three numbers passes the greatest `usize`.
    pub fn summarise(&self) -> Result<CodeStats, CountError>
        ensures sum { IfOk result (λ s. stats_of s ≡ node (summary (stats_of self.now)) none) }
        ensures past { OnErr result (¬ CountsFit (summary (stats_of self.now))) }
        ensures overflow { IfErr result (λ e. e ≡ CountError.Overflow) }
    {
        let sums = self.summary_counts()?;
        Ok(CodeStats::assembled(self.alloc, sums, BTreeMap::new(self.alloc)))
    }
}

ghost use Rattle.std.specs.Prelude.{◌≡◌, IfErr, OnOk, OnErr, IsErrOf};
ghost use Rattle.std.specs.Ordering.{nat_cmp};
ghost use Rattle.std.specs.BTreeMap.{insert_entry};
ghost use Rattle.tokei_stats.specs.Overflow.{Fits};
ghost use Rattle.tokei_stats.specs.Seen.{blobs_of, entries_of, stats_of};
ghost use Rattle.tokei_stats.specs.Statistics.{sum, at, put, joined};

/// Puts the statistics at the language.
fn put(
    blobs: &mut BTreeMap<LanguageType, CodeStats>,
    language: LanguageType,
    stats: CodeStats,
) -> Result<(), CountError>
    ensures ok { OnOk result
        (blobs.new.entries ≡ insert_entry nat_cmp blobs.old.entries language stats) }
    ensures err { OnErr result (blobs.new.entries ≡ blobs.old.entries) }
    ensures memory { IfErr result (λ e. e ≡ CountError.Memory) }
{
    let _old = blobs.insert(language, stats)?;
    Ok(())
}

/// Adds the statistics to those of the language. A refusal leaves the map as it was.
pub fn add_blob(
    blobs: &mut BTreeMap<LanguageType, CodeStats>,
    language: LanguageType,
    stats: CodeStats,
) -> Result<(), CountError>
    ensures ok { OnOk result (blobs_of (entries_of blobs.new.entries)
        ≡ put (blobs_of (entries_of blobs.old.entries)) language
        (joined (at (blobs_of (entries_of blobs.old.entries)) language)
        (λ s. sum s (stats_of stats)) (stats_of stats))) }
    ensures err { OnErr result (blobs.new.entries ≡ blobs.old.entries) }
    ensures overflow { IsErrOf result CountError.Overflow
        → ¬ Fits (joined (at (blobs_of (entries_of blobs.old.entries)) language)
        (λ s. sum s (stats_of stats)) (stats_of stats)) }
{
    if let Some(there) = blobs.get_mut(&language) {
        return there.join(&stats);
    }
    put(blobs, language, stats)
}
