//! Adding a language to another, and taking that back.
use crate::children::{append, take_all_back};
use crate::language::Language;
use tokei_stats::CountError;
use tokei_table::LanguageType;

/// What takes a language back to what it was before another was added: its counts, how many reports
/// it had, and how many of each language inside.
#[derive(Drop)]
pub(crate) struct Before {
    pub(crate) blanks: usize,
    pub(crate) code: usize,
    pub(crate) comments: usize,
    pub(crate) reports: usize,
    pub(crate) children: Vec<(LanguageType, Option<usize>)>,
    pub(crate) inaccurate: bool,
}

impl Language {
    ghost use Rattle.std.specs.Prelude.{◌≡◌, IfOk, OnOk, OnErr, IsErrOf};
    ghost use Rattle.tokei_stats.specs.Overflow.{CountsFit};
    ghost use Rattle.tokei_stats.specs.Statistics.{plus};
    ghost use Rattle.tokei_languages.specs.Merging.{merged_language};
    ghost use Rattle.tokei_languages.specs.Seen.{language_of};
    ghost use Rattle.tokei_languages.specs.TakenBack.{restored};

    /// As `add`. The answer is what `take_back` needs.
    pub(crate) fn grow(&mut self, other: Language) -> Result<Before, CountError>
        ensures ok { OnOk result
            (language_of self.new ≡ merged_language (language_of self.old) (language_of other)) }
        ensures fits { OnOk result
            (CountsFit (plus (language_of self.old).counts (language_of other).counts)) }
        ensures overflow { IsErrOf result CountError.Overflow
            → ¬ CountsFit (plus (language_of self.old).counts (language_of other).counts) }
        ensures memory { IsErrOf result CountError.Memory
            → CountsFit (plus (language_of self.old).counts (language_of other).counts) }
        ensures back { IfOk result (λ before.
            restored before (language_of self.new) ≡ language_of self.old) }
        ensures err { OnErr result (language_of self.new ≡ language_of self.old) }
    {
        let counts = self.counts().plus(other.counts())?;
        let Language {
            blanks: _,
            code: _,
            comments: _,
            mut reports,
            children,
            inaccurate,
            alloc,
        } = other;
        self.reports.reserve(reports.len())?;
        let before = Before {
            blanks: self.blanks,
            code: self.code,
            comments: self.comments,
            reports: self.reports.len(),
            children: append(alloc, &mut self.children, children)?,
            inaccurate: self.inaccurate,
        };
        self.reports.append(&mut reports).unwrap();
        self.put_counts(counts);
        self.inaccurate = self.inaccurate || inaccurate;
        Ok(before)
    }

    /// Takes back what `grow` did.
    pub(crate) fn take_back(&mut self, before: Before)
        ensures { language_of self.new ≡ restored before (language_of self.old) }
    {
        self.blanks = before.blanks;
        self.code = before.code;
        self.comments = before.comments;
        self.reports.truncate(before.reports);
        self.inaccurate = before.inaccurate;
        take_all_back(&mut self.children, before.children);
    }
}
