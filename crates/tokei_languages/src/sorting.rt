//! The order of reports.
ghost use Rattle.std.specs.Prelude.{◌≡◌};
ghost use Rattle.std.specs.Ordering.{is_lt};
ghost use Rattle.tokei_stats.specs.Seen.{counts_of};
ghost use Rattle.tokei_stats.specs.Statistics.{lines_of};
ghost use Rattle.tokei_languages.specs.Seen.{report_of};
ghost use Rattle.tokei_languages.specs.Sorting.{puts_first};

use crate::language::Language;
use crate::languages::Languages;
use std::cmp::Ordering;
use std::collections::BTreeMap;
use tokei_options::Sort;
use tokei_stats::{CodeStats, CountError, Report};
use tokei_table::LanguageType;

/// All lines of the text itself, of whatever class.
fn lines_of(stats: &CodeStats) -> u128
    ensures { result ≡ lines_of (counts_of stats.now) }
{
    stats.blanks as u128 + stats.code as u128 + stats.comments as u128
}

/// How the sort puts the first report to the second.
fn order_of(sort: Sort, first: &Report, second: &Report) -> Ordering
    ensures { is_lt result ≡ puts_first sort (report_of first.now) (report_of second.now) }
{
    match sort {
        Sort::Blanks => second.stats.blanks.cmp(&first.stats.blanks),
        Sort::Comments => second.stats.comments.cmp(&first.stats.comments),
        Sort::Code => second.stats.code.cmp(&first.stats.code),
        Sort::Files => first.name.cmp(&second.name),
        Sort::Lines => lines_of(&second.stats).cmp(&lines_of(&first.stats)),
    }
}

impl Language {
    ghost use Rattle.std.specs.Prelude.{◌≡◌, IfErr, OnOk, OnErr};
    ghost use Rattle.tokei_languages.specs.Seen.{language_of};
    ghost use Rattle.tokei_languages.specs.Sorting.{puts_first, sorted_by, IsStableSort};

    /// Sorts the reports, stably: descending by the count of the column, or by name for `Files`. A
    /// refusal, only when out of memory, changes nothing.
    pub fn sort_by(&mut self, sort: Sort) -> Result<(), CountError>
        ensures ok { OnOk result (language_of self.new ≡ sorted_by sort (language_of self.old)) }
        ensures stable { OnOk result (IsStableSort (puts_first sort)
            (language_of self.old).reports (language_of self.new).reports) }
        ensures memory { IfErr result (λ e. e ≡ CountError.Memory) }
        ensures err { OnErr result (language_of self.new ≡ language_of self.old) }
    {
        self.reports
            .sort_by(|first, second| order_of(sort, first, second))?;
        Ok(())
    }
}

/// Puts the language, with its reports sorted.
fn sort_at(
    sort: Sort,
    sorted: &mut BTreeMap<LanguageType, Language>,
    language: LanguageType,
    mut value: Language,
) -> Result<(), CountError>
    ensures ok { OnOk result (entries_of sorted.new.entries
        ≡ insert_entry nat_cmp (entries_of sorted.old.entries) language
        (sorted_by sort (language_of value))) }
    ensures memory { IfErr result (λ e. e ≡ CountError.Memory) }
{
    value.sort_by(sort)?;
    let _old = sorted.insert(language, value)?;
    Ok(())
}

ghost use Rattle.std.specs.Prelude.{IfErr, OnOk};
ghost use Rattle.std.specs.Ordering.{nat_cmp};
ghost use Rattle.std.specs.BTreeMap.{insert_entry};
ghost use Rattle.tokei_languages.specs.Seen.{entries_of, language_of};
ghost use Rattle.tokei_languages.specs.Sorting.{sorted_by};

impl Languages {
    ghost use Rattle.std.specs.Prelude.{◌≡◌, IfOk, IfErr};
    ghost use Rattle.tokei_languages.specs.Seen.{languages_of};
    ghost use Rattle.tokei_languages.specs.Sorting.{sorted_languages};

    /// The languages with the reports of each sorted as by `Language::sort_by`; refused only when
    /// out of memory.
    pub fn with_sorted_reports(self, sort: Sort) -> Result<Languages, CountError>
        ensures ok { IfOk result (λ sorted.
            languages_of sorted ≡ sorted_languages sort (languages_of self)) }
        ensures memory { IfErr result (λ e. e ≡ CountError.Memory) }
    {
        let Languages { languages, alloc } = self;
        let mut sorted = BTreeMap::new(alloc);
        for (language, value) in languages {
            sort_at(sort, &mut sorted, language, value)?;
        }
        Ok(Languages {
            languages: sorted,
            alloc,
        })
    }
}
