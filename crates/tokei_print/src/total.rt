//! The row of all languages together.
ghost use Rattle.std.specs.Prelude.{◌≡◌, ◌<◌, ◌^◌, IfOk, IfErr, IsErrOf, OnErr, string_bytes};
ghost use Rattle.tokei_languages.specs.Seen.{languages_of};
ghost use Rattle.tokei_languages.specs.Summaries.{reports_by_language};
ghost use Rattle.tokei_print.specs.Total.{report_count, total_text, TotalFits};

use crate::counts::files_and_counts;
use crate::layout::Layout;
use std::alloc::Global;
use tokei_languages::Languages;
use tokei_stats::CountError;

/// How many reports there are of all languages.
fn count_reports(languages: &Languages) -> Result<usize, CountError>
    ensures sum { IfOk result (λ n. n
        ≡ report_count (reports_by_language (languages_of languages.now))) }
    ensures past { OnErr result
        (¬ (report_count (reports_by_language (languages_of languages.now)) < 2 ^ 64)) }
    ensures overflow { IfErr result (λ e. e ≡ CountError.Overflow) }
{
    let mut files: usize = 0;
    for (_, language) in languages.iter() {
        files = match files.checked_add(language.reports.len()) {
            Some(more) => more,
            None => return Err(CountError::Overflow),
        };
    }
    Ok(files)
}

/// The row of all languages together, between two rows. `Overflow` only where a sum that it shows
/// passes the greatest `usize`.
pub(crate) fn total(
    layout: &Layout,
    alloc: Global,
    languages: &Languages,
) -> Result<String, CountError>
    ensures ok { IfOk result (λ s. string_bytes s
        ≡ total_text layout.now (languages_of languages.now)) }
    ensures overflow { IsErrOf result CountError.Overflow
        → ¬ TotalFits (languages_of languages.now) }
{
    let files = count_reports(languages)?;
    let counts = languages.summary_counts()?;
    let name = layout.name_section(alloc, languages.is_inaccurate(), "Total", "")?;
    let total = files_and_counts(name, alloc, layout.format, files, counts)?;
    let row = layout.row();
    let total = total.as_str();
    Ok(format!(in alloc; "{row}{total}{row}")?)
}
