//! The text of what was counted: the document of languages, or their printed report.
ghost use Rattle.std.specs.Prelude.{◌≡◌, Err, IfOk};
ghost use Rattle.tokei_languages.specs.Seen.{languages_of};
ghost use Rattle.tokei_stats.specs.declared.error.CountError.TheVariants.{Overflow};
ghost use Rattle.tokei.specs.Texts.{IsText, TextFits};
ghost use Rattle.tokei.specs.Written.{style_of};

use crate::job::Job;
use std::alloc::Global;
use tokei_earlier::Format;
use tokei_languages::Languages;
use tokei_print::{ReportStyle, text_of_report};
use tokei_stats::CountError;
use tokei_table::LanguageTable;

/// How a job's report is laid out and sorted.
fn style_of(job: &Job) -> ReportStyle
    ensures { result ≡ style_of job.now }
{
    ReportStyle {
        columns: job.columns,
        files: job.files,
        compact: job.compact,
        sort: job.sort.or(job.config.sort),
        reverse: job.reverse,
        numbers: job.numbers,
    }
}

/// The document of languages in the format, or else their printed report, sorted where the job or
/// its configuration says so. `Overflow` only where a sum that it shows passes the greatest
/// `usize`, or `Memory`.
pub fn text_of(
    alloc: Global,
    table: &LanguageTable,
    job: &Job,
    format: Option<Format>,
    languages: Languages,
) -> Result<Vec<u8>, CountError>
    ensures text { IfOk result (λ v.
        IsText format table.now job.now (languages_of languages) v.items) }
    ensures overflow { result ≡ Err Overflow → ¬ TextFits format job.now (languages_of languages) }
{
    match format {
        Some(format) => Ok(format.print(alloc, table, &languages)?.into_bytes()),
        None => text_of_report(alloc, table, style_of(job), languages),
    }
}
