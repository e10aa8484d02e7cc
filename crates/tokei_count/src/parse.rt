//! The calls that count a text, and look at no more of it than they must.
ghost use Rattle.std.specs.Prelude.{◌≡◌, ◌<◌, ◌≤◌, ◌^◌, length, IfOk, IsErrOf, IsOk};
ghost use Rattle.tokei_count.specs.CountedTexts.{CountsText};
ghost use Rattle.tokei_count.specs.Countings.{text_reading, text_steps, text_openings, text_work, text_weight};
ghost use Rattle.tokei_count.specs.Countings.{all_lines, HasNoOpener};
ghost use Rattle.tokei_count.specs.Steps.{capped};
ghost use Rattle.tokei_count.specs.WeightLaws.{HaveNoNotebook};
ghost use Rattle.tokei_stats.specs.Overflow.{Fits};
ghost use Rattle.tokei_stats.specs.Seen.{stats_of};

use crate::counter::Counter;
use crate::laws::lengths_fit;
use crate::plain_reading::OUTERMOST_LEVELS;
use crate::reader::Reader;
use crate::text_reading::read_text;
use std::alloc::Global;
use tokei_options::CountConfig;
use tokei_stats::{CodeStats, CountError};
use tokei_table::LanguageType;

/// Counts a text in a language of the counter's table: the statistics of its plain reading, and the
/// steps that the reading took. A line that begins plain and holds no opener of its language is
/// skipped, and takes none.
///
/// `Overflow` comes only where a count of the plain reading, at some depth, passes the greatest
/// `usize`; `Memory` only where an allocation failed. A text without opener, in a language other
/// than notebooks, takes no memory.
pub fn parse_counted(
    alloc: Global,
    counter: &Counter,
    language: LanguageType,
    text: &[u8],
    config: &CountConfig,
) -> Result<(CodeStats, u128), CountError>
    requires { language < length counter.now }
    ensures reads { IfOk result (λ r. stats_of r.0
        ≡ text_reading counter.now config.now language text.now) }
    ensures steps { IfOk result (λ r. r.1 ≡ capped (text_steps counter.now language text.now)) }
    ensures openings_at_most_steps { IfOk result
        (λ r. capped (text_openings counter.now language text.now) ≤ r.1) }
    ensures steps_at_most_work { IfOk result (λ r. r.1 ≤ text_work counter.now language text.now) }
    ensures no_steps_without_openers { HasNoOpener counter.now language text.now
        → IfOk result (λ r. r.1 ≡ 0) }
    ensures steps_at_most_weight { IfOk result (λ r. r.1
        ≤ text_weight counter.now language text.now) }
    ensures steps_at_most_bytes { HaveNoNotebook counter.now
        → IfOk result (λ r. r.1 ≤ length text.now) }
    ensures lines_at_most_weight { IfOk result (λ r. all_lines (stats_of r.0)
        ≤ text_weight counter.now language text.now) }
    ensures lines_at_most_bytes { HaveNoNotebook counter.now
        → IfOk result (λ r. all_lines (stats_of r.0) ≤ length text.now) }
    ensures no_overflow_of_light_texts { text_weight counter.now language text.now < 2 ^ 64
        → ¬ IsErrOf result CountError.Overflow }
    ensures no_overflow_without_notebooks { HaveNoNotebook counter.now
        → ¬ IsErrOf result CountError.Overflow }
    ensures never_refused_without_openers { HasNoOpener counter.now language text.now
        → IsOk result }
    ensures overflow { IsErrOf result CountError.Overflow
        → ¬ Fits (text_reading counter.now config.now language text.now) }
{
    let docs_are_comments = config.treat_doc_strings_as_comments.unwrap_or(false);
    lengths_fit(text);
    let reader = Reader {
        alloc,
        table: counter.table(),
        matchers: counter.matchers_by_language(),
        markdown: counter.markdown(),
        docs_are_comments,
        skips: true,
    };
    let read = read_text(reader, language, text, OUTERMOST_LEVELS)?;
    Ok((read.stats, read.steps))
}

/// Counts a text in a language of the counter's table: the statistics of its plain reading.
///
/// `Overflow` comes only where a count of the reading, at some depth, passes the greatest `usize`;
/// `Memory` only where an allocation failed. A text without opener, in a language other than
/// notebooks, takes no memory.
pub fn parse_from_slice(
    alloc: Global,
    counter: &Counter,
    language: LanguageType,
    text: &[u8],
    config: &CountConfig,
) -> Result<CodeStats, CountError>
    requires { language < length counter.now }
    ensures { CountsText counter.now config.now language text.now result }
{
    let (stats, _) = parse_counted(alloc, counter, language, text, config)?;
    Ok(stats)
}

/// The same of a text that is UTF-8.
pub fn parse_from_str(
    alloc: Global,
    counter: &Counter,
    language: LanguageType,
    text: &str,
    config: &CountConfig,
) -> Result<CodeStats, CountError>
    requires { language < length counter.now }
    ensures { CountsText counter.now config.now language text.now result }
{
    parse_from_slice(alloc, counter, language, text.as_bytes(), config)
}
