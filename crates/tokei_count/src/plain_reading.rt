//! The plain reading, in which no line is skipped.
ghost use Rattle.std.specs.Prelude.{◌≡◌, ◌<◌, length, IfOk, IsErrOf};
ghost use Rattle.tokei_count.specs.Countings.{text_plain_steps, text_reading};
ghost use Rattle.tokei_count.specs.Steps.{capped};
ghost use Rattle.tokei_stats.specs.Overflow.{Fits};
ghost use Rattle.tokei_stats.specs.Seen.{stats_of};

use crate::counter::Counter;
use crate::reader::Reader;
use crate::text_reading::read_text;
use std::alloc::Global;
use tokei_options::CountConfig;
use tokei_stats::{CodeStats, CountError};
use tokei_table::LanguageType;

/// How deep children of the outermost text are read.
pub(crate) const OUTERMOST_LEVELS: u32 = 50;

/// Counts a text in a language of the counter's table by the plain reading, in which no line is
/// skipped, and the steps that the reading took: one for each choice in the text and one for each
/// child, through all children.
///
/// `Overflow` comes only where a count of the reading, at some depth, passes the greatest `usize`;
/// `Memory` only where an allocation failed. Children are read 50 levels deep.
pub fn count_plain_counted(
    alloc: Global,
    counter: &Counter,
    language: LanguageType,
    text: &[u8],
    config: &CountConfig,
) -> Result<(CodeStats, u128), CountError>
    requires { language < length counter.now }
    ensures reads { IfOk result (λ r. stats_of r.0
        ≡ text_reading counter.now config.now language text.now) }
    ensures steps { IfOk result (λ r. r.1
        ≡ capped (text_plain_steps counter.now language text.now)) }
    ensures overflow { IsErrOf result CountError.Overflow
        → ¬ Fits (text_reading counter.now config.now language text.now) }
{
    let docs_are_comments = config.treat_doc_strings_as_comments.unwrap_or(false);
    let reader = Reader {
        alloc,
        table: counter.table(),
        matchers: counter.matchers_by_language(),
        markdown: counter.markdown(),
        docs_are_comments,
        skips: false,
    };
    let read = read_text(reader, language, text, OUTERMOST_LEVELS)?;
    Ok((read.stats, read.steps))
}

/// Counts a text in a language of the counter's table by the plain reading, in which no line is
/// skipped.
///
/// `Overflow` comes only where a count of the reading, at some depth, passes the greatest `usize`;
/// `Memory` only where an allocation failed. Children are read 50 levels deep.
pub fn count_plain(
    alloc: Global,
    counter: &Counter,
    language: LanguageType,
    text: &[u8],
    config: &CountConfig,
) -> Result<CodeStats, CountError>
    requires { language < length counter.now }
    ensures reads { IfOk result (λ s. stats_of s
        ≡ text_reading counter.now config.now language text.now) }
    ensures overflow { IsErrOf result CountError.Overflow
        → ¬ Fits (text_reading counter.now config.now language text.now) }
{
    let (stats, _) = count_plain_counted(alloc, counter, language, text, config)?;
    Ok(stats)
}
