//! A text counted by every call that counts texts: all tell the same statistics.
ghost use Rattle.std.specs.Prelude.{◌<◌, length};

use std::alloc::Global;
use std::str::from_utf8;
use tokei_count::{Counter, count_plain, parse_counted, parse_from_slice, parse_from_str};
use tokei_options::CountConfig;
use tokei_stats::{CodeStats, CountError};
use tokei_table::{LanguageTable, LanguageType};

/// Whether the calls before this one told these statistics, and this one does. Why the first call
/// was refused that was.
fn is_same(
    before: Result<bool, CountError>,
    told: Result<CodeStats, CountError>,
    stats: &CodeStats,
) -> Result<bool, CountError> {
    match before {
        Ok(same) => match told {
            Ok(told) => Ok(same && told == *stats),
            Err(refused) => Err(refused),
        },
        Err(refused) => Err(refused),
    }
}

/// The statistics of a text and its steps, or `None` where the statistics of two calls differ.
/// `parse_from_str` is asked of a text that is UTF-8.
pub fn agreed(
    alloc: Global,
    counter: &Counter,
    language: LanguageType,
    text: &[u8],
    config: &CountConfig,
) -> Result<Option<(CodeStats, u128)>, CountError>
    requires { language < length counter.now }
{
    let (stats, steps) = parse_counted(alloc, counter, language, text, config)?;
    let plain = count_plain(alloc, counter, language, text, config);
    let same = is_same(Ok(true), plain, &stats);
    let sliced = parse_from_slice(alloc, counter, language, text, config);
    let same = is_same(same, sliced, &stats);
    let same = match from_utf8(text) {
        Ok(text) => {
            let read = parse_from_str(alloc, counter, language, text, config);
            is_same(same, read, &stats)
        }
        Err(_) => same,
    };
    match same {
        Ok(true) => Ok(Some((stats, steps))),
        Ok(false) => Ok(None),
        Err(refused) => Err(refused),
    }
}

/// The statistics of a text and its steps, or `None` where the table hasn't the language, or two
/// calls differ.
pub fn told(
    alloc: Global,
    table: &LanguageTable,
    key: &str,
    treat_doc_strings_as_comments: Option<bool>,
    text: &[u8],
) -> Result<Option<(CodeStats, u128)>, CountError> {
    let config = CountConfig {
        treat_doc_strings_as_comments,
    };
    match Counter::new(alloc, table) {
        Ok(counter) => match LanguageType::from_name(table, key) {
            Some(language) => agreed(alloc, &counter, language, text, &config),
            None => Ok(None),
        },
        Err(_) => Err(CountError::Memory),
    }
}

/// The statistics of a text, or `None` where the table hasn't the language, or two calls differ.
pub fn counted(
    alloc: Global,
    table: &LanguageTable,
    key: &str,
    treat_doc_strings_as_comments: Option<bool>,
    text: &[u8],
) -> Result<Option<CodeStats>, CountError> {
    match told(alloc, table, key, treat_doc_strings_as_comments, text) {
        Ok(Some((stats, _))) => Ok(Some(stats)),
        Ok(None) => Ok(None),
        Err(refused) => Err(refused),
    }
}
