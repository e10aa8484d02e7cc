//! Rows of texts that are counted by one table, each in its language.
use crate::cut_texts::first_heavy;
use crate::made_texts::{Made, first_other};
use crate::short_texts::first_unlike;
use crate::verdict::Wrong;
use std::alloc::Global;
use tokei_count::Counter;
use tokei_options::CountConfig;
use tokei_table::{LanguageTable, LanguageType};
use tokei_table_json::FromJson;

/// The texts of a row.
pub enum Texts {
    /// Every text of at most five of these six pieces.
    Short(&'static [&'static str]),
    /// The beginnings of this text.
    Cut(&'static str),
    /// Texts made of pieces.
    Made(&'static [Made]),
}

/// A language, whether its doc strings are comments, and the texts.
pub type Row = (&'static str, Option<bool>, Texts);

/// The number, length or place of a row's first wrong text, if there is such a text; `usize::MAX`
/// where the table hasn't the language.
fn first_wrong_text(alloc: Global, counter: &Counter, row: &Row) -> Option<usize> {
    let (key, docs, texts) = row;
    let config = CountConfig {
        treat_doc_strings_as_comments: *docs,
    };
    match LanguageType::from_name(counter.table(), key) {
        Some(language) => match texts {
            Texts::Short(pieces) => first_unlike(alloc, counter, language, &config, pieces),
            Texts::Cut(text) => first_heavy(alloc, counter, language, &config, text.as_bytes()),
            Texts::Made(texts) => first_other(alloc, counter, language, &config, texts),
        },
        None => Some(usize::MAX),
    }
}

/// The first wrong row and text, if there are such; `usize::MAX` for the row where the table can't
/// be read.
pub fn first_wrong(alloc: Global, json: &[u8], rows: &[Row]) -> Option<Wrong> {
    let Ok(table) = LanguageTable::from_json(alloc, json) else {
        return Some((usize::MAX, 0));
    };
    let Ok(counter) = Counter::new(alloc, &table) else {
        return Some((usize::MAX, 1));
    };
    for (at, row) in rows.iter().enumerate() {
        if let Some(number) = first_wrong_text(alloc, &counter, row) {
            return Some((at, number));
        }
    }
    None
}
