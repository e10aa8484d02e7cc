//! Statistics of texts inside a text, as a row says them.
use crate::answers::Answers;
use crate::error::RowError;
use crate::row::Row;
use tokei_stats::CodeStats;
use tokei_table::{LanguageTable, LanguageType};

/// Puts the texts inside a text to its statistics: a table of lines by the keys of languages.
pub fn put_blobs(table: &LanguageTable, blobs: &Row, stats: &mut CodeStats, answers: &mut Answers) {
    for (key, lines) in blobs.members {
        match LanguageType::from_name(table, key.as_str()) {
            Some(language) => {
                let mut blob = CodeStats::new(answers.alloc);
                (blob.blanks, blob.code, blob.comments) = answers.three_of("blobs", lines);
                answers.done(stats.blobs.insert(language, blob));
            }
            None => answers.fail(RowError::Words("the table hasn't a language of blobs")),
        }
    }
}
