//! Statistics that rows say, and answers that statistics are.
use test_answers::{Answers, Page, Row, RowError, Said, put_blobs};
use tokei_stats::{CodeStats, CountError};
use tokei_table::LanguageTable;

/// The statistics that a row says: its `counts`, and its `blobs` where it has some.
pub fn stats_of(table: &LanguageTable, row: &Row, answers: &mut Answers) -> CodeStats {
    let mut stats = CodeStats::new(answers.alloc);
    (stats.blanks, stats.code, stats.comments) = answers.three(row, "counts");
    if let Some(blobs) = answers.table_if(row, "blobs") {
        put_blobs(table, &blobs, &mut stats, answers);
    }
    stats
}

/// Puts the lines of all texts inside a text, each under the key of its language, behind those of
/// the languages around it.
fn put_inside(stats: &CodeStats, table: &LanguageTable, around: &str, answers: &mut Answers) {
    for (language, blob) in &stats.blobs {
        if table.has(*language) {
            let mut keys = Page::new(answers.alloc);
            keys.put_all(&[around, language.key(table)]);
            let counts = [blob.blanks, blob.code, blob.comments];
            match keys.text() {
                Some(keys) => answers.put(keys, Said::Numbers(&counts)),
                None => answers.fail(RowError::Memory),
            }
            keys.put("/");
            put_inside(blob, table, keys.text().unwrap_or(""), answers);
        }
    }
}

/// Answers for a member by why a call refuses.
pub fn say_refused(member: &'static str, cause: CountError, answers: &mut Answers) {
    match cause {
        CountError::Memory => answers.fail(RowError::Memory),
        CountError::Overflow => answers.say(member, Said::Text("Overflow")),
    }
}

/// Answers by statistics: `counts`, and `blobs` where there are texts inside; `summary` and
/// `lines`.
pub fn answers_of(table: &LanguageTable, stats: &CodeStats, answers: &mut Answers) {
    let counts = [stats.blanks, stats.code, stats.comments];
    answers.say("counts", Said::Numbers(&counts));
    match stats.summarise() {
        Ok(all) => {
            let counts = [all.blanks, all.code, all.comments];
            answers.say("summary", Said::Numbers(&counts));
        }
        Err(cause) => say_refused("summary", cause, answers),
    }
    match stats.lines() {
        Ok(lines) => answers.say("lines", Said::Number(lines as u128)),
        Err(cause) => say_refused("lines", cause, answers),
    }
    if !stats.blobs.is_empty() {
        put_inside(stats, table, "", answers);
        answers.say_parts("blobs");
    }
}
