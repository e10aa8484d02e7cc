//! Rows of sums of statistics, and of what stands after a refused one.
use crate::every_call::counted;
use crate::made::{answers_of, say_refused, stats_of};
use test_answers::{Answers, Members, Row, RowError, has_word};
use tokei_stats::{CodeStats, CountError, Report, add_blob};
use tokei_table::LanguageTable;

/// The members of these rows. `sum` is a list of statistics, each of which has `counts` and may
/// have `blobs`, or is that of a `text` in a `language`. They are added one after another: to
/// `statistics`, to a `report`, or each of their blobs to `blobs`. After the first one that is
/// refused `error` says why, and the other members what stands then.
pub const MEMBERS: Members = Members {
    given: &["to", "sum", "table_json"],
    wanted: &["counts", "blobs", "error"],
    optional: &["summary", "lines"],
    by_table: true,
};

/// One of the statistics that are added.
fn summand(table: &LanguageTable, row: &Row, answers: &mut Answers) -> CodeStats {
    answers.only(row, "sum", &["counts", "blobs", "language", "text"]);
    if !row.has("text") {
        return stats_of(table, row, answers);
    }
    let text = answers.text(row, "text").as_bytes();
    let language = answers.text(row, "language");
    match counted(answers.alloc, table, language, None, text) {
        Ok(Some(stats)) => return stats,
        Ok(None) => answers.fail(RowError::Words("the text can't be counted")),
        Err(cause) => answers.fail(RowError::from(cause)),
    }
    CodeStats::new(answers.alloc)
}

/// All of them.
fn summands(table: &LanguageTable, row: &Row, answers: &mut Answers) -> Vec<CodeStats> {
    let mut all = Vec::new(answers.alloc);
    for value in answers.list(row, "sum") {
        if let Some(told) = answers.inner(row, "sum", value) {
            let stats = summand(table, &told, answers);
            answers.done(all.push(stats));
        }
    }
    all
}

/// Adds the blobs of some statistics to those of others.
fn add_blobs(sum: &mut CodeStats, more: CodeStats) -> Result<(), CountError> {
    for (language, blob) in more.blobs {
        add_blob(&mut sum.blobs, language, blob)?;
    }
    Ok(())
}

/// Adds statistics to a report, to its statistics, or their blobs to its blobs: one after the
/// other, up to the first that is refused.
fn add_all(to: &str, sum: &mut Report, all: Vec<CodeStats>) -> Result<(), CountError> {
    for more in all {
        let added = match to {
            "report" => sum.add(more),
            "blobs" => add_blobs(&mut sum.stats, more),
            _ => sum.stats.add(&more),
        };
        added?;
    }
    Ok(())
}

/// What the calls answer.
pub fn came(table: &LanguageTable, row: &Row, answers: &mut Answers) {
    let to = answers.text(row, "to");
    if !has_word(&["statistics", "report", "blobs"], to) {
        answers.fail(RowError::Words("nothing is added to that"));
    }
    let mut all = summands(table, row, answers);
    if all.is_empty() {
        return answers.fail(RowError::Words("there is nothing to be added"));
    }
    let mut sum = Report::new(answers.alloc, String::new(answers.alloc));
    sum.stats = all.remove(0);
    if let Err(cause) = add_all(to, &mut sum, all) {
        say_refused("error", cause, answers);
    }
    answers_of(table, &sum.stats, answers);
}
