//! Rows of reports: how they are shown, and which are equal.
use crate::made::stats_of;
use test_answers::{Answers, Members, Page, Row, RowError, Said};
use tokei_stats::Report;
use tokei_table::LanguageTable;

/// The members of these rows. A report has a `name`, which is `called` here, `counts` and `blobs`.
/// `shown` is its row in a `width`, or in the one that it is shown in where none is said;
/// `equals_other` whether it equals a second report.
pub const MEMBERS: Members = Members {
    given: &["called", "counts", "blobs", "width", "other", "table_json"],
    wanted: &["equals_other"],
    optional: &["shown", "length", "debug", "equals_copy"],
    by_table: true,
};

/// The report that a row says.
fn report_of(table: &LanguageTable, row: &Row, answers: &mut Answers) -> Report {
    let called = answers.text(row, "called");
    let name = answers.string(called);
    let mut report = Report::new(answers.alloc, name);
    report.stats = stats_of(table, row, answers);
    report
}

/// Answers by how a report is shown in the width that a row says, or in its own where the row says
/// none.
fn say_shown(report: &Report, row: &Row, answers: &mut Answers) {
    let mut page = Page::new(answers.alloc);
    if row.has("width") {
        let width = answers.place(row, "width");
        if width <= 65_535 {
            page.put_shown(&report.display_in(width));
        } else {
            answers.fail(RowError::Words("the width is above 65535"));
        }
    } else {
        page.put_shown(report);
    }
    answers.say_page("shown", &page);
    let length = page.text().unwrap_or("").len();
    answers.say("length", Said::Number(length as u128));
}

/// Answers by whether a report equals a copy of it, and whether it equals the row's other one.
fn say_equal(table: &LanguageTable, report: &Report, row: &Row, answers: &mut Answers) {
    match report.try_clone() {
        Ok(copy) => answers.say("equals_copy", Said::Flag(copy == *report)),
        Err(cause) => answers.fail(RowError::from(cause)),
    }
    if let Some(other) = answers.table_if(row, "other") {
        answers.only(&other, "other", &["called", "counts", "blobs"]);
        let other = report_of(table, &other, answers);
        answers.say("equals_other", Said::Flag(*report == other));
    }
}

/// What the calls answer.
pub fn came(table: &LanguageTable, row: &Row, answers: &mut Answers) {
    let report = report_of(table, row, answers);
    say_shown(&report, row, answers);
    answers.say_debug("debug", &report);
    say_equal(table, &report, row, answers);
}
