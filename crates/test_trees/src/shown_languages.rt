//! Languages as one text: each with its counts and its reports, and then those of the languages
//! inside it. Three numbers are blank, code and comment lines, and `(!)` marks a language of which
//! a file couldn't be read.
use test_answers::{Answers, Page};
use tokei_languages::{Language, Languages, name_of};
use tokei_stats::{CodeStats, Report};
use tokei_table::LanguageTable;

/// Puts the statistics of a text under its name, behind so many blanks in two columns each, and
/// below it those of the texts inside it.
pub fn put_stats(
    stats: &CodeStats,
    table: &LanguageTable,
    depth: usize,
    name: &str,
    page: &mut Page,
) {
    for _ in 0..depth {
        page.put("  ");
    }
    page.put_counts(name, (stats.blanks, stats.code, stats.comments), "");
    for (language, blob) in &stats.blobs {
        let name = name_of(table, *language);
        put_stats(blob, table, depth.saturating_add(1), name, page);
    }
}

/// Puts reports behind so many columns.
fn put_reports(table: &LanguageTable, depth: usize, reports: &[Report], page: &mut Page) {
    for report in reports {
        put_stats(&report.stats, table, depth, report.name.as_str(), page);
    }
}

/// Puts the reports of the languages inside a language.
fn put_children(table: &LanguageTable, language: &Language, page: &mut Page) {
    for (inside, reports) in &language.children {
        page.put_all(&["  ", name_of(table, *inside), " inside\n"]);
        put_reports(table, 2, reports.as_slice(), page);
    }
}

/// Puts a language under a name.
pub fn put_language(table: &LanguageTable, name: &str, language: &Language, page: &mut Page) {
    let mark = if language.inaccurate { " (!)" } else { "" };
    let counts = (language.blanks, language.code, language.comments);
    page.put_counts(name, counts, mark);
    put_reports(table, 1, language.reports.as_slice(), page);
    put_children(table, language, page);
}

/// Says languages as one text.
pub fn say_languages(
    member: &'static str,
    table: &LanguageTable,
    languages: &Languages,
    answers: &mut Answers,
) {
    let mut page = Page::new(answers.alloc);
    for (language, value) in languages.iter() {
        put_language(table, name_of(table, *language), value, &mut page);
    }
    answers.say_page(member, &page);
}
