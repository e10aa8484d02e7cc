//! A table of so many languages, and languages of it with so many reports each.
use std::alloc::Global;
use tokei_languages::Languages;
use tokei_stats::{CodeStats, Report};
use tokei_table::{LanguageTable, LanguageType};
use tokei_table_json::FromJson;

/// A table of languages whose names aren't their keys.
pub fn made_table(alloc: Global, languages: usize) -> anyhow::Result<LanguageTable> {
    let mut text = String::from_str(alloc, "{\"languages\":{")?;
    for i in 0..languages {
        let comma = if i == 0 { "" } else { "," };
        let row = format!(in alloc; "{comma}\"L{i}\":{{\"name\":\"Language {i}\"}}")?;
        text.push_str(row.as_str())?;
    }
    text.push_str("}}")?;
    Ok(LanguageTable::from_json(alloc, text.as_bytes())?)
}

/// The report of a file, which holds a text of another language where one is given.
fn made_report(
    alloc: Global,
    number: usize,
    inside: Option<LanguageType>,
) -> anyhow::Result<Report> {
    let name = format!(in alloc; "./src/folder/file_{number}.txt")?;
    let mut report = Report::new(alloc, name);
    report.stats.blanks = number % 100;
    report.stats.code = number;
    report.stats.comments = number % 10;
    if let Some(inside) = inside {
        let mut blob = CodeStats::new(alloc);
        blob.code = number;
        drop(report.stats.blobs.insert(inside, blob)?);
    }
    Ok(report)
}

/// All languages of the table with so many reports each. Inside each file stands a text of the
/// language listed before its own, so that it has a report there too, or none where files are to be
/// of one language alone.
pub fn made_languages(
    alloc: Global,
    table: &LanguageTable,
    reports: usize,
    alone: bool,
) -> anyhow::Result<Languages> {
    let mut languages = Languages::new(alloc);
    let listed = LanguageType::list(alloc, table)?;
    let mut before = None;
    for (language, _extensions) in &listed {
        let inside = if alone {
            None
        } else {
            Some(before.unwrap_or(*language))
        };
        for number in 0..reports {
            languages.add_report(*language, made_report(alloc, number, inside)?)?;
        }
        before = Some(*language);
    }
    languages.renew_counts()?;
    Ok(languages)
}
