//! Prints languages as a JSON document and parses them back, and has `serde_json` alone print and
//! parse the same text. It prints a line for each of these ways: its name and how many bytes the
//! text has.
//!
//! The first two words are how many languages there are, and how many files each of them has; each
//! file holds a text of one more language, and so has two reports. Behind them may stand a word:
//! with `times` each line ends in the nanoseconds of the quickest run; with `make` the languages
//! are only made, with `print` they are printed too, with `parse` the text is parsed too. Behind
//! that may stand `alone`: then each file is of one language, and has one report. Where what is
//! parsed differs from what was printed, it refuses.
use crate::document_times::{Measured, time};
use crate::document_ways::{Input, Way};
use crate::making::{made_languages, made_table};
use anyhow::bail;
use serde_json::Value;
use std::alloc::Global;
use std::time::Clock;
use tokei_earlier::Format;
use tokei_languages::Languages;
use tokei_table::LanguageTable;

/// What is done with the languages that are made.
#[derive(Clone, Copy)]
pub enum Task {
    /// Nothing.
    Make,
    /// They are printed.
    Print,
    /// They are printed, and the text is parsed.
    Parse,
    /// Each way is gone.
    Compare,
    /// Each way is gone and timed.
    Time,
}

/// Prints the line of a way.
fn print_line(
    rt: &impl Print,
    alloc: Global,
    measured: &Measured,
    bytes: usize,
    timed: bool,
) -> anyhow::Result<()> {
    let name = measured.way.name();
    let time = if timed {
        let nanoseconds = measured.least.as_nanos();
        format!(in alloc; " {nanoseconds}")?
    } else {
        String::new(alloc)
    };
    println!(rt; "{name} {bytes}{time}")?;
    Ok(())
}

/// Goes each way, and times it where that is asked for.
fn compare(
    rt: &(impl Print + Clock),
    alloc: Global,
    input: &Input,
    timed: bool,
) -> anyhow::Result<()> {
    let mut all = Vec::new(alloc);
    for way in [Way::Print, Way::Parse, Way::PrintValue, Way::ParseValue] {
        all.push(Measured::new(alloc, way, input)?)?;
    }
    if timed {
        time(rt, alloc, &mut all, input)?;
    }
    for measured in &all {
        print_line(rt, alloc, measured, input.text.len(), timed)?;
    }
    Ok(())
}

/// Goes each way with the languages, where that is asked for timed.
fn compare_all(
    rt: &(impl Print + Clock),
    alloc: Global,
    table: &LanguageTable,
    languages: &Languages,
    timed: bool,
) -> anyhow::Result<()> {
    let text = Format::Json.print(alloc, table, languages)?;
    let value = Value::from_str(alloc, text.as_str())?;
    let input = Input {
        table,
        languages,
        text: text.as_str(),
        value: &value,
    };
    compare(rt, alloc, &input, timed)
}

/// Prints the languages, and parses the text where that is asked for.
fn print_once(
    alloc: Global,
    table: &LanguageTable,
    languages: &Languages,
    parses: bool,
) -> anyhow::Result<()> {
    let text = Format::Json.print(alloc, table, languages)?;
    if parses {
        drop(Format::parse(alloc, table, text.as_str())?);
    }
    Ok(())
}

/// What documents are made of.
#[derive(Clone, Copy)]
pub struct Made {
    /// How many languages there are.
    pub languages: usize,
    /// How many files each of them has.
    pub files: usize,
    /// Whether no file holds a text of another language.
    pub alone: bool,
}

/// Makes these languages, and does that with them.
pub fn show(rt: &HostRuntime, made: Made, task: Task) -> anyhow::Result<()> {
    let alloc = rt.alloc();
    let table = made_table(alloc, made.languages)?;
    let languages = made_languages(alloc, &table, made.files, made.alone)?;
    match task {
        Task::Make => Ok(()),
        Task::Print => print_once(alloc, &table, &languages, false),
        Task::Parse => print_once(alloc, &table, &languages, true),
        Task::Compare => compare_all(rt, alloc, &table, &languages, false),
        Task::Time => compare_all(rt, alloc, &table, &languages, true),
    }
}

/// The number that a word spells. It fails at another word.
fn number(word: &str) -> anyhow::Result<usize> {
    match word.parse::<usize>() {
        Ok(number) => Ok(number),
        Err(_) => bail!("{word} is no number"),
    }
}

/// The task that a word names. It fails at another word.
fn named_task(word: &str) -> anyhow::Result<Task> {
    match word {
        "make" => Ok(Task::Make),
        "print" => Ok(Task::Print),
        "parse" => Ok(Task::Parse),
        "times" => Ok(Task::Time),
        _ => bail!("{word} is none of make, print, parse, times"),
    }
}

/// Whether files are of one language alone, as a word says. It fails at another word.
fn is_alone(word: &str) -> anyhow::Result<bool> {
    match word {
        "alone" => Ok(true),
        _ => bail!("{word} isn't alone"),
    }
}

/// Does what the words ask for. It fails where a number is missing, and at a word that isn't known.
pub fn measure(rt: &HostRuntime, words: &[String]) -> anyhow::Result<()> {
    let (languages, files, task, alone) = match words {
        [languages, files] => (languages, files, Task::Compare, false),
        [languages, files, word] => (languages, files, named_task(word.as_str())?, false),
        [languages, files, word, alone] => (
            languages,
            files,
            named_task(word.as_str())?,
            is_alone(alone.as_str())?,
        ),
        _ => bail!("behind documents stand numbers of languages and of files, a task, and alone"),
    };
    let made = Made {
        languages: number(languages.as_str())?,
        files: number(files.as_str())?,
        alone,
    };
    show(rt, made, task)
}
