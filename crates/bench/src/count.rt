//! Counts a text in a language of the bench table, by the plain reading and as callers count, and
//! counts its newlines. It prints a line for each way of counting: its name, and the newlines, or
//! the blank, code and comment lines of the text and of all texts inside it.
//!
//! The language's key is the first word. Behind it may stand `times`, with which each line ends in
//! the nanoseconds of the quickest run, and `without-plain`, which leaves the plain reading out.
//! Where the two readings differ, it refuses.
ghost use Rattle.std.specs.Prelude.{◌<◌, length};

use crate::count_times::{Measured, time};
use crate::count_ways::{Answer, Input, Way};
use anyhow::bail;
use std::alloc::Global;
use std::time::Clock;
use test_answers::bench_json;
use tokei_count::Counter;
use tokei_table::{LanguageTable, LanguageType};
use tokei_table_json::FromJson;

/// Prints the line of a way of counting.
fn print_line(
    rt: &impl Print,
    alloc: Global,
    measured: &Measured,
    timed: bool,
) -> anyhow::Result<()> {
    let name = measured.way.name();
    let time = if timed {
        let nanoseconds = measured.least.as_nanos();
        format!(in alloc; " {nanoseconds}")?
    } else {
        String::new(alloc)
    };
    match &measured.answer {
        Answer::Newlines(count) => println!(rt; "{name} {count}{time}")?,
        Answer::Lines(stats) => {
            let sums = stats.summarise()?;
            let blanks = sums.blanks;
            let code = sums.code;
            let comments = sums.comments;
            println!(rt; "{name} {blanks} {code} {comments}{time}")?
        }
    }
    Ok(())
}

/// Counts the input in each way that is asked for.
fn compare(
    rt: &(impl Print + Clock),
    alloc: Global,
    input: &Input,
    timed: bool,
    with_plain: bool,
) -> anyhow::Result<()>
    requires { input.now.language < length input.now.counter.now }
{
    let parsed = Measured::new(alloc, Way::ParseFromSlice, input)?;
    let mut all = Vec::new(alloc);
    for way in [Way::Newlines, Way::NewlinesInTurn] {
        all.push(Measured::new(alloc, way, input)?)?;
    }
    if with_plain {
        let plain = Measured::new(alloc, Way::CountPlain, input)?;
        if plain.answer != parsed.answer {
            bail!("the two readings differ");
        }
        all.push(plain)?;
    }
    // the half is timed beside the whole
    all.push(Measured::new(alloc, Way::FirstHalf, input)?)?;
    all.push(parsed)?;
    if timed {
        time(rt, alloc, &mut all, input)?;
    }
    for measured in &all {
        print_line(rt, alloc, measured, timed)?;
    }
    Ok(())
}

/// Counts the text in each way, timed or not, with the plain reading or without.
pub fn show(
    rt: &HostRuntime,
    key: &str,
    text: &[u8],
    timed: bool,
    with_plain: bool,
) -> anyhow::Result<()> {
    let alloc = rt.alloc();
    let table = LanguageTable::from_json(alloc, bench_json())?;
    let Some(language) = LanguageType::from_name(&table, key) else {
        bail!("the bench table has no language {key}");
    };
    let counter = Counter::new(alloc, &table)?;
    let input = Input {
        counter: &counter,
        language,
        text,
    };
    compare(rt, alloc, &input, timed, with_plain)
}

/// Counts the text as the words ask for. It fails where there is none, and at a word that isn't
/// known.
pub fn measure(rt: &HostRuntime, words: &[String], text: &[u8]) -> anyhow::Result<()> {
    let [key, options @ ..] = words else {
        bail!("behind count stands the key of a language");
    };
    let mut timed = false;
    let mut with_plain = true;
    for word in options {
        match word.as_str() {
            "times" => timed = true,
            "without-plain" => with_plain = false,
            other => bail!("{other} is neither times nor without-plain"),
        }
    }
    show(rt, key.as_str(), text, timed, with_plain)
}
