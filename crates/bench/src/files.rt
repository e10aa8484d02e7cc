//! Counts the files of folders that make their answers as they are asked. It prints a line for each
//! number of files: that number, and how many lines of them are blank, code and comments.
//!
//! Each word is a number of files, of which each of 200 folders has as many; a file has 1 KiB.
//! Behind them may stand `times`, with which each line ends in the nanoseconds of the quickest run.
//! Where not every file is counted, it refuses.
use crate::file_times::{Measured, time};
use anyhow::bail;
use std::alloc::Global;
use test_answers::bench_json;
use tokei_table::LanguageTable;
use tokei_table_json::FromJson;

/// Prints the line of a number of files.
fn print_line(
    rt: &impl Print,
    alloc: Global,
    measured: &Measured,
    timed: bool,
) -> anyhow::Result<()> {
    let (blanks, code, comments) = measured.lines;
    let time = if timed {
        let nanoseconds = measured.least.as_nanos();
        format!(in alloc; " {nanoseconds}")?
    } else {
        String::new(alloc)
    };
    let files = measured.files;
    println!(rt; "{files} {blanks} {code} {comments}{time}")?;
    Ok(())
}

/// Counts each of these numbers of files, timed or not.
pub fn show(rt: &HostRuntime, numbers: &[usize], timed: bool) -> anyhow::Result<()> {
    let alloc = rt.alloc();
    let table = LanguageTable::from_json(alloc, bench_json())?;
    let mut all = Vec::new(alloc);
    for files in numbers {
        all.push(Measured::new(alloc, &table, *files)?)?;
    }
    if timed {
        time(rt, alloc, &table, &mut all)?;
    }
    for measured in &all {
        print_line(rt, alloc, measured, timed)?;
    }
    Ok(())
}

/// Counts as many files as the words ask for. It fails at a word that is neither a number nor
/// `times`.
pub fn measure(rt: &HostRuntime, words: &[String]) -> anyhow::Result<()> {
    let mut numbers = Vec::new(rt.alloc());
    let mut timed = false;
    for word in words {
        match (word.as_str(), word.as_str().parse::<usize>()) {
            ("times", _) => timed = true,
            (_, Ok(number)) => numbers.push(number)?,
            (other, Err(_)) => bail!("{other} is neither a number of files nor times"),
        }
    }
    show(rt, &numbers, timed)
}
