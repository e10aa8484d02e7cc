//! Searches a text for the openers of a language of the bench table, and prints the place of the
//! first one, or `none`. The language's key is the first word. Where the second one is `times`, it
//! prints instead how many nanoseconds the search takes, and how many the search for one byte that
//! C texts haven't.
use anyhow::bail;
use memchr::memchr;
use std::alloc::Global;
use std::io;
use std::time::{Duration, Instant};
use test_answers::bench_json;
use tokei_table::{LanguageTable, LanguageType};
use tokei_table_json::{FromJson, TableError};
use tokei_table_search::OpenerIndex;

/// Of so many runs the quickest one stands.
const RUNS: usize = 5;

/// A byte that texts in C haven't.
const ABSENT: u8 = 1;

/// The openers of the language with that key, where the bench table has it.
fn index_of(alloc: Global, key: &str) -> Result<Option<OpenerIndex>, TableError> {
    let table = LanguageTable::from_json(alloc, bench_json())?;
    match LanguageType::from_name(&table, key) {
        Some(language) => {
            let openers = language.openers(alloc, &table)?;
            Ok(Some(OpenerIndex::of_texts(alloc, openers)?))
        }
        None => Ok(None),
    }
}

/// Prints a place, or that there is none.
fn print_place(rt: &HostRuntime, found: Option<usize>) -> io::Result<()> {
    match found {
        Some(place) => println!(rt; "{place}"),
        None => println!(rt; "none"),
    }
}

/// How long the quickest search takes for the openers, and for the absent byte.
fn times(rt: &HostRuntime, index: &OpenerIndex, text: &[u8]) -> io::Result<(Duration, Duration)> {
    let mut openers = Duration::MAX;
    let mut byte = Duration::MAX;
    for _ in 0..RUNS {
        let begun = Instant::now(rt)?;
        let found = index.first_in(text);
        openers = openers.min(begun.elapsed(rt)?);
        // what is found has to be used, or the search could be left out
        if found.is_some() {
            println!(rt; "an opener stands in the text")?;
        }
        let begun = Instant::now(rt)?;
        let found = memchr(ABSENT, text);
        byte = byte.min(begun.elapsed(rt)?);
        if found.is_some() {
            println!(rt; "the byte stands in the text")?;
        }
    }
    Ok((openers, byte))
}

/// Searches the text for the openers of the language with that key, timed or not.
pub fn show(rt: &HostRuntime, key: &str, text: &[u8], timed: bool) -> anyhow::Result<()> {
    let Some(index) = index_of(rt.alloc(), key)? else {
        bail!("the bench table has no language {key}");
    };
    if !timed {
        print_place(rt, index.first_in(text))?;
        return Ok(());
    }
    let (openers, byte) = times(rt, &index, text)?;
    let openers = openers.as_nanos();
    let byte = byte.as_nanos();
    println!(rt; "openers {openers}\nbyte {byte}")?;
    Ok(())
}

/// Searches the text as the words ask for. It fails where there is none, and at a word that isn't
/// known.
pub fn measure(rt: &HostRuntime, words: &[String], text: &[u8]) -> anyhow::Result<()> {
    match words {
        [key] => show(rt, key.as_str(), text, false),
        [key, word] if word.as_str() == "times" => show(rt, key.as_str(), text, true),
        _ => bail!("behind search stand the key of a language, and times where it is timed"),
    }
}
