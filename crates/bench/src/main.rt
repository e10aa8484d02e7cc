//! Measures calls of the product on data in memory. The first word says which, the others are its
//! own:
//!
//!     bench count KEY [times] [without-plain]          counts standard input by the bench table
//!     bench search KEY [times]                         searches it for a language's openers
//!     bench files NUMBER.. [times]                     counts so many made files
//!     bench documents LANGUAGES FILES [TASK [alone]]   prints a made document and parses it
//!     bench example                                    each once, of standard input, of few files
//!
//! Each module says what it prints. Where `times` stands, the quickest of five runs is printed in
//! nanoseconds.
#![tactic(auto)]

mod count;
mod count_times;
mod count_ways;
mod document_times;
mod document_ways;
mod documents;
mod file_times;
mod files;
mod made_folders;
mod making;
mod search;

use anyhow::bail;
use std::env;
use std::io::Read;

/// All of standard input.
fn input(rt: &HostRuntime) -> anyhow::Result<Vec<u8>> {
    let mut text = Vec::new(rt.alloc());
    rt.reader().read_to_end(&mut text)?;
    Ok(text)
}

/// Each measure once, with no run timed.
fn show_example(rt: &HostRuntime) -> anyhow::Result<()> {
    let text = input(rt)?;
    count::show(rt, "Rust", &text, false, true)?;
    search::show(rt, "Rust", &text, false)?;
    files::show(rt, &[400, 800], false)?;
    let made = documents::Made {
        languages: 3,
        files: 2,
        alone: false,
    };
    documents::show(rt, made, documents::Task::Compare)
}

/// Measures what the first word says.
fn measure(rt: &HostRuntime, task: &str, words: &[String]) -> anyhow::Result<()> {
    match task {
        "count" => count::measure(rt, words, &input(rt)?),
        "search" => search::measure(rt, words, &input(rt)?),
        "files" => files::measure(rt, words),
        "documents" => documents::measure(rt, words),
        "example" => show_example(rt),
        _ => bail!("{task} is none of count, search, files, documents and example"),
    }
}

fn main(rt: HostRuntime) -> anyhow::Result<()> {
    let mut words = env::args(&rt)?;
    let _program = words.next();
    let Some(task) = words.next() else {
        bail!("the first word is one of count, search, files, documents and example");
    };
    let words: Vec<String> = words.collect(rt.alloc())?;
    measure(&rt, task.as_str(), &words)
}
