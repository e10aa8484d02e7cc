//! Counts the blank, code and comment lines of files and folders, by language, and prints them.
#![tactic(auto)]

mod command_line;
mod memory;
mod surroundings;
mod unstarted;

use command_line::words;
use memory::keep_freed_blocks;
use std::io;
use std::io::{BufWriter, Write};
use std::process::ExitCode;
use surroundings::env_of;
use tokei_invocation::Env;
use tokei_io::Counted;
use tokei_program::program;
use tokei_real::{RealFolders, RetriedReader};
use unstarted::Unstarted;

/// Writes out what is left of the output, and returns the program's status; where that fails, it
/// returns that of a failure, and says so unless the program has failed and has said why.
fn flush_output<W: Write>(rt: &HostRuntime, status: u8, out: &mut W) -> ExitCode {
    match out.flush() {
        Ok(()) => ExitCode::from(status),
        Err(_) if status != 0 => ExitCode::from(status),
        Err(error) => {
            let _ = eprintln!(rt; "Error: the output can't be written: {error}");
            ExitCode::FAILURE
        }
    }
}

/// Runs the program with these words over real folders, and with the real ends.
fn run_with_words(rt: &HostRuntime, words: &[&str], env: &Env) -> Result<ExitCode, Unstarted> {
    let system = rt.clone()?;
    let mut out = Counted::new(BufWriter::new(rt.alloc(), io::writer(rt))?);
    let mut folders = RealFolders::new(system);
    let mut input = Counted::new(RetriedReader::new(rt.reader()));
    let stderr = rt.stderr();
    let mut err = Counted::new(io::writer(&stderr));
    let status = program(
        rt.alloc(),
        words,
        env,
        &mut folders,
        &mut input,
        &mut out,
        &mut err,
    );
    Ok(flush_output(rt, status, &mut out.inner))
}

/// Runs the program with the words that it was started with, in its surroundings.
fn run_program(rt: &HostRuntime) -> Result<ExitCode, Unstarted> {
    keep_freed_blocks(rt.alloc());
    let all = words(rt)?;
    let words: Vec<&str> = all.iter().map(|word| word.as_str()).collect(rt.alloc())?;
    let env = env_of(rt)?;
    run_with_words(rt, &words, &env)
}

/// Says why the program isn't run, and returns the status of that.
fn say_why(rt: &HostRuntime, why: &Unstarted) -> ExitCode {
    match why {
        Unstarted::Refused(text) => {
            let _ = eprint!(rt; "{text}");
            ExitCode::from(2)
        }
        Unstarted::Failed(error) => {
            let _ = eprintln!(rt; "Error: {error}");
            ExitCode::FAILURE
        }
    }
}

fn main(rt: HostRuntime) -> ExitCode {
    match run_program(&rt) {
        Ok(status) => status,
        Err(why) => say_why(&rt, &why),
    }
}
