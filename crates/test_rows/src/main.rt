//! Asks rows of data: a row is read from TOML, public calls are asked, and what they answer is
//! compared with what the row wants. What is asked is told by a `Subject`. How rows are read and
//! compared is in `test_answers`. What asks the calls of texts is in `test_texts`, and what asks
//! those of trees in `test_trees`; what asks those of runs and of the program is here.
#![tactic(auto)]

mod file;
mod program_rows;
mod request;
mod subject;
mod told;

use file::ask_files;
use request::requested;
use std::process::ExitCode;

/// Asks the rows that the program's arguments ask for; its status tells whether all hold.
fn main(rt: HostRuntime) -> anyhow::Result<ExitCode> {
    let request = requested(&rt)?;
    if ask_files(&rt, &request)? {
        Ok(ExitCode::SUCCESS)
    } else {
        Ok(ExitCode::FAILURE)
    }
}
