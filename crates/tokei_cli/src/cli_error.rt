//! What a command line answers where nothing is counted.
ghost use Rattle.std.specs.Prelude.{◌≡◌};
ghost use Rattle.clap.specs.Values.{kind_of};
ghost use Rattle.tokei_cli.specs.CommandLines.{status_of};
ghost use Rattle.tokei_cli.specs.Texts.{Answers, IsShown, Refuses, Shows};

use crate::help::{HELP, VERSION_LINE};
use clap::Error;
use clap::error::ErrorKind;
use std::alloc::{AllocError, AllocFailed, Global};
use thiserror::Error as ThisError;

/// Why a command line isn't run.
#[derive(Debug, Drop, ThisError)]
pub enum CliError {
    /// An allocation failed.
    #[error("out of memory")]
    Memory,
    /// The words are refused. The text is for standard error.
    #[error("{0}")]
    Refused(String),
    /// Help or the version was asked for. The text is for standard output.
    #[error("{0}")]
    Asked(String),
}

impl CliError {
    /// The exit status: 0 where help or the version was asked for, 2 where the words are refused, 1
    /// without memory.
    pub fn status(&self) -> u8
        ensures { result ≡ status_of self.now }
    {
        match self {
            CliError::Asked(_) => 0,
            CliError::Memory => 1,
            CliError::Refused(_) => 2,
        }
    }
}

impl From<AllocError> for CliError {
    ghost use Rattle.std.specs.Prelude.{◌≡◌};
    ghost use Rattle.tokei_cli.specs.declared.cli_error.CliError.TheVariants.{Memory};

    ghost from_gives = { λ _ e. e ≡ Memory };

    fn from(_refused: AllocError) -> CliError {
        CliError::Memory
    }
}

impl<T: Drop> From<AllocFailed<T>> for CliError {
    ghost use Rattle.std.specs.Prelude.{◌≡◌};
    ghost use Rattle.tokei_cli.specs.declared.cli_error.CliError.TheVariants.{Memory};

    ghost from_gives = { λ _ e. e ≡ Memory };

    fn from(_refused: AllocFailed<T>) -> CliError {
        CliError::Memory
    }
}

/// The text that was asked for.
fn asked(alloc: Global, text: &str) -> CliError
    ensures { Shows text.now result }
{
    match String::from_str(alloc, text) {
        Ok(text) => CliError::Asked(text),
        Err(_) => CliError::Memory,
    }
}

/// Why the words are refused.
fn refused(alloc: Global, error: &Error) -> CliError
    ensures { Refuses result }
{
    match format!(in alloc; "{error}") {
        Ok(text) => CliError::Refused(text),
        Err(_) => CliError::Memory,
    }
}

/// What an error of the parse answers: its text, for the output that it belongs to.
pub(crate) fn answer(alloc: Global, error: &Error) -> CliError
    ensures kind { Answers (kind_of error.now) result }
    ensures shown { IsShown result }
{
    match error.kind() {
        ErrorKind::OutOfMemory => CliError::Memory,
        ErrorKind::DisplayHelp => asked(alloc, HELP),
        ErrorKind::DisplayVersion => asked(alloc, VERSION_LINE),
        _ => refused(alloc, error),
    }
}
