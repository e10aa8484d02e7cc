//! The command line: its options, what help says of them, the options that stand above the
//! configuration files, and what is printed where nothing is counted, as the list of languages.
#![tactic(auto)]

mod cli;
mod cli_error;
mod help;
mod options;
mod overriding;
mod printing;
mod refusing;
mod version;

pub use cli::Cli;
pub use cli_error::CliError;
pub use help::{HELP, VERSION_LINE};
pub use options::command;
pub use overriding::OverrideConfig;
pub use printing::{print_input_parse_failure, print_supported_languages};
pub use refusing::{refused_because, refused_word};
pub use version::crate_version;
