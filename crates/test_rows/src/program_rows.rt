//! Rows of runs, of the program, and of what a user tells it: command lines, configuration files.

pub mod command_lines;
pub mod configuration_files;
pub mod notes;
pub mod program;
pub mod program_faults;
mod reports;
mod taken;
