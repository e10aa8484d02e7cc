//! The configuration of a run, and the files that it is read from.
//!
//! A caller tells by `ConfigDirs` where a user's files are looked for, and asks any `Folders` for
//! them by `Config::read_config_files`: it returns the configuration, and a `Flaw` for each file
//! that is there and counts as empty. `Config::from_config_files` returns the configuration alone.
//! Of a `Config` a caller asks how texts are counted, by `counting`, and for the table of languages
//! with the extensions that it adds, by `extended_table`; the other members it reads.
#![tactic(auto)]

mod config;
mod document;
mod files;
mod flaws;
mod language_config;
mod languages;
mod members;

pub use config::{Config, ConfigRead};
pub use files::ConfigDirs;
pub use flaws::{Cause, Flaw, Setting};
pub use language_config::LanguageConfig;
