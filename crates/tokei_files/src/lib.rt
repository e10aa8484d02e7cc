//! What a run counts of one file: its language, its content, what a configuration says of it, and
//! its report.
#![tactic(auto)]

mod configs;
mod contents;
mod counting;
mod error;
mod language;
mod parsing;
mod paths;
mod unread;

pub use configs::{rules, types};
pub use counting::Counting;
pub use error::ParseFault;
pub use parsing::parse_file;
pub use paths::{from_path, from_shebang};
pub use unread::note_unread;
