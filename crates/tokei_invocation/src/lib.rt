//! A call of the program: what it is told of its surroundings, what its command line and they name,
//! and what is said of it.
//!
//! A caller makes an `Env`, finds the table, the configuration, earlier results and the roots, and
//! says on standard error what was passed over, or why the call ended. Nothing here counts.
//! `specs/` holds what is found, the exit statuses, the messages, and the notes of a walk as lines
//! of a log.
#![tactic(auto)]

mod ending;
mod environment;
mod flaw_lines;
mod found;
mod note_lines;
mod notes;
mod reasons;
mod saying;
mod shown;
mod types;

pub use ending::Ending;
pub use environment::Env;
pub use found::{check_roots, configuration, earlier, table_of};
pub use note_lines::log_notes;
pub use notes::passed_text;
pub use reasons::{ended, run_ended};
pub use saying::{conclude, say_beside};
pub use shown::shown_notes;
