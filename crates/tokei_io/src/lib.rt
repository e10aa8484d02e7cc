//! What a program reads from and writes to: sources and sinks that count their faults, those over
//! readers and writers of the standard library, and those of which one call alone fails; a text put
//! into a sink, and why an output ended.
#![tactic(auto)]

mod counted;
mod error;
mod fail_once;
mod putting;
mod sink;
mod source;

pub use counted::Counted;
pub use error::OutputError;
pub use fail_once::FailOnce;
pub use putting::put;
pub use sink::Sink;
pub use source::Source;
