//! What is written as a JSON document is read back.
#![tactic(auto)]

pub mod laws;
pub mod run_laws;
