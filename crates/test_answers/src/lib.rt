//! Rows of data: a row is read from TOML, the public calls that it is about are asked, and what
//! they answer is compared with what the row wants. Here is what all that ask have in common: how
//! a row is read, its tables, and what is told of its answers. Those of texts are in `test_texts`,
//! those of trees in `test_trees`, those of runs and of the program in `test_rows`. Nothing here
//! stands on what counts.
//!
//! A program that asks rows makes the `Tables` of a file, and the `Answers` of each row; who asks
//! reads the row by `Answers`, and says there what the calls answer. `Answers::finish` then tells
//! for what nothing came, and `Answers::told` has the lines that tell why the row doesn't hold.
//! `bench_json` is the text of the bench table.
#![tactic(auto)]

mod answers;
mod bench_table;
mod blobs;
mod compared;
mod error;
mod members;
mod page;
mod reading;
mod row;
mod said;
mod tables;

pub use answers::Answers;
pub use bench_table::bench_json;
pub use blobs::put_blobs;
pub use error::RowError;
pub use members::Members;
pub use page::Page;
pub use row::{Row, has_word};
pub use said::Said;
pub use tables::{Asked, Tables, made_tables, own_table, program_table};
