//! The statistics of a text and of the texts of other languages inside it: their sums and
//! summaries, a file's report, the row that shows a report, and the laws of sums, summaries and
//! order.
#![tactic(auto)]

mod counts_cells;
mod error;
pub mod laws;
mod name_cell;
mod report;
mod report_row;
pub mod shown;
mod stats;
pub mod sum_laws;
mod sums;

pub use counts_cells::CountsCells;
pub use error::CountError;
pub use report::Report;
pub use report_row::ReportRow;
pub use stats::{CodeStats, add_blob};
pub use sums::Sums;
