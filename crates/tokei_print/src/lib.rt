//! The printed report: how rows are laid out and sorted, the rows of languages, of those inside
//! them, of their files and of the total, the whole text, and the rows of a stream.
#![tactic(auto)]

mod blob_rows;
mod cells;
mod children;
mod counts;
mod file_rows;
mod heading;
mod inside;
mod joined;
mod language_row;
mod layout;
mod name_section;
mod order;
mod ordered;
mod printer;
mod report;
mod results;
mod stream_rows;
mod style;
mod subtotal;
mod total;

pub use layout::Layout;
pub use printer::Printer;
pub use report::text_of_report;
pub use stream_rows::{print_stream_heading, print_stream_row};
pub use style::ReportStyle;
