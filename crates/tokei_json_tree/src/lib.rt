//! A JSON text as a tree that borrows its texts: it is made in half the time that the value
//! of `serde_json` takes, and stands for the same data. The keys of each object are in byte order,
//! each once, where `read` made it; `read_unordered` leaves them as they stand in the text.
#![tactic(auto)]

pub mod converted;
mod counts;
mod fractions;
mod lookups;
mod missed;
pub mod ordering;
mod passing;
mod ranges;
mod reading;
mod tree;
mod without;

pub use counts::count;
pub use fractions::has_float;
pub use lookups::{last_member, member};
pub use missed::Missed;
pub use passing::{Numbers, pass_value};
pub use ranges::{is_in_range, is_number_in_range};
pub use reading::{ReadError, Reading, Room, read, read_unordered, read_without};
pub use tree::{MAX_DEPTH, Tree, TreeItems, TreeMembers};
