//! The parts of a text: each line of it that no child breaks off, the class of each, and the child
//! that opens in it.
//!
//! The choice at a place says what ends, opens or stands there, by the item that encloses the place
//! and the row of the text's language; a walk over a part makes one choice after another.
#![tactic(auto)]

mod alike;
mod beginnings;
mod calm;
mod choice;
mod class;
mod glance;
mod items;
mod line_ends;
mod line_marks;
mod line_walk;
mod matchers;
mod nested_line;
mod opening_table;
mod openings;
mod place;
mod plain_bytes;
mod reading;
mod shared_matchers;
mod table_matchers;
mod walk;

pub use calm::calm_end;
pub use class::{Class, class_of_plain, class_within, line_comment_stands};
pub use glance::next_opener;
pub use items::{Enclosure, LineItem};
pub use line_ends::{line_end, line_front, line_len, line_stop, newline_before};
pub use line_marks::LineMarks;
pub use line_walk::{LineRead, line_item, read_line};
pub use matchers::LanguageMatchers;
pub use nested_line::{NestedLine, read_nested_line};
pub use openings::Block;
pub use place::Place;
pub use reading::Reading;
pub use shared_matchers::SharedMatchers;
pub use table_matchers::TableMatchers;
pub use walk::{PartEnd, PartRead, innermost, read_part};
