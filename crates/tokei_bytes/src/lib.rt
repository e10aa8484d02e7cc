//! Bytes of a text: searches for the first of up to four of them, the decoding of a file's
//! contents, and the boundaries of characters.
//!
//! memchr's searches take at most three bytes, and cost some fifty instructions a call however
//! close the hit is. The searches here are for a caller that mostly looks a few bytes ahead;
//! `first_of_one` leaves far ones to memchr.
#![tactic(auto)]

mod bit_set;
mod boundaries;
mod byte_set;
mod decoding;
mod lines;
mod near;
mod one_of;
mod pairs;
mod slots;

pub use bit_set::BitSet;
pub use boundaries::find_char_boundary;
pub use byte_set::ByteSet;
pub use decoding::{decode_marked, decode_text};
pub use lines::{LineCounts, LineMasks, count_lines, line_masks};
pub use near::first_of_one;
pub use one_of::{
    BLOCK, SHORT_BLOCK, first_not_of_four, first_of_four, first_of_two_or_four,
    first_other_in_block, gap_in_block,
};
pub use pairs::next_pair;
pub use slots::{
    NO_SLOTS, are_no_slots, first_slotted, is_slotted, marks_in_block, marks_of_two, put_slot,
    put_slot_of_two, told_end,
};
