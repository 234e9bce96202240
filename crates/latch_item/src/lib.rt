//! Latches as the words of rows, their order, and the shape of a tree of them.
//!
//! An item is a row that says one latch: the request, the latch's place in it, the lane, the normal stamp, and the span with eight bytes a word.
#![tactic(auto)]

mod order;
mod read;
mod shot;
mod words;
mod write;

pub use order::{
    Side, begins_before, bound_cmp, is_point, item_cmp, item_overlaps, reaches, side_of,
};
pub use read::{Facts, item_facts, item_span};
pub use shot::Shot;
pub use words::{first_word, second_word};
pub use write::write_item;
