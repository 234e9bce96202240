//! The items of a tree that overlap a span, in the tree's order.
//!
//! A walk takes no memory and keeps its way down in itself. It leaves out each subtree whose greatest upper bound lies before the span, and ends at the first
//! item that begins past the span; so a walk with k answers follows at most 96 links a level and answer, and 96 a level more.
#![tactic(auto)]

mod cursor;
#[cfg(test)]
mod tests;
mod whole;

pub use cursor::Cursor;
pub use whole::overlapping;
