//! An interval B-tree over counted rows that grows: at most 31 items and 32 children in a node, and at least 15 items in each node but the root. Each node
//! knows an item of the greatest upper bound below it. A shot of a tree shares its rows: nodes that a shot reaches are never changed, an insertion copies those
//! on its one way down.
//!
//! An insertion touches no nodes but those on its one way down, their copies, and the halves of those that are split; nodes that nobody shares are not copied.
//! Comparing two items takes 2 loads, comparing two bounds 4, and more only where the first 8 bytes of both are the same. The atomic steps of the rest:
//!
//! | What | Steps |
//! |---|---|
//! | a level of the way, where the child isn't full | 7 loads, 2 stores, 1 store more where the child was copied, a comparison of bounds, and at most 5 of items with a load of a link each |
//! | the leaf, with m items behind the place | m + 4 loads, m + 2 stores, and the same comparisons |
//! | splitting a full leaf; an inner node | 15 links move, 31 of an inner node, 2 loads and 2 stores each; of 28 items it takes 2 loads to see that they are single keys, and a comparison of bounds where they aren't; 32 bounds of children are compared. Links of the parent move by one |
//! | copying a node of n items | for each of its links, n + 1 in a leaf and 2 n + 2 above, 2 loads, 1 add and 1 store; its empty links are not looked at |
#![tactic(auto)]

mod bounds;
mod insert;
mod listing;
mod nodes;
#[cfg(test)]
mod tests;
mod tree;
pub mod workshop;

pub use tree::Tree;
