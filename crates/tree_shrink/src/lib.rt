//! Removal from an interval B-tree over counted rows. On the way down a child of 15 items first gets more: a neighbour that has more than 15 gives it one, else
//! it becomes one with a neighbour. Nodes that a shot reaches are never changed: those on the way, and the neighbours that give, are copied.
//!
//! A removal from a tree that nobody shares copies nothing. It changes the nodes on its way and at most one neighbour a level. A first link is sought anew only
//! where what went may have had the greatest bound; where something comes, one or two comparisons of bounds decide.
#![tactic(auto)]

mod descent;
mod ends;
mod join;
mod links;
mod mend;
mod whole;

pub use whole::remove;
