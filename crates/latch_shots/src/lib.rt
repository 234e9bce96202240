//! What a request captured of the held latches: shots of trees, to which a seat of its own refers, and the search for what a latch meets in them. No latch is
//! copied.
#![tactic(auto)]

mod met;
mod shots;
#[cfg(test)]
mod tests;
mod walk;

pub use met::MetLatch;
pub use shots::{Returned, Shots};
pub use walk::Walk;
