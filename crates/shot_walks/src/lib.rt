//! What the latches of a request meet in its shots, in the waiting order: the first, the numbers of all, the last whose request is open, and how far a request
//! has come in waiting for them.
#![tactic(auto)]

mod first;
mod last;
mod numbers;
mod open;
mod order;
mod place;
#[cfg(test)]
mod tests;

pub use first::first_met;
pub use last::last_open;
pub use numbers::numbers_met;
pub use order::{Places, order_of};
pub use place::{Next, Place};
