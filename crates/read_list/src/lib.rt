//! Read latches that no request has captured yet: owned items in a list that runs through their own words, so it takes no memory.
//!
//! A push is three stores, and an unlink or a pop two loads and at most two stores, however long the list is.
#![tactic(auto)]

mod list;
#[cfg(test)]
mod tests;

pub use list::ReadList;
