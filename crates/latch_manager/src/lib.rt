//! The latch manager: a desk behind a mutex, and waiting outside it.
#![tactic(auto)]

pub mod gate;
pub mod manager;
pub mod patience;
pub mod wait;
mod wakes;
