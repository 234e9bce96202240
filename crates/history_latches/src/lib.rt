//! The held latches as a history says them: what a desk does with them when a request begins and when it ends. After each call they are those that the history
//! of `latch_model` has then, and a request's shots show the snapshot that the model gives it.
#![tactic(auto)]

mod latches;
#[cfg(test)]
mod tests;

pub use latches::HistoryLatches;
