//! The latches that are held, in counted rows: for each scope a tree of writes, a tree of reads, and a list of reads that no request has captured yet.
#![tactic(auto)]

mod capture;
mod changes;
mod counts;
mod held;
mod insert;
mod pool;
mod remove;
mod scopes;
#[cfg(test)]
mod tests;

pub use counts::Counted;
pub use held::HeldLatches;
