//! The desk: it begins and ends requests one after another, keeps the history and the held latches, and gives each new request what it
//! captures of them.
#![tactic(auto)]

mod book;
pub mod desk;
pub mod fault;
#[cfg(test)]
mod held_open;
mod kept;
mod lanes;
pub mod limits;
#[cfg(test)]
mod meetings;
pub mod metrics;
#[cfg(test)]
mod parallel;
#[cfg(test)]
mod polls;
#[cfg(test)]
mod sessions;
#[cfg(test)]
mod tests;
