//! Runs a script with a worker for each session. Each worker goes over the commands of its session on one manager, and in the end the history of all of them
//! is legal and follows the script, whatever the schedule was.
#![tactic(auto)]

mod crew;
mod hand;
pub mod run;
mod session;
#[cfg(test)]
mod tests;
