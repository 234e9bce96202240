//! Tests of trees together with their searches and with removal. There is nothing else here.
#![tactic(auto)]

#[cfg(test)]
mod removal;
#[cfg(test)]
mod tests;
