//! Tests of scripts that sessions run beside each other, and of the manager that they share. There is nothing else here.
#![tactic(auto)]

#[cfg(test)]
mod exclusion;
#[cfg(test)]
mod gates;
#[cfg(test)]
mod histories;
#[cfg(test)]
mod managers;
#[cfg(test)]
mod runs;
#[cfg(test)]
mod watched;
