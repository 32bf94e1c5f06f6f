//! Cycles of waits in a lock table, and their victims.
//!
//! That a cycle is looked for at all isn't promised here: the engine asks after each wait.
#![tactic(auto)]

pub mod choice;
pub mod search;
pub mod seen;
#[cfg(test)]
mod tests;
