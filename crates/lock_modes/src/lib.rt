//! Lock modes, their tables, lock names, lock events, and the cycles that waits can make.
//!
//! What a list of lock events means is one fold in `specs/`; this crate keeps no locks.
#![tactic(auto)]

pub mod cycle;
pub mod entry;
pub mod event;
pub mod laws;
pub mod mode;
pub mod modes;
pub mod name;
#[cfg(test)]
mod tests;
