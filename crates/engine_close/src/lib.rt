//! An engine is closed: every open transaction is rolled back, and the log is forced. It takes no memory.
#![tactic(auto)]

pub mod close;
mod ending;
mod undoing;
