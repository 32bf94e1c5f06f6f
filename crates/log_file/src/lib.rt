//! The log as a list of records: appended, forced, and read back.
//!
//! That a sum never agrees by chance is a premise of what is read after a crash, and no promise.
#![tactic(auto)]

pub mod answer;
mod append;
mod change;
mod control;
pub mod file;
pub mod force;
mod laws;
mod places;
pub mod read;
#[cfg(test)]
mod tests;
