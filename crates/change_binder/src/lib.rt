//! INSERT, UPDATE and DELETE bound to their table.
#![tactic(auto)]

pub mod faults;
pub mod insert;
pub mod item;
pub mod over;
pub mod target;
#[cfg(test)]
mod tests;
pub mod update;
