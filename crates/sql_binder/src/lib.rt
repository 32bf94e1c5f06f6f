//! Statements bound to a dictionary.
#![tactic(auto)]

pub mod answer;
pub mod bind;
pub mod built;
pub mod change;
pub mod create;
pub mod insert;
pub mod target;
#[cfg(test)]
mod tests;
