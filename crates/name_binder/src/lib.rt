//! Names looked up in a dictionary, and names that stand twice.
#![tactic(auto)]

pub mod catalog;
#[cfg(test)]
mod tests;
pub mod twice;
