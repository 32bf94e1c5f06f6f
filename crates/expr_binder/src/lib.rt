//! Expressions bound to the tables of FROM: names become places, each node gets its type, and the fault that is told is kept.
#![tactic(auto)]

pub mod condition;
pub mod expression;
pub mod leaf;
pub mod names;
pub mod order;
#[cfg(test)]
mod tests;
pub mod tree;
pub mod types;
pub mod walk;
