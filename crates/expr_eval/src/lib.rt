//! The value of an expression over a row, and of an aggregate over values.
//!
//! That an expression has the right types is the binder's to say.
#![tactic(auto)]

pub mod evaluation;
pub mod operator;
#[cfg(test)]
mod tests;
pub mod totals;
