//! A plan: lines that say how many steps which connection makes, one after the other.
//!
//! What a step does is the engine's.
#![tactic(auto)]

mod line;
pub mod plan;
#[cfg(test)]
mod tests;
