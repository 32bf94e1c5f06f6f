//! The order of values, three-valued logic, and what a column keeps of a value.
//!
//! Whether two values of different kinds may be compared at all is the binder's to say.
#![tactic(auto)]

pub mod laws;
pub mod logic;
pub mod order;
pub mod storing;
#[cfg(test)]
mod tests;
pub mod text;
