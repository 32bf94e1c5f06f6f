//! Log records as bytes: encoded at their place, and decoded from it.
//!
//! Nothing is said of what a record does to pages: the crates above say it.
#![tactic(auto)]

mod back;
mod bodies;
mod changes;
pub mod decode;
pub mod encode;
mod field;
mod lists;
pub mod record;
pub mod size;
pub mod sum;
#[cfg(test)]
mod tests;
mod texts;
mod whole;
