//! What tries the contract from both sides: a store over any other that sends actors onward, and callers of any store.
//!
//! The store tells no crashes, also where the one below it does.
#![tactic(auto)]

pub mod again;
pub mod claims;
pub mod marks;
pub mod onward;
pub mod sole;
#[cfg(test)]
mod tests;
