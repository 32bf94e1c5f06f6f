//! One region of page frames, lent one by one.
//!
//! A frame's number that is dropped is not lent again.
#![tactic(auto)]

pub mod pool;
#[cfg(test)]
mod tests;
