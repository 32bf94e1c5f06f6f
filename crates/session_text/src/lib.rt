//! The text of a journal of many connections, printed to a sink piece by piece, so that it takes no memory.
//!
//! What a sink shows of bytes that it took is the sink's. The place of a 42X01 and the cycle of a 40001 aren't printed yet.
#![tactic(auto)]

pub mod hearing;
pub mod sessions;
#[cfg(test)]
mod tests;
