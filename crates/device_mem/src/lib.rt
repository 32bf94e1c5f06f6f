//! The outside in memory: scripts, a sink and a host that tell all, and that fail on demand.
//!
//! A call listed to fail does fail; so does one that finds no memory.
#![tactic(auto)]

pub mod call;
mod calls;
mod cut;
pub mod disk;
pub mod failing;
mod gauge;
pub mod host;
mod images;
mod latest;
pub mod log_left;
pub mod page_bytes;
mod segments;
pub mod sink;
pub mod source;
#[cfg(test)]
mod tests;
