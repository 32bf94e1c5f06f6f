//! Grants and queues of locks.
#![tactic(auto)]

pub mod asked;
pub mod better;
pub mod blocking;
pub mod freed;
pub mod hindering;
pub mod holders;
pub mod holdings;
pub mod ledger;
pub mod line;
pub mod names;
pub mod next;
pub mod owner;
pub mod owners;
pub mod places;
pub mod queue;
pub mod table;
pub mod tallies;
#[cfg(test)]
mod tests;
pub mod tickets;
pub mod tried;
pub mod unlisting;
