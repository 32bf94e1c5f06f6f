//! Logs of transactions as lists of steps: what stands, what a crash leaves, and what restart makes of it.
//!
//! Definitions and laws alone; nothing here speaks of bytes or pages.
#![tactic(auto)]

pub mod laws;
