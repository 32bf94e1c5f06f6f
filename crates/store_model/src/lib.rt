//! What a store over a log of transactions stands for, in the words of the store's contract.
//!
//! Definitions and laws alone; nothing here speaks of bytes or pages.
#![tactic(auto)]

pub mod laws;
