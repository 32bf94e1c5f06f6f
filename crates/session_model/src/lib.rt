//! The journal of many connections, and what makes it legal: what each statement read, changed and was told, with the lock events beside.
//!
//! Definitions and lemmas: who writes a journal is the engine.
#![tactic(auto)]

pub mod journal;
pub mod order;
