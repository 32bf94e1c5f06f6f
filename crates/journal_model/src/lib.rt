//! The journal: what each statement read, changed and was told, in one order; and what makes a journal legal.
//!
//! Definitions and lemmas: who writes a journal is the engine.
#![tactic(auto)]

pub mod journal;
