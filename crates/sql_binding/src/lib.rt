//! What it means to bind a statement's tree to a dictionary, and laws of it.
//!
//! Definitions and laws alone: no binder.
#![tactic(auto)]

pub mod laws;
