//! The meaning of bound statements over tables, and laws of it.
//!
//! Definitions and laws alone: nothing here knows an index, a join order or a hash.
#![tactic(auto)]

pub mod judged;
pub mod laws;
