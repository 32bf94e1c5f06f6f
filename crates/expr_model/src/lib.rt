//! What an expression gives of a row, and what an aggregate gives of values: definitions alone.
#![tactic(auto)]

pub mod evaluated;
