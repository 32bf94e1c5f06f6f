//! Statements as trees: as a text spells them, bound to a dictionary, and planned.
//!
//! Plain types: which texts spell which trees is the grammar's.
#![tactic(auto)]

pub mod bound;
pub mod expression;
pub mod plan;
pub mod statement;
