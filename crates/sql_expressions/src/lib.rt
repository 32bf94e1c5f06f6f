//! Expressions read from tokens: one token at a time, parts put together late on a stack of brackets.
//!
//! Which tokens are an expression, and what stands in front of a fault, is the grammar's to say.
#![tactic(auto)]

pub mod behind;
pub mod level;
pub mod machine;
pub mod members;
pub mod part;
pub mod wanted;
