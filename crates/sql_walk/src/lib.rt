//! Expressions read from a text's tokens: up to their end, or to their first fault.
//!
//! Which statement an expression stands in is the parser's to say.
#![tactic(auto)]

pub mod ending;
pub mod height;
pub mod walking;
