//! Values, rows, definitions and SQLSTATEs that every crate names.
//!
//! Plain types: what a value means in SQL is said by the crates above.
#![tactic(auto)]

pub mod answer;
pub mod copies;
pub mod definition;
pub mod number;
pub mod seq;
pub mod state;
pub mod value;
