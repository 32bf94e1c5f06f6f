//! The three forms of statement that are built so far: CREATE TABLE of integers, INSERT of numbers, SELECT * of a table.
//!
//! Every other text has no form here. The parser of the whole grammar takes this crate's place.
#![tactic(auto)]

pub mod columns;
pub mod form;
pub mod tuples;
mod words;
