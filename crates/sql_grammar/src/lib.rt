//! The grammar of the SQL subset, with its laws: what a text spells, and where one goes wrong.
//!
//! Definitions and their lemmas; the parser's code stands above.
#![tactic(auto)]

pub mod laws;
pub mod symbol;
#[cfg(test)]
mod tests;
pub mod word;
