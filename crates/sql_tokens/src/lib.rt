//! Single tokens of a text: each read by its rule of the grammar, or not with a reason.
//!
//! What tokens make a statement is the parser's to say.
#![tactic(auto)]

pub mod failing;
#[cfg(test)]
mod tests;
pub mod token;
