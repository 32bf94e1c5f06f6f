//! Scripts and statements as tokens with their spans.
//!
//! Which words and signs make a statement is the parser's to say.
#![tactic(auto)]

pub mod byte;
pub mod kind;
pub mod laws;
pub mod reading;
pub mod reserved;
pub mod splitting;
#[cfg(test)]
mod tests;
pub mod token;
pub mod tokens;
