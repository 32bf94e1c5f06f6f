//! That the order of texts, which goes by bytes, is the order of their code points.
//!
//! Only for texts that are UTF-8; other bytes spell no code points.
#![tactic(auto)]

pub mod order;
#[cfg(test)]
mod tests;
