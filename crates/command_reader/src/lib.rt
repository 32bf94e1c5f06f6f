//! Commands of a connection, read without memory.
#![tactic(auto)]

pub mod reader;
mod spelling;
mod state;
#[cfg(test)]
mod tests;
