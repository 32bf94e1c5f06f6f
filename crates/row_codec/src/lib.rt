//! Rows as bytes: the stored form of a row over its columns.
#![tactic(auto)]

pub mod read;
#[cfg(test)]
mod tests;
pub mod width;
pub mod write;
