//! A walk of an engine by a plan: line by line, each so many steps of a connection.
#![tactic(auto)]

#[cfg(test)]
mod tests;
pub mod walk;
