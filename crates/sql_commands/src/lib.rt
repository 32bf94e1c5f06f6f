//! Commands of a connection: COMMIT, ROLLBACK, AUTOCOMMIT and SET ISOLATION.
#![tactic(auto)]

pub mod command;
#[cfg(test)]
mod tests;
