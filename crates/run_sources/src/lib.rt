//! The files of a run, read whole and one after the other.
//!
//! What a real file holds is not told: where the host tells the bytes, they are those of the named file.
#![tactic(auto)]

pub mod files;
#[cfg(test)]
mod tests;
mod whole;
