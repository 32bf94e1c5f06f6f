//! The words that the program is called with: `step DB PLAN S1 .. Sn`.
//!
//! How many scripts a run takes is judged behind the reading of the files.
#![tactic(auto)]

#[cfg(test)]
mod tests;
pub mod words;
