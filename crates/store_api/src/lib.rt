//! What a store of rows is: one trait that every store meets, with no word of pages, logs or images.
//!
//! Trees of index entries and the daemon's round come with indexes: they add members and clauses, and change none.
#![tactic(auto)]

pub mod answers;
pub mod places;
pub mod slot;
pub mod store;
