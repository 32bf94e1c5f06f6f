//! A row store over vectors: a whole heap counts as one page, and nothing outlives the run.
//!
//! It tells no crashes. The actors that hold heaps are looked through one by one: they are at most 65.
#![tactic(auto)]

pub mod begun;
pub mod heap;
pub mod holders;
pub mod lists;
pub mod places;
pub mod store;
