//! Queries bound to a dictionary.
#![tactic(auto)]

pub mod chosen;
pub mod condition;
pub mod fault;
pub mod found;
pub mod group;
pub mod items;
pub mod named;
pub mod order;
pub mod query;
pub mod room;
pub mod stars;
