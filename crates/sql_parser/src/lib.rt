//! A statement read from its text, exactly by the grammar: its tree, or where its first fault stands.
//!
//! Which tables and columns there are is not asked.
#![tactic(auto)]

pub mod changes;
pub mod definitions;
pub mod parse;
pub mod queries;
pub mod settings;
pub mod statement;
