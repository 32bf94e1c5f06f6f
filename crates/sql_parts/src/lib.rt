//! Parts of statements read from a text's tokens: columns, values, tables, keys, and lists of any part.
//!
//! Which parts make a statement is the parser's to say.
#![tactic(auto)]

pub mod items;
pub mod list;
pub mod names;
pub mod options;
pub mod queries;
pub mod table;
#[cfg(test)]
mod tests;
