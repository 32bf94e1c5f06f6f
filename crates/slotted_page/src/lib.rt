//! Pages of records: 4,096 bytes seen as fields and a list of records with flags.
#![tactic(auto)]

mod check;
mod edit;
mod field;
pub mod flags;
pub mod kind;
pub mod page;
pub mod page_mut;
mod place;
pub mod read;
mod sum;
#[cfg(test)]
mod tests;
