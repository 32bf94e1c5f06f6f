//! Pages behind a log: redo of a page, the write-ahead rule by its purpose, and what an image of pages and log stands for.
//!
//! Definitions and laws alone; what a page holds and what a record writes on it is left open.
#![tactic(auto)]

pub mod laws;
