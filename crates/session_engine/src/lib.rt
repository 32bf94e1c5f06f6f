//! The engine of many connections over one row store: what it keeps between any two steps, and the steps that it makes so far.
#![tactic(auto)]

mod ask;
mod asking;
mod begin;
mod beginning;
mod binding;
mod create;
mod creating;
pub mod dictionary;
pub mod engine;
mod fill;
mod filling;
mod fit;
mod follows;
mod listing;
mod next;
mod opening;
pub mod parts;
mod prepare;
mod run;
mod scan;
mod scanning;
pub mod session;
pub mod step;
mod text;
