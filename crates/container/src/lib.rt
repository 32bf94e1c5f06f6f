//! Containers: their allocation pages, which give fresh page numbers.
#![tactic(auto)]

pub mod allocation;
#[cfg(test)]
mod tests;
