//! Texts read by hand: the trees and the places of faults that the grammar gives them.
//!
//! Tests alone.
#![tactic(auto)]

#[cfg(test)]
mod cuts;
#[cfg(test)]
mod expressions;
#[cfg(test)]
mod statements;
#[cfg(test)]
mod walks;
