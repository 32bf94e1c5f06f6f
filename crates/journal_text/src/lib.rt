//! The text of a journal is printed to a sink, piece by piece, so that it takes no memory.
//!
//! What a sink shows of bytes that it took is the sink's.
#![tactic(auto)]

pub mod answers;
pub mod outbox;
pub mod statements;
