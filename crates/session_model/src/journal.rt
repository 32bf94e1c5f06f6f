//! The journal of an engine with many connections.

use dby_types::seq::Seq;
use journal_model::journal::Entries;
use lock_modes::event::LockEvent;

/// A lock event, and the number of entries that stood when it came.
#[derive(Clone, Copy, Debug, PartialEq, Eq)]
pub struct Locked {
    pub place: u64,
    pub event: LockEvent,
}

/// Lock events, numbered from 0. Their places never fall.
pub type LockEvents = Seq<Locked>;

/// The actual history of an engine, kept whole while the engine lives.
#[derive(Debug, Drop)]
pub struct Journal {
    pub entries: Entries,
    pub locks: LockEvents,
}
