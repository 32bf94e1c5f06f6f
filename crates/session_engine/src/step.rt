//! What one step of a connection did.

use dby_types::number::{Damage, TxnNo};
use store_api::places::Actor;

/// What happened in a step.
#[derive(Clone, Copy, Debug, PartialEq, Eq)]
pub enum Event {
    Begin,
    Prepare,
    Fix,
    LetGo,
    Lock,
    Enqueue,
    Woken,
    Read,
    Change,
    Undo,
    Rollback,
    Finish,
    Append,
    Force,
    Acknowledge,
}

/// Who is in the way: a transaction with a lock or an earlier request, or an actor with a page.
#[derive(Clone, Copy, Debug, PartialEq, Eq)]
pub enum Why {
    Lock(TxnNo),
    Latch(Actor),
}

/// Why the engine has stopped: the disk's count of faults, or what is damaged.
#[derive(Clone, Copy, Debug, PartialEq, Eq)]
pub enum Stop {
    Fault(u64),
    Damage(Damage),
}

/// How a step ended.
#[derive(Clone, Copy, Debug, PartialEq, Eq)]
pub enum Step {
    Went(Event),
    Blocked(Why),
    /// A statement was told in this step.
    Answered,
    /// The script has no further statement, and no transaction is open.
    Ended,
    /// The store has failed; each further step answers the same.
    Stopped(Stop),
    /// There was no memory to begin a statement, and nothing changed.
    Memory,
}
