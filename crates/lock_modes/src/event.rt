//! What happens in a lock table.

use crate::mode::Mode;
use crate::name::LockName;
use dby_types::number::TxnNo;

/// One change of a lock table.
#[derive(Clone, Copy, Debug, PartialEq, Eq)]
pub enum LockEvent {
    /// The transaction has the mode on the name; its queued request on it is gone.
    Granted(TxnNo, LockName, Mode),
    /// The transaction waits for the mode on the name.
    Queued(TxnNo, LockName, Mode),
    /// The transaction has nothing on the name any more.
    Released(TxnNo, LockName),
    /// The transaction has and asks for nothing any more.
    ReleasedAll(TxnNo),
    /// The transaction is the victim of a cycle.
    Chosen(TxnNo),
}
