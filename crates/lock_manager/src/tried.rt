//! The answer to a request.

use dby_types::number::TxnNo;

/// The answer to a request: it was granted, or this transaction is in the way.
#[derive(Clone, Copy, Debug, PartialEq, Eq)]
pub enum Tried {
    Granted,
    Conflict(TxnNo),
}
