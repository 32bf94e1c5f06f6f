//! The entries of a lock table.

use crate::mode::Mode;
use crate::modes::Modes;
use crate::name::LockName;
use dby_types::number::TxnNo;

/// All that one transaction has on one name.
#[derive(Clone, Copy, Debug, PartialEq, Eq)]
pub struct Grant {
    pub txn: TxnNo,
    pub name: LockName,
    pub modes: Modes,
}

/// A mode that a transaction asks for on a name.
#[derive(Clone, Copy, Debug, PartialEq, Eq)]
pub struct Request {
    pub txn: TxnNo,
    pub name: LockName,
    pub mode: Mode,
}
