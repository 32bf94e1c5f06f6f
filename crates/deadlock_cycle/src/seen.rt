//! The transactions that a search has come to.

ghost use Rattle.std.specs.Prelude.{◌≡◌, ◌<◌, ◌++◌, [], ◌∷◌, length};
ghost use Rattle.deadlock_cycle.specs.Search.{is_seen};

use dby_types::number::TxnNo;
use lock_modes::name::is_same_txn;
use std::marker::Model;

/// At most 64 transactions.
#[derive(Debug, Drop)]
pub struct Seen {
    txns: [TxnNo; 64],
    len: usize,
}

impl Model for Seen {
    ghost use Rattle.std.specs.Prelude.{List, take, ◌≤◌};
    ghost use Rattle.dby_types.specs.declared.number.TxnNo.{TxnNo};

    ghost Value = { List TxnNo };

    ghost view = { λ s. take s.len s.txns };

    ghost invariant = { λ s. s.len ≤ 64 };
}

impl Seen {
    /// Nobody.
    pub fn new() -> Seen
        ensures { result ≡ [] }
    {
        Seen {
            txns: [TxnNo(0); 64],
            len: 0,
        }
    }

    fn as_slice(&self) -> &[TxnNo]
        ensures { result.now ≡ self.now }
    {
        &self.txns[..self.len]
    }

    /// Whether the search has come to a transaction.
    pub fn has(&self, t: TxnNo) -> bool
        ensures { result ≡ is_seen t self.now }
    {
        self.as_slice().iter().any(|u| is_same_txn(t, *u))
    }

    /// Adds a transaction at the end.
    pub fn push(&mut self, t: TxnNo)
        requires { length self.old < 64 }
        ensures { self.new ≡ self.old ++ t ∷ [] }
    {
        self.txns[self.len] = t;
        self.len += 1;
    }
}
