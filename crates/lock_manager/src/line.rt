//! A line of queued requests, and the same by name.

ghost use Rattle.std.specs.Prelude.{◌≡◌, ◌≤◌, ◌<◌, ◌+◌, ◌++◌, ◌∷◌, [], true, false, not, ◌&&◌, MatchOption, OnOk, Some, length, take};
ghost use Rattle.std.specs.HashMap.{spare};
ghost use Rattle.std.specs.Vec.{vec_len, vec_capacity};
ghost use Rattle.lock_manager.specs.Asked.{IsByName, is_apart};

use crate::asked::{self, Asked};
use crate::ledger::Ledger;
use crate::tickets::place_at;
use dby_types::number::TxnNo;
use lock_modes::entry::Request;
use lock_modes::mode::Mode;
use lock_modes::name::LockName;
use std::alloc::{AllocError, Global};
use std::collections::HashMap;

/// Queued requests, the oldest first, listed by name too.
#[derive(Drop)]
pub struct Line {
    pub line: Vec<Request>,
    pub asked: Asked,
    ghost by_name: { IsByName asked line.items },
    ghost apart: { is_apart line.items ≡ true },
}

impl Line {
    ghost use Rattle.std.specs.List.{list_any, remove, slice_get};
    ghost use Rattle.dby_types.specs.declared.number.TxnNo.{TxnNo};
    ghost use Rattle.lock_modes.specs.Names.{same_txn};
    ghost use Rattle.lock_modes.specs.Waits.{asks_before};
    ghost use Rattle.lock_manager.specs.Asked.{is_asked, is_of, asks_for, IsNumbered};
    ghost use Rattle.lock_manager.specs.Room.{LineGrows, LineHasRoom};
    ghost use Rattle.lock_manager.specs.Serve.{contests};

    /// Nobody.
    pub fn new(alloc: Global) -> Line
        ensures none { result.line.items ≡ [] }
        ensures len { vec_len result.line ≡ 0 }
    {
        Line {
            line: Vec::new(alloc),
            asked: HashMap::new(alloc),
        }
    }

    /// Whether anybody asks for a name.
    pub fn is_asked(&self, name: LockName) -> bool
        ensures exact { result ≡ is_asked name self.now.line.items }
    {
        asked::is_asked(&self.asked, &self.line, name)
    }

    /// A transaction, other than the one that asks, with a request that is in the way.
    pub fn asker_in_way(&self, r: Request) -> Option<TxnNo>
        ensures found { MatchOption result ((h : TxnNo) → (not (same_txn h r.txn) && asks_before self.now.line.items r h) ≡ false) (λ h. (not (same_txn h r.txn) && asks_before self.now.line.items r h) ≡ true) }
    {
        asked::asker_in_way(&self.asked, &self.line, r)
    }

    /// A transaction, other than the one that asks at a place of the line, with a request before it that is in the way.
    pub fn asker_before(&self, at: usize, r: Request) -> Option<TxnNo>
        requires there { slice_get self.now.line.items at ≡ Some r }
        ensures found { MatchOption result ((h : TxnNo) → (not (same_txn h r.txn) && asks_before (take at self.now.line.items) r h) ≡ false) (λ h. (not (same_txn h r.txn) && asks_before (take at self.now.line.items) r h) ≡ true) }
    {
        asked::asker_before(&self.asked, &self.line, at, r)
    }

    /// The place in the line of the request at a place of a name's list.
    pub fn place_at(&self, ledger: &Ledger, name: LockName, number: usize) -> Option<usize>
        ensures place { MatchOption result (length (asks_for name self.now.line.items) ≤ number) (λ p. IsNumbered name self.now.line.items p number) }
    {
        place_at(ledger, &self.asked, &self.line, name, number)
    }

    /// Whether a request on the name isn't compatible with the mode.
    pub fn is_contested(&self, name: LockName, mode: Mode) -> bool
        ensures exact { result ≡ list_any (contests name mode) self.now.line.items }
    {
        asked::is_contested(&self.asked, &self.line, name, mode)
    }

    /// Adds a request at the end.
    #[tactic(auto, using(crate::proofs::StandingLemmas::apart_more))]
    pub fn push(&mut self, r: Request)
        requires line { vec_len self.old.line < vec_capacity self.old.line }
        requires asked { 0 < spare self.old.asked }
        requires apart { list_any (λ q. same_txn q.txn r.txn) self.old.line.items ≡ false }
        ensures items { self.new.line.items ≡ self.old.line.items ++ r ∷ [] }
        ensures len { vec_len self.new.line ≡ vec_len self.old.line + 1 }
        ensures capacity { vec_capacity self.new.line ≡ vec_capacity self.old.line }
        ensures spare { spare self.old.asked ≤ spare self.new.asked + 1 }
    {
        asked::note(&mut self.asked, &self.line, r);
        self.line.push_reserved(r);
    }

    /// Takes the request at a place away.
    #[tactic(auto, using(crate::proofs::StandingLemmas::apart_less))]
    pub fn remove(&mut self, i: usize)
        requires { i < vec_len self.old.line }
        ensures items { self.new.line.items ≡ remove self.old.line.items i }
        ensures len { vec_len self.new.line + 1 ≡ vec_len self.old.line }
        ensures capacity { vec_capacity self.new.line ≡ vec_capacity self.old.line }
        ensures spare { spare self.old.asked ≤ spare self.new.asked }
    {
        let r = self.line[i];
        asked::strike(&mut self.asked, &self.line, i, r);
        self.line.remove(i);
    }

    /// Makes room for so many requests more.
    pub fn reserve(&mut self, n: usize) -> Result<(), AllocError>
        ensures same { LineGrows self.old self.new }
        ensures ok { OnOk result (LineHasRoom n self.new) }
    {
        self.line.reserve(n)?;
        self.asked.reserve(n)
    }
}
