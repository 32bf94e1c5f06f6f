//! Cycles of waits.

ghost use Rattle.std.specs.Prelude.{◌≡◌, ◌<◌, ◌++◌, [], ◌∷◌, ◌+◌, ◌-◌, length, take, IsTrue, ◌↔◌};

use crate::mode::Mode;
use crate::name::LockName;
use dby_types::number::TxnNo;
use std::marker::Model;

/// Who waits for whom, for what name and mode, and on how many names the waiter has locks.
#[derive(Clone, Copy, Debug, PartialEq, Eq)]
pub struct Edge {
    pub waiter: TxnNo,
    pub holder: TxnNo,
    pub name: LockName,
    pub asked: Mode,
    pub locks: u64,
}

const NO_EDGE: Edge = Edge {
    waiter: TxnNo(0),
    holder: TxnNo(0),
    name: LockName::Dictionary,
    asked: Mode::TX,
    locks: 0,
};

/// At most 64 edges, each holder the next waiter.
#[derive(Debug, Drop)]
pub struct Cycle {
    edges: [Edge; 64],
    len: usize,
}

impl Model for Cycle {
    ghost use Rattle.std.specs.Prelude.{List, take, ◌≤◌};
    ghost use Rattle.lock_modes.specs.declared.cycle.Edge.{Edge};

    ghost Value = { List Edge };

    ghost view = { λ c. take c.len c.edges };

    ghost invariant = { λ c. c.len ≤ 64 };
}

impl Cycle {
    /// A list without edges.
    pub fn new() -> Cycle
        ensures { result ≡ [] }
    {
        Cycle {
            edges: [NO_EDGE; 64],
            len: 0,
        }
    }

    pub fn len(&self) -> usize
        ensures { result ≡ length self.now }
    {
        self.as_slice().len()
    }

    pub fn is_empty(&self) -> bool
        ensures { IsTrue result ↔ (length self.now ≡ 0) }
    {
        self.len() == 0
    }

    pub fn as_slice(&self) -> &[Edge]
        ensures { result.now ≡ self.now }
    {
        &self.edges[..self.len]
    }

    /// Adds an edge at the end.
    pub fn push(&mut self, edge: Edge)
        requires { length self.old < 64 }
        ensures { self.new ≡ self.old ++ edge ∷ [] }
    {
        self.edges[self.len] = edge;
        self.len += 1;
    }

    /// Takes the last edge away.
    pub fn pop(&mut self) -> Edge
        requires { 0 < length self.old }
        ensures { self.old ≡ self.new ++ result ∷ [] }
    {
        self.len -= 1;
        self.edges[self.len]
    }
}
