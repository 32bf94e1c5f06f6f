//! Which calls of an object are to fail.

ghost use Rattle.std.specs.Prelude.{◌≡◌, ◌↔◌, ◌+◌, ◌-◌, ◌^◌, ℕ, List, [], ◌++◌, min, IsTrue, Contains, OnOk, OnErr};

use std::alloc::{AllocError, Global};

/// Counts an object's calls from 0, and knows which of them are to fail.
#[derive(Debug, Drop)]
pub struct Failing {
    calls: u64,
    listed: Vec<u64>,
}

impl Failing {
    /// No call is to fail.
    pub fn new(alloc: Global) -> Failing
        ensures none { result.listed.items ≡ [] }
        ensures first { result.calls ≡ 0 }
    {
        Failing {
            calls: 0,
            listed: Vec::new(alloc),
        }
    }

    /// The calls with these numbers are to fail too.
    pub fn list(&mut self, calls: &[u64]) -> Result<(), AllocError>
        ensures ok { OnOk result (self.new.listed.items ≡ self.old.listed.items ++ calls.now) }
        ensures err { OnErr result (self.new.listed.items ≡ self.old.listed.items) }
        ensures same { self.new.calls ≡ self.old.calls }
    {
        self.listed.extend_from_slice(calls)
    }

    /// One call more: whether it is to fail.
    pub fn is_next(&mut self) -> bool
        ensures exact { IsTrue result ↔ Contains self.old.listed.items self.old.calls }
        ensures counts { self.new.calls ≡ min (self.old.calls + 1) (2 ^ 64 - 1) }
        ensures same { self.new.listed.items ≡ self.old.listed.items }
    {
        let call = self.calls;
        self.calls = self.calls.saturating_add(1);
        self.listed.as_slice().contains(&call)
    }
}
