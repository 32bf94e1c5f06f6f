//! Which calls of a disk fail: those that are listed, and all behind a fuse.

ghost use Rattle.std.specs.Prelude.{◌≡◌, [], ◌++◌, ◌+◌, ◌-◌, ◌^◌, Bool, true, false, ℕ, Option, Some, None, min, IsTrue, Contains, OnOk, OnErr, ◌↔◌};
ghost use Rattle.device.specs.Counts.{Rises};
ghost use Rattle.device_mem.specs.Fuse.{IsBlown, Passes, burnt, PassesOrRises};

use crate::failing::Failing;
use std::alloc::{AllocError, Global};

/// Counts a disk's calls and failures. A fuse lets so many writing calls pass; behind them every call fails.
#[derive(Debug, Drop)]
pub struct Gauge {
    failing: Failing,
    fuse: Option<u64>,
    faults: u64,
}

impl Gauge {
    /// No failure yet, none listed, and no fuse.
    pub fn new(alloc: Global) -> Gauge
        ensures well { result.faults ≡ 0 }
        ensures no_fuse { result.fuse ≡ None }
        ensures none { result.failing.listed.items ≡ [] }
    {
        Gauge {
            failing: Failing::new(alloc),
            fuse: None,
            faults: 0,
        }
    }

    /// How often calls failed.
    pub fn faults(&self) -> u64
        ensures { result ≡ self.now.faults }
    {
        self.faults
    }

    /// The calls with these numbers fail too.
    pub fn list(&mut self, calls: &[u64]) -> Result<(), AllocError>
        ensures ok { OnOk result (self.new.failing.listed.items ≡ self.old.failing.listed.items ++ calls.now) }
        ensures err { OnErr result (self.new.failing.listed.items ≡ self.old.failing.listed.items) }
        ensures same { (self.new.faults ≡ self.old.faults) × (self.new.fuse ≡ self.old.fuse) × (self.new.failing.calls ≡ self.old.failing.calls) }
    {
        self.failing.list(calls)
    }

    /// A fuse in place of any earlier one.
    pub fn set_fuse(&mut self, k: u64)
        ensures set { self.new.fuse ≡ Some k }
        ensures same { (self.new.faults ≡ self.old.faults) × (self.new.failing ≡ self.old.failing) }
    {
        self.fuse = Some(k);
    }

    /// A call that passed fails after all.
    pub fn fail(&mut self)
        ensures rises { Rises self.old.faults self.new.faults }
        ensures same { (self.new.fuse ≡ self.old.fuse) × (self.new.failing ≡ self.old.failing) }
    {
        self.faults = self.faults.saturating_add(1);
    }

    /// Whether the fuse is blown; where it isn't, a writing call burns it down by one.
    fn blows(&mut self, writes: bool) -> bool
        ensures blown { IsTrue result ↔ IsBlown self.old.fuse }
        ensures burnt { self.new.fuse ≡ burnt writes self.old.fuse }
        ensures same { (self.new.faults ≡ self.old.faults) × (self.new.failing ≡ self.old.failing) }
    {
        match self.fuse {
            None => false,
            Some(0) => true,
            Some(k) => {
                if writes {
                    self.fuse = Some(k - 1);
                }
                false
            }
        }
    }

    /// One call more: whether it passes, which it does unless it is listed or behind the fuse.
    pub fn passes(&mut self, writes: bool) -> bool
        ensures cause { PassesOrRises result self.old.faults self.new.faults }
        ensures exact { IsTrue result ↔ Passes self.old.fuse self.old.failing.listed.items self.old.failing.calls }
        ensures burnt { self.new.fuse ≡ burnt writes self.old.fuse }
        ensures counts { self.new.failing.calls ≡ min (self.old.failing.calls + 1) (2 ^ 64 - 1) }
        ensures same { self.new.failing.listed.items ≡ self.old.failing.listed.items }
    {
        let listed = self.failing.is_next();
        if self.blows(writes) || listed {
            self.fail();
            return false;
        }
        true
    }
}
