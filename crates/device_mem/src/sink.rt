//! A sink in memory.

ghost use Rattle.std.specs.Prelude.{◌≡◌, ◌++◌, ◌+◌, ◌<◌, ℕ, List, [], Some, OnOk, OnErr, length};
ghost use Rattle.device.specs.Streams.{SinkSeen};

use crate::failing::Failing;
use device::{Failed, Sink};
use std::alloc::{AllocError, Global};

/// A sink that keeps what it took.
#[derive(Debug, Drop)]
pub struct MemSink {
    bytes: Vec<u8>,
    faults: u64,
    nones: u64,
    failing: Failing,
    taking_none: Failing,
}

impl Sink for MemSink {
    ghost seen = { λ s. record { taken = Some s.bytes.items; faults = s.faults; nones = s.nones } };

    fn write(&mut self, from: &[u8]) -> Result<usize, Failed> {
        let fails = self.failing.is_next();
        let takes_none = self.taking_none.is_next();
        if fails {
            self.faults = self.faults.saturating_add(1);
            return Err(Failed);
        }
        if takes_none {
            if !from.is_empty() {
                self.nones = self.nones.saturating_add(1);
            }
            return Ok(0);
        }
        match self.bytes.extend_from_slice(from) {
            Ok(()) => Ok(from.len()),
            Err(_none) => {
                self.faults = self.faults.saturating_add(1);
                Err(Failed)
            }
        }
    }

    fn faults(&self) -> u64 {
        self.faults
    }
}

impl MemSink {
    /// A sink that took nothing yet and fails at no call.
    pub fn new(alloc: Global) -> MemSink
        ensures empty { result.bytes.items ≡ [] }
        ensures well { (result.faults ≡ 0) × (result.nones ≡ 0) }
    {
        MemSink {
            bytes: Vec::new(alloc),
            faults: 0,
            nones: 0,
            failing: Failing::new(alloc),
            taking_none: Failing::new(alloc),
        }
    }

    /// What it took.
    pub fn bytes(&self) -> &[u8]
        ensures { result.now ≡ self.now.bytes.items }
    {
        self.bytes.as_slice()
    }

    /// The writes with these numbers, counted from 0, fail.
    pub fn fail_at(&mut self, calls: &[u64]) -> Result<(), AllocError>
        ensures ok { OnOk result (self.new.failing.listed.items ≡ self.old.failing.listed.items ++ calls.now) }
        ensures same { (self.new.bytes ≡ self.old.bytes) × (self.new.faults ≡ self.old.faults) × (self.new.nones ≡ self.old.nones) }
    {
        self.failing.list(calls)
    }

    /// The writes with these numbers, counted from 0, take no byte.
    pub fn take_none_at(&mut self, calls: &[u64]) -> Result<(), AllocError>
        ensures ok { OnOk result (self.new.taking_none.listed.items ≡ self.old.taking_none.listed.items ++ calls.now) }
        ensures same { (self.new.bytes ≡ self.old.bytes) × (self.new.faults ≡ self.old.faults) × (self.new.nones ≡ self.old.nones) }
    {
        self.taking_none.list(calls)
    }
}
