//! A disk in memory.

ghost use Rattle.std.specs.Prelude.{◌≡◌, ℕ, [], ◌++◌, Some, length, ◌+◌, IfOk, OnOk};
ghost use Rattle.device_mem.specs.Images.{IsWell, AreLeft};

use crate::call::Call;
use crate::calls::{Calls, put};
use crate::gauge::Gauge;
use crate::images::push_moments;
use crate::page_bytes::PageBytes;
use device::{Disk, Failed};
use std::alloc::{AllocError, Global};

/// A disk that keeps a record of the calls that changed it.
#[derive(Drop)]
pub struct MemDisk {
    alloc: Global,
    calls: Calls,
    gauge: Gauge,
}

/// Disks that a crash may have left.
pub type Images = Vec<MemDisk>;

impl MemDisk {
    /// A disk without pages and log, which fails at no call.
    pub fn new(alloc: Global) -> MemDisk
        ensures empty { result.calls ≡ [] }
        ensures well { IsWell result }
    {
        MemDisk {
            alloc,
            calls: Calls::new(alloc),
            gauge: Gauge::new(alloc),
        }
    }

    /// A disk of these calls, which fails at no call.
    pub(crate) fn made(alloc: Global, calls: Calls) -> MemDisk
        ensures exact { result.calls ≡ calls }
        ensures well { IsWell result }
    {
        MemDisk {
            alloc,
            calls,
            gauge: Gauge::new(alloc),
        }
    }

    /// Disks that a crash since a moment may have left. Of each moment since then these are among them: with the pages that weren't synced kept
    /// or lost, the log with all that wasn't synced lost, with all of it kept, and with its last write cut at each of its bytes. Each fails at
    /// no call, and another crash leaves what it holds.
    pub fn images(&self, since: u64) -> Result<Images, AllocError>
        ensures { IfOk result (λ i. AreLeft self.now.calls since (length self.now.calls + 1) i.items) }
    {
        let mut images = Vec::new(self.alloc);
        push_moments(self.alloc, &self.calls, since as usize, &mut images)?;
        Ok(images)
    }

    /// The calls with these numbers, counted from 0, fail.
    pub fn fail_at(&mut self, calls: &[u64]) -> Result<(), AllocError>
        ensures ok { OnOk result (self.new.gauge.failing.listed.items ≡ self.old.gauge.failing.listed.items ++ calls.now) }
        ensures same { self.new.calls ≡ self.old.calls }
        ensures faults { (self.new.gauge.faults ≡ self.old.gauge.faults) × (self.new.gauge.fuse ≡ self.old.gauge.fuse) × (self.new.gauge.failing.calls ≡ self.old.gauge.failing.calls) }
    {
        self.gauge.list(calls)
    }

    /// A fuse in place of any earlier one: so many writing calls pass from now on, and every later call fails.
    pub fn fuse(&mut self, k: u64)
        ensures set { self.new.gauge.fuse ≡ Some k }
        ensures same { self.new.calls ≡ self.old.calls }
        ensures faults { (self.new.gauge.faults ≡ self.old.gauge.faults) × (self.new.gauge.failing ≡ self.old.gauge.failing) }
    {
        self.gauge.set_fuse(k);
    }

    /// The clock: how many calls changed the disk, or what a crash may leave of it.
    pub fn clock(&self) -> u64
        ensures { result ≡ length self.now.calls }
    {
        self.calls.len() as u64
    }
}

impl Disk for MemDisk {
    ghost use Rattle.std.specs.Prelude.{length};
    ghost use Rattle.device_mem.specs.Calls.{page_of, log_of, may_hold_of, may_log_of, left_of};
    ghost use Rattle.device_mem.specs.CallLaws.{reads_page_of, reads_log_of, now_of, only_of};

    ghost tells = { Unit {0} };

    ghost page = { λ d. page_of d.calls };

    ghost log = { λ d. log_of d.calls };

    ghost may_hold = { λ d. may_hold_of d.calls };

    ghost may_log = { λ d. may_log_of d.calls };

    ghost moment = { λ d. length d.calls };

    ghost left_since = { λ d. left_of d.calls };

    ghost fault_count = { λ d. d.gauge.faults };

    ghost reads_page = { λ d c p _. reads_page_of d.calls c p };

    ghost reads_log = { λ d s _. reads_log_of d.calls s };

    ghost counts_now = { λ d t i _ le h. now_of d.calls t i h };

    ghost only_now = { λ d i _ h. only_of d.calls i h };

    fn page_read(&mut self, c: u32, p: u32, into: &mut [u8; 4096]) -> Result<bool, Failed> {
        if !self.gauge.passes(false) {
            return Err(Failed);
        }
        match self.calls.last_page(c, p) {
            Some(bytes) => {
                bytes.read(into);
                Ok(true)
            }
            None => Ok(false),
        }
    }

    fn page_write(&mut self, c: u32, p: u32, from: &[u8; 4096]) -> Result<(), Failed> {
        if !self.gauge.passes(true) {
            return Err(Failed);
        }
        match PageBytes::copy(self.alloc, from) {
            Ok(bytes) => put(
                &mut self.calls,
                &mut self.gauge,
                Call::WritePage {
                    container: c,
                    page: p,
                    bytes,
                },
            ),
            Err(_none) => {
                self.gauge.fail();
                Err(Failed)
            }
        }
    }

    fn page_sync(&mut self) -> Result<(), Failed> {
        if !self.gauge.passes(true) {
            return Err(Failed);
        }
        put(&mut self.calls, &mut self.gauge, Call::SyncPages)
    }

    fn container_drop(&mut self, c: u32) -> Result<(), Failed> {
        if !self.gauge.passes(true) {
            return Err(Failed);
        }
        put(&mut self.calls, &mut self.gauge, Call::DropContainer(c))
    }

    fn log_read(&mut self, seg: u32, at: u32, into: &mut [u8]) -> Result<usize, Failed> {
        if !self.gauge.passes(false) {
            return Err(Failed);
        }
        Ok(self.calls.read_log(seg, at as usize, into))
    }

    fn log_write(&mut self, seg: u32, at: u32, from: &[u8]) -> Result<(), Failed> {
        if !self.gauge.passes(true) {
            return Err(Failed);
        }
        let Ok(bytes) = Vec::from_slice(self.alloc, from) else {
            self.gauge.fail();
            return Err(Failed);
        };
        put(
            &mut self.calls,
            &mut self.gauge,
            Call::WriteLog {
                segment: seg,
                at,
                bytes,
            },
        )
    }

    fn log_sync(&mut self) -> Result<(), Failed> {
        if !self.gauge.passes(true) {
            return Err(Failed);
        }
        put(&mut self.calls, &mut self.gauge, Call::SyncLog)
    }

    fn log_drop(&mut self, seg: u32) -> Result<(), Failed> {
        if !self.gauge.passes(true) {
            return Err(Failed);
        }
        put(&mut self.calls, &mut self.gauge, Call::DropLog(seg))
    }

    fn faults(&self) -> u64 {
        self.gauge.faults()
    }
}
