//! The calls that changed a disk, with what they say of a page and of the log at hand.

ghost use Rattle.std.specs.Prelude.{◌≡◌, ◌≤◌, ◌<◌, ◌^◌, ℕ, ◌∷◌, [], None, Some, true, false, length, reverse, MatchOption, OnOk, OnErr};
ghost use Rattle.device.specs.Counts.{HasCause};
ghost use Rattle.device.specs.Disk.{GivesLog};
ghost use Rattle.device_mem.specs.Calls.{page_of, log_of};
ghost use Rattle.device_mem.specs.Images.{calls_at};
ghost use Rattle.device_mem.specs.Latest.{latest_in, latest_after, log_after, page_in, page_at};
ghost use Rattle.device_mem.specs.Segments.{bytes_in};

use crate::call::Call;
use crate::gauge::Gauge;
use crate::latest::{Latest, forget, make as make_pages, note, number};
use crate::page_bytes::PageBytes;
use crate::segments::{clear, copy_from, make, write};
use device::Failed;
use std::alloc::{AllocError, Global};
use std::collections::HashMap;
use std::marker::Model;

/// The most bytes of one write of the log; a disk is asked for no more.
const MOST: usize = 16_777_216;

/// The calls in the order in which they were made, which of them wrote each page last, and the log as it reads now.
#[derive(Drop)]
pub struct Calls {
    alloc: Global,
    made: Vec<Call>,
    latest: Latest,
    segments: HashMap<u32, Vec<u8>>,
}

impl Model for Calls {
    ghost use Rattle.std.specs.Prelude.{◌≡◌, ℕ, List, reverse};
    ghost use Rattle.device_mem.specs.declared.call.Call.{Call};
    ghost use Rattle.device_mem.specs.Calls.{log_of};
    ghost use Rattle.device_mem.specs.Latest.{latest_in, latest_of};
    ghost use Rattle.device_mem.specs.Segments.{bytes_in};

    ghost Value = { List Call };

    ghost view = { λ k. reverse k.made.items };

    ghost invariant = { λ k. ((c p : ℕ) → latest_in k.latest c p ≡ latest_of (reverse k.made.items) c p) × ((s : ℕ) → bytes_in k.segments s ≡ log_of (reverse k.made.items) s) };
}

impl Calls {
    /// No calls.
    pub fn new(alloc: Global) -> Calls
        ensures { result ≡ [] }
    {
        Calls {
            alloc,
            made: Vec::new(alloc),
            latest: HashMap::new(alloc),
            segments: HashMap::new(alloc),
        }
    }

    /// How many calls.
    pub fn len(&self) -> usize
        ensures exact { result ≡ length self.now }
        ensures small { result < 2 ^ 63 }
    {
        self.made.len()
    }

    /// The page that was written last, unless its container was dropped since.
    pub fn last_page(&self, c: u32, p: u32) -> Option<&PageBytes>
        ensures { MatchOption result (page_of self.now c p ≡ None) (λ b. page_of self.now c p ≡ Some b.now.bytes.items) }
    {
        page_numbered(self.made.as_slice(), number(&self.latest, c, p))
    }

    /// Copies bytes of a segment from a place to the front of the buffer, and answers how many.
    pub fn read_log(&self, seg: u32, at: usize, into: &mut [u8]) -> usize
        ensures within { result ≤ length into.old }
        ensures gives { GivesLog (log_of self.now seg) at into.old into.new result }
    {
        match self.segments.get(&seg) {
            Some(bytes) => copy_from(bytes.as_slice(), at, into),
            None => 0,
        }
    }

    /// The calls up to a moment, in their order.
    pub fn first(&self, m: usize) -> &[Call]
        ensures { m ≤ length self.now → reverse result.now ≡ calls_at m self.now }
    {
        &self.made[..m.min(self.made.len())]
    }

    /// One call more, the newest. Where there is no memory the calls are as before.
    pub fn add(&mut self, call: Call) -> Result<(), AllocError>
        ensures ok { OnOk result (self.new ≡ call ∷ self.old) }
        ensures err { OnErr result (self.new ≡ self.old) }
    {
        self.made.reserve(1)?;
        let noted = apply(
            self.alloc,
            &mut self.latest,
            &mut self.segments,
            &call,
            self.made.len(),
        );
        if !noted {
            return Err(AllocError);
        }
        let _ = self.made.push(call);
        Ok(())
    }
}

/// The page that the call with this number wrote, if it wrote one.
fn page_numbered(calls: &[Call], n: Option<usize>) -> Option<&PageBytes>
    ensures { MatchOption result (page_at calls.now n ≡ None) (λ b. page_at calls.now n ≡ Some b.now.bytes.items) }
{
    match calls.get(n?) {
        Some(call) => page_written(call),
        None => None,
    }
}

/// The page that a call wrote, if it wrote one.
fn page_written(call: &Call) -> Option<&PageBytes>
    ensures { MatchOption result (page_in (Some call.now) ≡ None) (λ b. page_in (Some call.now) ≡ Some b.now.bytes.items) }
{
    match call {
        Call::WritePage { bytes, .. } => Some(bytes),
        _ => None,
    }
}

/// Notes a call with its number. Where there is no memory all is as before.
fn apply(
    alloc: Global,
    latest: &mut Latest,
    segments: &mut HashMap<u32, Vec<u8>>,
    call: &Call,
    n: usize,
) -> bool
    ensures pages { result ≡ true → (c p : ℕ) → latest_in latest.new c p ≡ latest_after call.now n (latest_in latest.old) c p }
    ensures log { result ≡ true → (s : ℕ) → bytes_in segments.new s ≡ log_after call.now (bytes_in segments.old) s }
    ensures same_pages { result ≡ false → (c p : ℕ) → latest_in latest.new c p ≡ latest_in latest.old c p }
    ensures same_log { result ≡ false → (s : ℕ) → bytes_in segments.new s ≡ bytes_in segments.old s }
{
    match call {
        Call::WritePage {
            container,
            page,
            ..
        } => make_pages(latest, alloc, *container) && note(latest, *container, *page, n),
        Call::DropContainer(c) => {
            forget(latest, *c);
            true
        }
        Call::WriteLog { segment, at, bytes } => {
            bytes.len() <= MOST
                && make(alloc, segments, *segment)
                && write(segments, *segment, *at as usize, bytes.as_slice())
        }
        Call::DropLog(s) => {
            clear(segments, *s);
            true
        }
        Call::SyncPages => true,
        Call::SyncLog => true,
    }
}

/// One call more, the newest. Where there is no memory it fails, and the list is as before.
pub fn put(calls: &mut Calls, gauge: &mut Gauge, call: Call) -> Result<(), Failed>
    ensures ok { OnOk result (calls.new ≡ call ∷ calls.old) }
    ensures err { OnErr result (calls.new ≡ calls.old) }
    ensures cause { HasCause gauge.old.faults gauge.new.faults result }
{
    if calls.add(call).is_err() {
        gauge.fail();
        return Err(Failed);
    }
    Ok(())
}
