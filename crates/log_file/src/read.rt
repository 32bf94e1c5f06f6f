//! The log read back.

ghost use Rattle.std.specs.Prelude.{◌+◌, ◌≡◌, ◌≤◌, ◌<◌, ◌⊎◌, ◌-◌, ℕ, List, take, drop, min, length, IfOk, OnOk, OnErr, MatchOption};
ghost use Rattle.device.specs.Counts.{HasCause};
ghost use Rattle.device.specs.Disk.{NoNewPage, SameLog};
ghost use Rattle.log_records.specs.Content.{LogRecord};
ghost use Rattle.log_records.specs.Format.{size_of};
ghost use Rattle.log_records.specs.Rules.{Begins};
ghost use Rattle.log_records.specs.View.{body_of, record_of};
ghost use Rattle.log_file.specs.Crash.{Crashes, Stays};
ghost use Rattle.log_file.specs.List.{Reads, StandsAt, behind, follower, forced_of, in_log, on_disk, place_behind};
ghost use Rattle.log_file.specs.Reading.{Finds, Gives, HasRead, IsPart, Judges};
ghost use Rattle.log_file.specs.Tail.{IsOn, Same};

use crate::file::{LONGEST, LogFile};
use dby_bytes::get_u32;
use dby_types::number::Lsn;
use device::{Disk, Failed};
use log_records::decode::{decode, read_whole};
use log_records::record::{Body, Record};

/// The bytes of a record in front of its body, its length among them.
const FRONT: usize = 40;

/// The place behind a record of this size; where it names the next segment, that segment's start.
fn place_after(at: Lsn, body: &Body<'_>, size: usize) -> Lsn
    requires { size ≤ 1048622 }
    ensures { result ≡ place_behind at (follower (body_of body.now)) size }
{
    match body {
        Body::NextSegment { segment } => Lsn {
            segment: *segment,
            offset: 0,
        },
        _ => Lsn {
            segment: at.segment,
            offset: at.offset.saturating_add(size as u32),
        },
    }
}

/// The place behind what the bytes begin with, and its size; the same place and 0 where they begin with no record.
fn judged(bytes: &[u8], at: Lsn) -> (Lsn, usize)
    requires { length bytes.now ≤ 1048622 }
    ensures { Judges at bytes.now result.0 result.1 }
{
    match decode(bytes, at) {
        Some((r, size)) => (place_after(at, &r.body, size), size),
        None => (at, 0),
    }
}

/// The length that a record's front tells; 0 where no record has such a front.
fn told_size(front: &[u8]) -> usize
    ensures within { result ≤ 1048622 }
    ensures told { (at : Lsn) (whole rest : List ℕ) (r : LogRecord) → front.now ≡ take 40 whole → Begins at whole r rest → size_of r ≤ result }
{
    if front.len() < FRONT {
        return 0;
    }
    let size = get_u32(front, 8) as usize;
    if size > LONGEST { 0 } else { size }
}

/// Copies bytes from a place to the front of the buffer, at most so many, and answers how many.
fn copy_from(bytes: &[u8], at: usize, into: &mut [u8], n: usize) -> usize
    requires { n ≤ length into.old }
    ensures { IsPart (drop at bytes.now) into.new n result }
{
    if at >= bytes.len() {
        return 0;
    }
    let k = n.min(bytes.len() - at);
    into[..k].copy_from_slice(&bytes[at..at + k]);
    k
}

/// Reads what a disk has at a place to the front of the buffer, at most so many bytes, and answers how many.
fn read_disk<D: Disk>(disk: &mut D, at: Lsn, into: &mut [u8], n: usize) -> Result<usize, Failed>
    requires { n ≤ length into.old }
    ensures bytes { D.tells → IfOk result (λ k. IsPart (on_disk (D.log disk.old) at) into.new n k) }
    ensures within { IfOk result (λ k. k ≤ n) }
    ensures seen { D.tells → OnOk result (SameLog (D.log disk.old) (D.log disk.new)) }
    ensures crash { D.tells → (end : Lsn) → Crashes D.moment D.left_since D.may_log D.may_hold end disk.old disk.new (D.may_hold disk.old) }
    ensures clock { D.tells → D.moment disk.new ≤ D.moment disk.old + 1 }
    ensures cause { HasCause (D.fault_count disk.old) (D.fault_count disk.new) result }
{
    disk.log_read(at.segment, at.offset, &mut into[..n])
}

impl LogFile {
    /// Moves the log's bytes at a place to the window's front, at most so many, and answers how many. Forgets the record that was read last.
    fn fetch<D: Disk>(&mut self, disk: &mut D, at: Lsn, n: usize) -> Result<usize, Failed>
        requires { n ≤ 1048622 }
        ensures bytes { D.tells → IsOn self.old (D.log disk.old) → IfOk result (λ k. IsPart (in_log self.old (D.log disk.old) at) self.new.window.items n k) }
        ensures within { IfOk result (λ k. k ≤ n) }
        ensures same { Same self.old self.new }
        ensures stays { (self.new.at ≡ self.old.at) × (self.new.found ≡ 0) }
        ensures seen { D.tells → OnOk result (SameLog (D.log disk.old) (D.log disk.new)) }
        ensures crash { D.tells → Crashes D.moment D.left_since D.may_log D.may_hold (forced_of self.old) disk.old disk.new (D.may_hold disk.old) }
        ensures clock { D.tells → D.moment disk.new ≤ D.moment disk.old + 1 }
        ensures cause { HasCause (D.fault_count disk.old) (D.fault_count disk.new) result }
    {
        self.found = 0;
        if at.segment != self.segment {
            return read_disk(disk, at, self.window.as_mut_slice(), n);
        }
        let offset = at.offset as usize;
        if offset < self.forced {
            let m = n.min(self.forced - offset);
            return read_disk(disk, at, self.window.as_mut_slice(), m);
        }
        Ok(copy_from(
            &self.buffer[..self.used],
            offset - self.forced,
            self.window.as_mut_slice(),
            n,
        ))
    }

    /// Judges the bytes at the window's front as those of a place, and lets reading go on behind the record that they begin with.
    fn judge(&mut self, at: Lsn, n: usize)
        requires short { n ≤ 1048622 }
        requires none { self.old.found ≡ 0 }
        ensures judges { Judges at (take n self.old.window.items) self.new.at self.new.found }
        ensures from { self.new.from ≡ at }
        ensures same { Same self.old self.new × (self.new.window ≡ self.old.window) }
    {
        let (next, size) = judged(&self.window[..n], at);
        self.from = at;
        self.found = size;
        self.at = next;
    }

    /// Reads the record at the place where reading goes on, and goes on behind it; where none stands there, it goes on at the same place.
    pub fn advance<D: Disk>(&mut self, disk: &mut D) -> Result<(), Failed>
        ensures found { D.tells → IsOn self.old (D.log disk.old) → OnOk result (Finds (in_log self.old (D.log disk.old)) self.old.at self.new) }
        ensures order { D.tells → IsOn self.old (D.log disk.old) → OnOk result (IsOn self.new (D.log disk.new) × ((rs : List LogRecord) → Reads (in_log self.old (D.log disk.old)) self.old.at rs → Gives (in_log self.new (D.log disk.new)) rs self.new)) }
        ensures list { D.tells → Stays self.old self.new (D.log disk.old) (D.log disk.new) (D.may_log disk.old) (D.may_log disk.new) }
        ensures same { Same self.old self.new × OnErr result (self.new.at ≡ self.old.at) }
        ensures crash { D.tells → Crashes D.moment D.left_since D.may_log D.may_hold (forced_of self.old) disk.old disk.new (D.may_hold disk.old) }
        ensures clock { D.tells → D.moment disk.new ≤ D.moment disk.old + 2 }
        ensures cause { HasCause (D.fault_count disk.old) (D.fault_count disk.new) result }
    {
        let at = self.at;
        let front = match self.fetch(disk, at, FRONT) {
            Ok(n) => n,
            Err(_) => {
                return Err(Failed);
            }
        };
        let size = told_size(&self.window[..front]);
        let n = match self.fetch(disk, at, size) {
            Ok(n) => n,
            Err(_) => {
                return Err(Failed);
            }
        };
        self.judge(at, n);
        Ok(())
    }

    /// The record that was read last, and its place; none exactly where no whole record stood there.
    pub fn current(&self) -> Option<(Lsn, Record<'_>)>
        ensures { MatchOption result ((r : LogRecord) → HasRead self.now r → ⊥) (λ p. (p.0 ≡ self.now.from) × HasRead self.now (record_of p.1)) }
    {
        if self.found == 0 {
            return None;
        }
        match read_whole(&self.window[..self.found], self.from, self.found) {
            Some(r) => Some((self.from, r)),
            None => None,
        }
    }
}
