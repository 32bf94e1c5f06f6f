//! Records put at the log's end.

ghost use Rattle.std.specs.Prelude.{◌⊎◌, ◌≡◌, ◌≤◌, ◌<◌, ◌+◌, ◌++◌, ◌↔◌, ◌∷◌, [], None, IsTrue, OnOk, OnErr, IfOk, IfErr, take, length};
ghost use Rattle.device.specs.Counts.{HasCause, Rises};
ghost use Rattle.log_records.specs.Format.{size_of, stored_record};
ghost use Rattle.log_records.specs.Rules.{IsLegal, IsRecord};
ghost use Rattle.log_records.specs.View.{body_of, record_of};
ghost use Rattle.log_file.specs.Crash.{Crashes, Gains, Holds, Stays};
ghost use Rattle.log_file.specs.Append.{EndsWith};
ghost use Rattle.log_file.specs.List.{follower, forced_of};
ghost use Rattle.log_file.specs.Tail.{Same, end_of, pending};

use crate::file::{BUFFER, LogFile, SEGMENT};
use dby_types::number::Lsn;
use device::{Disk, Failed};
use log_records::encode::encode;
use log_records::record::Record;

/// The bytes of a record that names the next segment.
pub const NEXT: usize = 44;

/// Writes a record behind the bytes in front.
pub fn encode_behind(into: &mut [u8], used: usize, r: &Record<'_>, at: Lsn)
    requires legal { IsLegal at (record_of r.now) }
    requires short { size_of (record_of r.now) ≤ 20000 }
    requires room { used + size_of (record_of r.now) ≤ length into.old }
    ensures behind { take (used + size_of (record_of r.now)) into.new ≡ take used into.old ++ stored_record at (record_of r.now) }
    ensures before { take used into.new ≡ take used into.old }
    ensures record { IsRecord at (record_of r.now) }
{
    encode(r, at, &mut into[used..]);
}

impl LogFile {
    /// Whether a record of this size needs a new segment: behind it there has to be room for the record that names the next one.
    pub(crate) fn needs_segment(&self, size: usize) -> bool
        requires { size ≤ 20000 }
        ensures { IsTrue result ↔ (16777216 < self.now.forced + self.now.used + size + 44) }
    {
        self.forced + self.used + size + NEXT > SEGMENT
    }

    /// Whether a record of this size finds no room beside those that wait for a force.
    pub(crate) fn needs_force(&self, size: usize) -> bool
        requires { size ≤ 20000 }
        ensures { IsTrue result ↔ (65536 < self.now.used + size + 44) }
    {
        self.used + size + NEXT > BUFFER
    }

    /// Puts a record behind the others.
    pub(crate) fn put(&mut self, r: &Record<'_>, size: usize) -> Lsn
        requires legal { IsLegal (end_of self.old) (record_of r.now) }
        requires size_is { (size ≡ size_of (record_of r.now)) × (size ≤ 20000) }
        requires room { (self.old.used + size + 44 ≤ 65536) × (self.old.forced + self.old.used + size + 44 ≤ 16777216) }
        ensures place { result ≡ end_of self.old }
        ensures pending { pending self.new ≡ pending self.old ++ stored_record (end_of self.old) (record_of r.now) }
        ensures used { self.new.used ≡ self.old.used + size }
        ensures record { IsRecord (end_of self.old) (record_of r.now) }
        ensures same { (self.new.segment ≡ self.old.segment) × (self.new.forced ≡ self.old.forced) × (self.new.point ≡ self.old.point) × (self.new.at ≡ self.old.at) }
    {
        let at = self.end();
        encode_behind(self.buffer.as_mut_slice(), self.used, r, at);
        self.used += size;
        at
    }

    /// Makes room for a record of this size in the current segment, by a force where there is none beside the records that wait for it.
    pub(crate) fn make_room<D: Disk>(&mut self, disk: &mut D, size: usize) -> Result<(), Failed>
        requires { (size ≤ 20000) × (self.old.forced + self.old.used + size + 44 ≤ 16777216) }
        ensures list { D.tells → OnOk result (Holds self.old self.new (D.log disk.old) (D.log disk.new) (D.may_log disk.old) (D.may_log disk.new)) × OnErr result (Stays self.old self.new (D.log disk.old) (D.log disk.new) (D.may_log disk.old) (D.may_log disk.new)) }
        ensures forced { OnOk result ((forced_of self.new ≡ forced_of self.old) ⊎ (forced_of self.new ≡ end_of self.old)) }
        ensures room { OnOk result ((self.new.used + size + 44 ≤ 65536) × (end_of self.new ≡ end_of self.old) × (self.new.point ≡ self.old.point) × (self.new.at ≡ self.old.at)) }
        ensures same { OnErr result (Same self.old self.new × (self.new.at ≡ self.old.at)) }
        ensures crash { D.tells → Crashes D.moment D.left_since D.may_log D.may_hold (forced_of self.old) disk.old disk.new (D.may_hold disk.old) }
        ensures clock { D.tells → D.moment disk.new ≤ D.moment disk.old + 2 }
        ensures cause { HasCause (D.fault_count disk.old) (D.fault_count disk.new) result }
    {
        if self.needs_force(size) {
            return self.force(disk);
        }
        Ok(())
    }

    /// Appends a record to the current segment.
    pub(crate) fn append_here<D: Disk>(
        &mut self,
        disk: &mut D,
        r: &Record<'_>,
        size: usize,
    ) -> Result<Lsn, Failed>
        requires legal { IsLegal (end_of self.old) (record_of r.now) }
        requires plain { follower (body_of r.now.body) ≡ None }
        requires size_is { (size ≡ size_of (record_of r.now)) × (size ≤ 20000) }
        requires room { self.old.forced + self.old.used + size + 44 ≤ 16777216 }
        ensures place { IfOk result (λ at. at ≡ end_of self.old) }
        ensures forced { OnOk result ((forced_of self.new ≡ forced_of self.old) ⊎ (forced_of self.new ≡ end_of self.old)) }
        ensures ends { IfOk result (λ at. EndsWith self.old self.new at (record_of r.now)) }
        ensures list { D.tells → OnOk result (Gains (record_of r.now ∷ []) self.old self.new (D.log disk.old) (D.log disk.new) (D.may_log disk.old) (D.may_log disk.new)) }
        ensures stays { D.tells → OnErr result (Stays self.old self.new (D.log disk.old) (D.log disk.new) (D.may_log disk.old) (D.may_log disk.new)) }
        ensures same { OnErr result (Same self.old self.new × (self.new.at ≡ self.old.at)) }
        ensures crash { D.tells → Crashes D.moment D.left_since D.may_log D.may_hold (forced_of self.old) disk.old disk.new (D.may_hold disk.old) }
        ensures clock { D.tells → D.moment disk.new ≤ D.moment disk.old + 2 }
        ensures cause { HasCause (D.fault_count disk.old) (D.fault_count disk.new) result }
    {
        match self.make_room(disk, size) {
            Ok(()) => Ok(self.put(r, size)),
            Err(_) => Err(Failed),
        }
    }
}
