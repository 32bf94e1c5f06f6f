//! A change of segment.

ghost use Rattle.std.specs.Prelude.{◌≡◌, ◌≤◌, ◌<◌, ◌+◌, ◌-◌, ◌^◌, ◌∷◌, [], None, Some, OnOk, OnErr, IfOk, MatchResult};
ghost use Rattle.device.specs.Counts.{HasCause};
ghost use Rattle.device.specs.Disk.{OnlyLog, OnlyPages};
ghost use Rattle.log_records.specs.Format.{size_of};
ghost use Rattle.log_records.specs.Rules.{IsLegal, IsRecord};
ghost use Rattle.log_records.specs.View.{body_of, record_of};
ghost use Rattle.log_file.specs.Append.{Appends, EndsWith, ForcedTo, HasAnswer, HasPlace, NeedsSegment, PutAt, beyond, number_by};
ghost use Rattle.log_file.specs.Control.{control_page};
ghost use Rattle.log_file.specs.Crash.{AreRecords, Crashes, Gains, OrControl, Stays};
ghost use Rattle.log_file.specs.List.{behind, follower, forced_of};
ghost use Rattle.log_file.specs.Tail.{FitsSegment, IsNext, IsOn, Left, Same, end_of, next_of, next_place};

use crate::answer::LogAnswer;
use crate::append::{NEXT, encode_behind};
use crate::control::raise;
use crate::file::LogFile;
use dby_types::number::Lsn;
use device::{Disk, Failed};
use log_records::record::{Body, Record};
use log_records::size::size;

/// The segment that a record names as the next one.
fn named(body: &Body<'_>) -> Option<u32>
    ensures { result ≡ follower (body_of body.now) }
{
    match body {
        Body::NextSegment { segment } => Some(*segment),
        _ => None,
    }
}

impl LogFile {
    /// Writes and syncs what is kept, and behind it a record that names the segment that follows.
    fn leave<D: Disk>(&mut self, disk: &mut D, r: &Record<'_>) -> Result<(), Failed>
        requires legal { IsLegal (end_of self.old) (record_of r.now) }
        requires size_is { size_of (record_of r.now) ≡ 44 }
        ensures left { D.tells → IsOn self.old (D.log disk.old) → OnOk result (Left self.old (record_of r.now) (D.log disk.old) (D.log disk.new) × OnlyLog (D.log disk.new) (D.may_log disk.new)) }
        ensures record { IsRecord (end_of self.old) (record_of r.now) }
        ensures same { Same self.old self.new × (self.new.at ≡ self.old.at) }
        ensures crash { D.tells → Crashes D.moment D.left_since D.may_log D.may_hold (forced_of self.old) disk.old disk.new (D.may_hold disk.old) }
        ensures clock { D.tells → D.moment disk.new ≤ D.moment disk.old + 2 }
        ensures cause { HasCause (D.fault_count disk.old) (D.fault_count disk.new) result }
    {
        let at = self.end();
        encode_behind(self.buffer.as_mut_slice(), self.used, r, at);
        self.write_front(disk, self.used + NEXT)
    }

    /// Leaves the segment by a record that names another one, raises the number on the control page, and begins that segment.
    fn change<D: Disk>(&mut self, disk: &mut D, r: &Record<'_>, next: u32) -> Result<(), Failed>
        requires legal { IsLegal (end_of self.old) (record_of r.now) }
        requires named { follower (body_of r.now.body) ≡ Some next }
        requires number { next < 2 ^ 32 - 1 }
        ensures list { D.tells → OnOk result (Gains (record_of r.now ∷ []) self.old self.new (D.log disk.old) (D.log disk.new) (D.may_log disk.old) (D.may_log disk.new)) }
        ensures stays { D.tells → OnErr result (Stays self.old self.new (D.log disk.old) (D.log disk.new) (D.may_log disk.old) (D.may_log disk.new)) }
        ensures raised { D.tells → OnOk result ((D.page disk.new 0 0 ≡ Some (control_page (next + 1) self.old.point)) × OnlyPages (D.page disk.new) (D.may_hold disk.new)) }
        ensures next { OnOk result (IsNext next self.old self.new) }
        ensures record { IsRecord (end_of self.old) (record_of r.now) }
        ensures same { OnErr result (Same self.old self.new × (self.new.at ≡ self.old.at)) }
        ensures crash { D.tells → Crashes D.moment D.left_since D.may_log D.may_hold (forced_of self.old) disk.old disk.new (OrControl (next + 1) self.old.point (D.may_hold disk.old)) }
        ensures clock { D.tells → D.moment disk.new ≤ D.moment disk.old + 4 }
        ensures cause { HasCause (D.fault_count disk.old) (D.fault_count disk.new) result }
    {
        let point = self.point;
        match self.leave(disk, r) {
            Ok(()) => {}
            Err(_) => {
                return Err(Failed);
            }
        }
        match raise(disk, next + 1, point) {
            Ok(()) => {}
            Err(_) => {
                return Err(Failed);
            }
        }
        self.segment = next;
        self.forced = 0;
        self.used = 0;
        Ok(())
    }

    /// Leaves the segment by a record of the log's own, which names the next one.
    fn change_to_next<D: Disk>(&mut self, disk: &mut D) -> Result<(), Failed>
        requires { self.old.segment + 1 < 2 ^ 32 - 1 }
        ensures list { D.tells → OnOk result (Gains (next_of (self.old.segment + 1) ∷ []) self.old self.new (D.log disk.old) (D.log disk.new) (D.may_log disk.old) (D.may_log disk.new)) }
        ensures stays { D.tells → OnErr result (Stays self.old self.new (D.log disk.old) (D.log disk.new) (D.may_log disk.old) (D.may_log disk.new)) }
        ensures raised { D.tells → OnOk result ((D.page disk.new 0 0 ≡ Some (control_page (self.old.segment + 1 + 1) self.old.point)) × OnlyPages (D.page disk.new) (D.may_hold disk.new)) }
        ensures next { OnOk result (IsNext (self.old.segment + 1) self.old self.new) }
        ensures same { OnErr result (Same self.old self.new × (self.new.at ≡ self.old.at)) }
        ensures crash { D.tells → Crashes D.moment D.left_since D.may_log D.may_hold (forced_of self.old) disk.old disk.new (OrControl (self.old.segment + 1 + 1) self.old.point (D.may_hold disk.old)) }
        ensures clock { D.tells → D.moment disk.new ≤ D.moment disk.old + 4 }
        ensures cause { HasCause (D.fault_count disk.old) (D.fault_count disk.new) result }
    {
        let none = Lsn {
            segment: 0,
            offset: 0,
        };
        let segment = self.segment + 1;
        let record = Record {
            txn: 0,
            back: none,
            body: Body::NextSegment { segment },
        };
        self.change(disk, &record, segment)
    }

    /// Appends a record as the first one of the next segment.
    fn append_next<D: Disk>(
        &mut self,
        disk: &mut D,
        r: &Record<'_>,
        size: usize,
    ) -> Result<Lsn, Failed>
        requires legal { IsLegal (next_place self.old) (record_of r.now) }
        requires plain { follower (body_of r.now.body) ≡ None }
        requires size_is { (size ≡ size_of (record_of r.now)) × (size ≤ 20000) }
        requires number { self.old.segment + 1 < 2 ^ 32 - 1 }
        ensures place { IfOk result (λ at. at ≡ next_place self.old) }
        ensures forced { OnOk result (forced_of self.new ≡ next_place self.old) }
        ensures ends { IfOk result (λ at. EndsWith self.old self.new at (record_of r.now)) }
        ensures list { D.tells → OnOk result (Gains (next_of (self.old.segment + 1) ∷ record_of r.now ∷ []) self.old self.new (D.log disk.old) (D.log disk.new) (D.may_log disk.old) (D.may_log disk.new)) }
        ensures stays { D.tells → OnErr result (Stays self.old self.new (D.log disk.old) (D.log disk.new) (D.may_log disk.old) (D.may_log disk.new)) }
        ensures raised { D.tells → OnOk result ((D.page disk.new 0 0 ≡ Some (control_page (self.old.segment + 1 + 1) self.old.point)) × OnlyPages (D.page disk.new) (D.may_hold disk.new)) }
        ensures same { OnErr result (Same self.old self.new × (self.new.at ≡ self.old.at)) }
        ensures crash { D.tells → Crashes D.moment D.left_since D.may_log D.may_hold (forced_of self.old) disk.old disk.new (OrControl (self.old.segment + 1 + 1) self.old.point (D.may_hold disk.old)) }
        ensures clock { D.tells → D.moment disk.new ≤ D.moment disk.old + 4 }
        ensures cause { HasCause (D.fault_count disk.old) (D.fault_count disk.new) result }
    {
        match self.change_to_next(disk) {
            Ok(()) => Ok(self.put(r, size)),
            Err(_) => Err(Failed),
        }
    }

    /// Appends a record that names no segment.
    fn append_plain<D: Disk>(&mut self, disk: &mut D, r: &Record<'_>) -> Result<Lsn, LogAnswer>
        requires legal { IsLegal (end_of self.old) (record_of r.now) }
        requires plain { follower (body_of r.now.body) ≡ None }
        requires short { size_of (record_of r.now) ≤ 20000 }
        ensures place { IfOk result (λ at. PutAt None self.old (record_of r.now) at) }
        ensures forced { OnOk result (ForcedTo None self.old (record_of r.now) (forced_of self.new)) }
        ensures ends { IfOk result (λ at. EndsWith self.old self.new at (record_of r.now)) }
        ensures list { D.tells → OnOk result (Appends None (record_of r.now) self.old self.new (D.log disk.old) (D.log disk.new) (D.may_log disk.old) (D.may_log disk.new)) }
        ensures stays { D.tells → OnErr result (Stays self.old self.new (D.log disk.old) (D.log disk.new) (D.may_log disk.old) (D.may_log disk.new)) }
        ensures raised { D.tells → (FitsSegment self.old (record_of r.now) → ⊥) → OnOk result ((D.page disk.new 0 0 ≡ Some (control_page (self.old.segment + 1 + 1) self.old.point)) × OnlyPages (D.page disk.new) (D.may_hold disk.new)) }
        ensures same { OnErr result (Same self.old self.new × (self.new.at ≡ self.old.at)) }
        ensures crash { D.tells → Crashes D.moment D.left_since D.may_log D.may_hold (forced_of self.old) disk.old disk.new (OrControl (self.old.segment + 1 + 1) self.old.point (D.may_hold disk.old)) }
        ensures clock { D.tells → D.moment disk.new ≤ D.moment disk.old + 4 }
        ensures cause { MatchResult result (λ _. HasPlace None self.old (record_of r.now) (D.fault_count disk.old) (D.fault_count disk.new)) (λ e. HasAnswer None self.old (record_of r.now) (D.fault_count disk.old) (D.fault_count disk.new) e) }
    {
        let size = size(r);
        if !self.needs_segment(size) {
            return match self.append_here(disk, r, size) {
                Ok(at) => Ok(at),
                Err(_) => Err(LogAnswer::Failed),
            };
        }
        if self.segment == u32::MAX - 1 {
            return Err(LogAnswer::Full { segment: u32::MAX });
        }
        match self.append_next(disk, r, size) {
            Ok(at) => Ok(at),
            Err(_) => Err(LogAnswer::Failed),
        }
    }

    /// Appends a record that names a segment, and begins that segment.
    fn append_named<D: Disk>(
        &mut self,
        disk: &mut D,
        r: &Record<'_>,
        next: u32,
    ) -> Result<Lsn, LogAnswer>
        requires legal { IsLegal (end_of self.old) (record_of r.now) }
        requires named { follower (body_of r.now.body) ≡ Some next }
        ensures place { IfOk result (λ at. PutAt (Some next) self.old (record_of r.now) at) }
        ensures forced { OnOk result (ForcedTo (Some next) self.old (record_of r.now) (forced_of self.new)) }
        ensures ends { IfOk result (λ at. EndsWith self.old self.new at (record_of r.now)) }
        ensures list { D.tells → OnOk result (Appends (Some next) (record_of r.now) self.old self.new (D.log disk.old) (D.log disk.new) (D.may_log disk.old) (D.may_log disk.new)) }
        ensures stays { D.tells → OnErr result (Stays self.old self.new (D.log disk.old) (D.log disk.new) (D.may_log disk.old) (D.may_log disk.new)) }
        ensures raised { D.tells → OnOk result ((D.page disk.new 0 0 ≡ Some (control_page (next + 1) self.old.point)) × OnlyPages (D.page disk.new) (D.may_hold disk.new)) }
        ensures record { next < 2 ^ 32 - 1 → IsRecord (end_of self.old) (record_of r.now) }
        ensures same { OnErr result (Same self.old self.new × (self.new.at ≡ self.old.at)) }
        ensures crash { D.tells → Crashes D.moment D.left_since D.may_log D.may_hold (forced_of self.old) disk.old disk.new (OrControl (next + 1) self.old.point (D.may_hold disk.old)) }
        ensures clock { D.tells → D.moment disk.new ≤ D.moment disk.old + 4 }
        ensures cause { MatchResult result (λ _. HasPlace (Some next) self.old (record_of r.now) (D.fault_count disk.old) (D.fault_count disk.new)) (λ e. HasAnswer (Some next) self.old (record_of r.now) (D.fault_count disk.old) (D.fault_count disk.new) e) }
    {
        if next == u32::MAX {
            return Err(LogAnswer::Full { segment: next });
        }
        let at = self.end();
        match self.change(disk, r, next) {
            Ok(()) => Ok(at),
            Err(_) => Err(LogAnswer::Failed),
        }
    }

    /// Appends a record, and answers its place. It is durable after a force. A record that names a segment is the last of its own: it is forced, and
    /// the log goes on in the segment that it names.
    pub fn append<D: Disk>(&mut self, disk: &mut D, r: &Record<'_>) -> Result<Lsn, LogAnswer>
        requires legal { IsLegal (end_of self.old) (record_of r.now) }
        requires short { size_of (record_of r.now) ≤ 20000 }
        ensures place { IfOk result (λ at. PutAt (follower (body_of r.now.body)) self.old (record_of r.now) at) }
        ensures ends { IfOk result (λ at. EndsWith self.old self.new at (record_of r.now)) }
        ensures forced { OnOk result (ForcedTo (follower (body_of r.now.body)) self.old (record_of r.now) (forced_of self.new)) }
        ensures list { D.tells → OnOk result (Appends (follower (body_of r.now.body)) (record_of r.now) self.old self.new (D.log disk.old) (D.log disk.new) (D.may_log disk.old) (D.may_log disk.new)) }
        ensures stays { D.tells → OnErr result (Stays self.old self.new (D.log disk.old) (D.log disk.new) (D.may_log disk.old) (D.may_log disk.new)) }
        ensures raised { D.tells → NeedsSegment (follower (body_of r.now.body)) self.old (record_of r.now) → OnOk result ((D.page disk.new 0 0 ≡ Some (control_page (number_by (follower (body_of r.now.body)) self.old + 1) self.old.point)) × OnlyPages (D.page disk.new) (D.may_hold disk.new)) }
        ensures beyond { number_by (follower (body_of r.now.body)) self.old < 2 ^ 32 - 1 → AreRecords (end_of self.old) (beyond (follower (body_of r.now.body)) self.old (record_of r.now)) }
        ensures same { OnErr result (Same self.old self.new × (self.new.at ≡ self.old.at)) }
        ensures crash { D.tells → Crashes D.moment D.left_since D.may_log D.may_hold (forced_of self.old) disk.old disk.new (OrControl (number_by (follower (body_of r.now.body)) self.old + 1) self.old.point (D.may_hold disk.old)) }
        ensures clock { D.tells → D.moment disk.new ≤ D.moment disk.old + 4 }
        ensures cause { MatchResult result (λ _. HasPlace (follower (body_of r.now.body)) self.old (record_of r.now) (D.fault_count disk.old) (D.fault_count disk.new)) (λ e. HasAnswer (follower (body_of r.now.body)) self.old (record_of r.now) (D.fault_count disk.old) (D.fault_count disk.new) e) }
    {
        match named(&r.body) {
            Some(next) => self.append_named(disk, r, next),
            None => self.append_plain(disk, r),
        }
    }
}
