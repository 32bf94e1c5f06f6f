//! The log written and synced.

ghost use Rattle.std.specs.Prelude.{◌≡◌, ◌≤◌, ◌+◌, [], Some, OnOk, OnErr, take};
ghost use Rattle.device.specs.Counts.{HasCause};
ghost use Rattle.device.specs.Disk.{OnlyLog, OnlyPages, SameLog, SegmentIs, written_at};
ghost use Rattle.log_file.specs.Control.{control_page};
ghost use Rattle.log_file.specs.Crash.{Crashes, Forces, OrControl, Stays};
ghost use Rattle.log_file.specs.List.{forced_of};
ghost use Rattle.log_file.specs.Tail.{Grows, IsOn, Same};

use crate::control::raise;
use crate::file::LogFile;
use device::{Disk, Failed};

impl LogFile {
    /// Writes so many bytes of the buffer behind the forced end, and syncs.
    pub(crate) fn write_front<D: Disk>(&self, disk: &mut D, n: usize) -> Result<(), Failed>
        requires { (n ≤ 65536) × (self.now.forced + n ≤ 16777216) }
        ensures written { D.tells → OnOk result (SegmentIs self.now.segment (written_at (D.log disk.old self.now.segment) self.now.forced (take n self.now.buffer.items)) (D.log disk.old) (D.log disk.new) × OnlyLog (D.log disk.new) (D.may_log disk.new)) }
        ensures crash { D.tells → Crashes D.moment D.left_since D.may_log D.may_hold (forced_of self.now) disk.old disk.new (D.may_hold disk.old) }
        ensures clock { D.tells → D.moment disk.new ≤ D.moment disk.old + 2 }
        ensures cause { HasCause (D.fault_count disk.old) (D.fault_count disk.new) result }
    {
        match disk.log_write(self.segment, self.forced as u32, &self.buffer[..n]) {
            Ok(()) => {}
            Err(_) => {
                return Err(Failed);
            }
        }
        match disk.log_sync() {
            Ok(()) => Ok(()),
            Err(_) => Err(Failed),
        }
    }

    /// Makes all appended records durable.
    pub fn force<D: Disk>(&mut self, disk: &mut D) -> Result<(), Failed>
        ensures forced { D.tells → IsOn self.old (D.log disk.old) → OnOk result (Grows self.old self.new (D.log disk.old) (D.log disk.new) [] × OnlyLog (D.log disk.new) (D.may_log disk.new)) }
        ensures list { D.tells → OnOk result (Forces self.old self.new (D.log disk.old) (D.log disk.new) (D.may_log disk.old) (D.may_log disk.new)) × OnErr result (Stays self.old self.new (D.log disk.old) (D.log disk.new) (D.may_log disk.old) (D.may_log disk.new)) }
        ensures all { OnOk result ((self.new.forced ≡ self.old.forced + self.old.used) × (self.new.used ≡ 0) × (self.new.segment ≡ self.old.segment) × (self.new.point ≡ self.old.point) × (self.new.at ≡ self.old.at)) }
        ensures same { OnErr result (Same self.old self.new × (self.new.at ≡ self.old.at)) }
        ensures crash { D.tells → Crashes D.moment D.left_since D.may_log D.may_hold (forced_of self.old) disk.old disk.new (D.may_hold disk.old) }
        ensures clock { D.tells → D.moment disk.new ≤ D.moment disk.old + 2 }
        ensures cause { HasCause (D.fault_count disk.old) (D.fault_count disk.new) result }
    {
        match self.write_front(disk, self.used) {
            Ok(()) => {}
            Err(_) => {
                return Err(Failed);
            }
        }
        self.forced += self.used;
        self.used = 0;
        Ok(())
    }

    /// Writes and syncs the control page with the number behind this segment and the checkpoint's place.
    pub fn write_control<D: Disk>(&mut self, disk: &mut D) -> Result<(), Failed>
        ensures raised { D.tells → OnOk result ((D.page disk.new 0 0 ≡ Some (control_page (self.old.segment + 1) self.old.point)) × OnlyPages (D.page disk.new) (D.may_hold disk.new)) }
        ensures log { D.tells → OnOk result (SameLog (D.log disk.old) (D.log disk.new)) }
        ensures list { D.tells → Stays self.old self.new (D.log disk.old) (D.log disk.new) (D.may_log disk.old) (D.may_log disk.new) }
        ensures crash { D.tells → Crashes D.moment D.left_since D.may_log D.may_hold (forced_of self.old) disk.old disk.new (OrControl (self.old.segment + 1) self.old.point (D.may_hold disk.old)) }
        ensures same { self.new ≡ self.old }
        ensures clock { D.tells → D.moment disk.new ≤ D.moment disk.old + 2 }
        ensures cause { HasCause (D.fault_count disk.old) (D.fault_count disk.new) result }
    {
        raise(disk, self.segment + 1, self.point)
    }
}
