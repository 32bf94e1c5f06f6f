//! What holds of every log.

ghost use Rattle.std.specs.Prelude.{◌≡◌, ℕ, List, ◌++◌, drop};
ghost use Rattle.dby_types.specs.declared.number.Lsn.{Lsn};
ghost use Rattle.device.specs.Disk.{Image, IsImage, Segments};
ghost use Rattle.log_records.specs.Content.{LogRecord};
ghost use Rattle.log_file.specs.Crash.{AreRecords, KeepsBytes, OnlyAppended, ReadsFront, Stands};
ghost use Rattle.log_file.specs.List.{IsLog, Reads, forced_of, in_log, on_disk};
ghost use Rattle.log_file.specs.Tail.{end_of};

use crate::file::LogFile;
use device::Disk;

impl LogFile {
    /// A log is read as its list.
    pub fn is_read(&self)
        ensures { (log : Segments) (from : Lsn) (rs : List LogRecord) (n : ℕ) → IsLog self.now log from rs n → Reads (in_log self.now log) from rs }
    {}

    /// What is read after a crash is a front of the list that has all that was forced, where torn bytes are no record; and so of a crash within a
    /// call that was to append others.
    pub fn after_crash<D: Disk>(&self, disk: &D)
        ensures now { D.tells → (from : Lsn) (rs : List LogRecord) (n : ℕ) → Stands self.now (D.log disk.now) (D.may_log disk.now) from rs n → (i : Image) → IsImage (D.may_hold disk.now) (D.may_log disk.now) i
            → OnlyAppended (on_disk i.log) (forced_of self.now) (drop n rs) → ReadsFront (on_disk i.log) from rs n }
        ensures within { D.tells → (from : Lsn) (rs more : List LogRecord) (n : ℕ) → Stands self.now (D.log disk.now) (D.may_log disk.now) from rs n → (i : Image) → ((s : ℕ) → KeepsBytes (forced_of self.now) (D.may_log disk.now) s (i.log s))
            → AreRecords (end_of self.now) more → OnlyAppended (on_disk i.log) (forced_of self.now) (drop n rs ++ more) → ReadsFront (on_disk i.log) from (rs ++ more) n }
    {}
}
