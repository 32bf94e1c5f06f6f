//! Where a log begins, where it ends, and where it is read.

ghost use Rattle.std.specs.Prelude.{◌≡◌, ◌≤◌, ◌<◌, ◌+◌, ◌^◌, ◌-◌, ℕ, [], IfOk};
ghost use Rattle.device.specs.Disk.{Segments};
ghost use Rattle.log_file.specs.Crash.{IsUnmoved};
ghost use Rattle.dby_types.specs.declared.number.Lsn.{Lsn};
ghost use Rattle.log_file.specs.List.{IsLog, forced_of, in_log, on_disk};
ghost use Rattle.log_file.specs.Tail.{end_of};

use crate::file::{BUFFER, LONGEST, LogFile};
use dby_types::number::Lsn;
use std::alloc::{AllocError, Global};

impl LogFile {
    /// An empty log whose next record begins a segment. It takes all the memory that it needs.
    pub fn new(alloc: Global, segment: u32) -> Result<LogFile, AllocError>
        requires { (1 ≤ segment) × (segment ≤ 2 ^ 32 - 2) }
        ensures segment { IfOk result (λ l. l.segment ≡ segment) }
        ensures empty { IfOk result (λ l. (l.forced ≡ 0) × (l.used ≡ 0)) }
        ensures list { IfOk result (λ l. (log : Segments) → ((s : ℕ) → segment < s → log s ≡ []) → IsLog l log (record { segment = segment; offset = 0 }) [] 0) }
        ensures reads { IfOk result (λ l. (log : Segments) → log segment ≡ [] → (at : Lsn) → in_log l log at ≡ on_disk log at) }
        ensures places { IfOk result (λ l. (l.at ≡ record { segment = segment; offset = 0 }) × (l.point ≡ record { segment = 0; offset = 0 })) }
    {
        let buffer = vec![in alloc; 0; BUFFER]?;
        let window = vec![in alloc; 0; LONGEST]?;
        Ok(LogFile {
            buffer,
            used: 0,
            segment,
            forced: 0,
            window,
            at: Lsn { segment, offset: 0 },
            point: Lsn {
                segment: 0,
                offset: 0,
            },
            found: 0,
            from: Lsn { segment, offset: 0 },
        })
    }

    /// The place behind the last record.
    pub fn end(&self) -> Lsn
        ensures { result ≡ end_of self.now }
    {
        Lsn {
            segment: self.segment,
            offset: (self.forced + self.used) as u32,
        }
    }

    /// The place behind the last record that is forced.
    pub fn forced(&self) -> Lsn
        ensures { result ≡ forced_of self.now }
    {
        Lsn {
            segment: self.segment,
            offset: self.forced as u32,
        }
    }

    /// Reading goes on at this place.
    pub fn seek(&mut self, at: Lsn)
        ensures exact { self.new ≡ record self.old { at = at } }
        ensures list { IsUnmoved self.old self.new }
    {
        self.at = at;
    }

    /// The checkpoint place that the next control page carries. Writes nothing.
    pub fn point(&mut self, at: Lsn)
        ensures exact { self.new ≡ record self.old { point = at } }
        ensures list { IsUnmoved self.old self.new }
    {
        self.point = at;
    }
}
