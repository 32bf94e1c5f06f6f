//! What a log keeps in memory.

ghost use Rattle.std.specs.Prelude.{◌≡◌, ◌≤◌, ◌<◌, ◌+◌, ◌^◌, ◌-◌, take, length};
ghost use Rattle.log_records.specs.Reading.{IsWhole};

use dby_types::number::Lsn;

/// The bytes of a segment.
pub const SEGMENT: usize = 16_777_216;

/// The bytes that are kept until they are forced.
pub const BUFFER: usize = 65_536;

/// The bytes of the longest record of the format, a checkpoint of 65,535 transactions.
pub const LONGEST: usize = 1_048_622;

/// A log: the bytes appended since the last force, where they belong, and the place that is read next.
#[derive(Debug, Drop)]
pub struct LogFile {
    pub(crate) buffer: Vec<u8>,
    pub(crate) used: usize,
    pub(crate) segment: u32,
    pub(crate) forced: usize,
    pub(crate) window: Vec<u8>,
    pub(crate) at: Lsn,
    pub(crate) point: Lsn,
    pub(crate) found: usize,
    pub(crate) from: Lsn,
    ghost buffer_is: { length buffer.items ≡ 65536 },
    ghost used_is: { used + 44 ≤ 65536 },
    ghost room_is: { forced + used + 44 ≤ 16777216 },
    ghost segment_is: { (1 ≤ segment) × (segment ≤ 2 ^ 32 - 2) },
    ghost window_is: { length window.items ≡ 1048622 },
    ghost found_is: { found ≤ 1048622 },
    ghost whole_is: { 0 < found → IsWhole from (take found window.items) found },
}
