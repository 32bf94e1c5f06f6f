//! A log over a disk in memory.

ghost use Rattle.std.specs.Prelude.{◌≡◌, ◌≤◌, length};

use dby_types::number::Lsn;
use device_mem::disk::MemDisk;
use log_file::file::LogFile;
use log_records::record::{Base, Body, Record};
use log_records::sum::record_sum;
use std::alloc::{AllocError, Global};

const NONE: Lsn = Lsn {
    segment: 0,
    offset: 0,
};

/// Appends a change of a row with this text, and forces it where that is asked. The answer is 1 where it was done.
fn append(log: &mut LogFile, disk: &mut MemDisk, text: &[u8], force: bool) -> u64
    requires { length text.now ≤ 8000 }
{
    let record = Record {
        txn: 1,
        back: NONE,
        body: Body::Change(Base::Heap {
            container: 16,
            page: 1,
            slot: 0,
            flags_before: 2,
            flags_after: 0,
            before: text,
            after: text,
        }),
    };
    if log.append(disk, &record).is_err() {
        return 0;
    }
    if force && log.force(disk).is_err() {
        return 0;
    }
    1
}

/// Appends so many, and counts them.
fn append_each(log: &mut LogFile, disk: &mut MemDisk, times: u32, text: &[u8], force: bool) -> u64
    requires { length text.now ≤ 8000 }
{
    let mut found = 0_u64;
    for _ in 0..times {
        found = found.wrapping_add(append(log, disk, text, force));
    }
    found
}

/// So many bytes, or all where that is more.
fn front(all: &[u8; 8000], bytes: u32) -> &[u8]
    ensures { length result.now ≤ 8000 }
{
    let long = (bytes as usize).min(8000);
    &all.as_slice()[..long]
}

/// Reads so many, and counts those that are of transaction 1.
fn read_each(log: &mut LogFile, disk: &mut MemDisk, times: u32) -> u64 {
    let mut found = 0_u64;
    for _ in 0..times {
        if log.advance(disk).is_err() {
            return 0;
        }
        if let Some((_at, r)) = log.current() {
            found = found.wrapping_add(r.txn);
        }
    }
    found
}

/// Appends so many records with rows of so many bytes. The answer is how often it was done.
pub fn appends(alloc: Global, times: u32, bytes: u32, force: bool) -> Result<u64, AllocError> {
    let mut disk = MemDisk::new(alloc);
    let mut log = LogFile::new(alloc, 1)?;
    Ok(append_each(&mut log, &mut disk, times, front(&[7; 8000], bytes), force))
}

/// Appends so many records and forces each, with a disk of its own for each 256 of them. The answer is how often it was done.
pub fn forced(alloc: Global, times: u32, bytes: u32) -> Result<u64, AllocError> {
    let mut found = 0_u64;
    for _ in 0..times / 256 {
        found = found.wrapping_add(appends(alloc, 256, bytes, true)?);
    }
    Ok(found.wrapping_add(appends(alloc, times % 256, bytes, true)?))
}

/// Appends so many records, and reads as many from the log's start. The answer is how often both were done.
pub fn reads(alloc: Global, times: u32, bytes: u32) -> Result<u64, AllocError> {
    let mut disk = MemDisk::new(alloc);
    let mut log = LogFile::new(alloc, 1)?;
    let found = append_each(&mut log, &mut disk, times, front(&[7; 8000], bytes), false);
    Ok(found.wrapping_add(read_each(&mut log, &mut disk, times)))
}

/// Takes the sum of 65,536 bytes so often. The answer counts those that are the first one's.
pub fn sums(alloc: Global, times: u32) -> Result<u64, AllocError> {
    let bytes = vec![in alloc; 7_u8; 65_536]?;
    let first = record_sum(bytes.as_slice());
    let mut found = 0_u64;
    for _ in 0..times {
        if record_sum(bytes.as_slice()) == first {
            found = found.wrapping_add(1);
        }
    }
    Ok(found)
}
