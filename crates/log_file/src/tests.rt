//! A log over a disk in memory: the worked record, torn ends, a segment that is full to its last byte, and each call that fails.

ghost use Rattle.std.specs.Prelude.{◌≡◌, ◌≤◌, length};

use crate::answer::LogAnswer;
use crate::file::LogFile;
use dby_types::number::Lsn;
use device::Disk;
use device_mem::disk::{Images, MemDisk};
use log_records::record::{Base, Body, Record};
use std::alloc::Global;

/// A commit of transaction 5 at 1.0, as the format's document has it.
const STORED: [u8; 40] = [
    0xcc, 0x7d, 0x38, 0x1a, 0xdd, 0x68, 0x08, 0xeb, 0x00, 0x00, 0x00, 0x28, 0x00, 0x00, 0x00, 0x01,
    0x00, 0x00, 0x00, 0x00, 0x06, 0x00, 0x00, 0x00, 0x00, 0x00, 0x00, 0x00, 0x00, 0x00, 0x00, 0x05,
    0x00, 0x00, 0x00, 0x00, 0x00, 0x00, 0x00, 0x00,
];

const NONE: Lsn = Lsn {
    segment: 0,
    offset: 0,
};

/// Where the record that names the next segment has just its 44 bytes.
const LAST: Lsn = Lsn {
    segment: 1,
    offset: 16_777_172,
};

fn place(segment: u32, offset: u32) -> Lsn {
    Lsn { segment, offset }
}

fn commit(log: &mut LogFile, disk: &mut MemDisk, txn: u32) -> Result<Lsn, LogAnswer> {
    let record = Record {
        txn: txn as u64,
        back: NONE,
        body: Body::Commit,
    };
    log.append(disk, &record)
}

/// Appends a change of a row of so many bytes: 54 bytes and twice as many.
fn heap_change(log: &mut LogFile, disk: &mut MemDisk, text: &[u8]) -> Result<Lsn, LogAnswer>
    requires { length text.now ≤ 9960 }
{
    let record = Record {
        txn: 5,
        back: NONE,
        body: Body::Change(Base::Heap {
            container: 16,
            page: 1,
            slot: 0,
            flags_before: 2,
            flags_after: 0,
            before: text,
            after: text,
        }),
    };
    log.append(disk, &record)
}

/// Reads the record at the place where reading goes on: its transaction and its place.
fn read(log: &mut LogFile, disk: &mut MemDisk) -> Option<(u64, Lsn)> {
    if log.advance(disk).is_err() {
        return None;
    }
    match log.current() {
        Some((at, r)) => Some((r.txn, at)),
        None => None,
    }
}

/// Whether the records at 1.0 are one of transaction 5 and then none.
fn reads_one(log: &mut LogFile, disk: &mut MemDisk) -> bool {
    log.seek(place(1, 0));
    read(log, disk) == Some((5, place(1, 0))) && read(log, disk).is_none()
}

#[test]
fn worked_record(rt: HostRuntime) {
    let mut disk = MemDisk::new(rt.alloc());
    let mut log = LogFile::new(rt.alloc(), 1).expect(&rt, "memory");
    assert!(rt; commit(&mut log, &mut disk, 5) == Ok(place(1, 0)));
    assert!(rt; reads_one(&mut log, &mut disk));
    assert!(rt; log.force(&mut disk).is_ok());
    let mut bytes = [0xee; 48];
    assert!(rt; disk.log_read(1, 0, &mut bytes) == Ok(40));
    assert!(rt; bytes.as_slice().starts_with(&STORED));
    assert!(rt; reads_one(&mut log, &mut disk));
}

/// The first segment of a disk has these bytes.
fn disk_of(alloc: Global, bytes: &[u8]) -> Option<MemDisk>
    requires { length bytes.now ≤ 80 }
{
    let mut disk = MemDisk::new(alloc);
    match disk.log_write(1, 0, bytes) {
        Ok(()) => Some(disk),
        Err(_) => None,
    }
}

/// Whether of two records, the second with a torn end, the first alone is read.
fn ends_before(alloc: Global, log: &mut LogFile, bytes: &[u8]) -> bool
    requires { length bytes.now ≤ 80 }
{
    match disk_of(alloc, bytes) {
        Some(disk) => {
            let mut torn = disk;
            reads_one(log, &mut torn)
        }
        None => false,
    }
}

/// For how many bytes of the second record a log that ends there, or has that byte otherwise, ends before it.
fn torn_ends(alloc: Global, log: &mut LogFile, whole: &[u8; 80]) -> u32 {
    let mut found = 0_u32;
    for i in 40..80 {
        let mut bytes = *whole;
        if ends_before(alloc, log, &bytes[..i]) {
            found = found.wrapping_add(1);
        }
        bytes[i] ^= 0x10;
        if ends_before(alloc, log, &bytes) {
            found = found.wrapping_add(1);
        }
    }
    found
}

#[test]
fn torn_record_ends_the_log(rt: HostRuntime) {
    let mut disk = MemDisk::new(rt.alloc());
    let mut log = LogFile::new(rt.alloc(), 1).expect(&rt, "memory");
    assert!(rt; commit(&mut log, &mut disk, 5) == Ok(place(1, 0)));
    assert!(rt; commit(&mut log, &mut disk, 6) == Ok(place(1, 40)));
    assert!(rt; log.force(&mut disk).is_ok());
    let mut whole = [0; 80];
    assert!(rt; disk.log_read(1, 0, &mut whole) == Ok(80));
    let mut later = LogFile::new(rt.alloc(), 2).expect(&rt, "memory");
    assert!(rt; torn_ends(rt.alloc(), &mut later, &whole) == 80);
}

/// Appends 839 records of 19,974 bytes and one of 18,986, and answers where the log ends then.
fn fill(log: &mut LogFile, disk: &mut MemDisk, text: &[u8; 9960], last: &[u8; 9466]) -> Lsn {
    for _ in 0..839 {
        let _ = heap_change(log, disk, text.as_slice());
    }
    let _ = heap_change(log, disk, last.as_slice());
    log.end()
}

/// Whether the last 44 bytes of the first segment name the second, and the control page the third.
fn is_left(disk: &mut MemDisk) -> bool {
    let mut bytes = [0xee; 48];
    let mut page = [0; 4096];
    if disk.log_read(LAST.segment, LAST.offset, &mut bytes) != Ok(44) {
        return false;
    }
    if disk.page_read(0, 0, &mut page) != Ok(true) {
        return false;
    }
    bytes[11] == 44 && bytes[20] == 9 && bytes[43] == 2 && page[35] == 1 && page[39] == 3
}

/// Whether a change of segment is done after each of its four calls failed once, and nothing was appended before.
fn changes_at_last(log: &mut LogFile, disk: &mut MemDisk) -> bool {
    for k in 0..4 {
        disk.fuse(k);
        if commit(log, disk, 6) != Err(LogAnswer::Failed) || log.end() != LAST {
            return false;
        }
    }
    disk.fuse(u64::MAX);
    commit(log, disk, 6) == Ok(place(2, 0))
}

#[test]
fn segment_is_filled_to_its_last_byte(rt: HostRuntime) {
    let mut disk = MemDisk::new(rt.alloc());
    let mut log = LogFile::new(rt.alloc(), 1).expect(&rt, "memory");
    assert!(rt; fill(&mut log, &mut disk, &[7; 9960], &[7; 9466]) == LAST);
    assert!(rt; changes_at_last(&mut log, &mut disk));
    assert!(rt; is_left(&mut disk));
    log.seek(LAST);
    assert!(rt; read(&mut log, &mut disk) == Some((0, LAST)));
    assert!(rt; read(&mut log, &mut disk) == Some((6, place(2, 0))));
    assert!(rt; read(&mut log, &mut disk).is_none());
}

/// Appends a record that names a later segment, and leaves an earlier one be.
fn name_segment(log: &mut LogFile, disk: &mut MemDisk, segment: u32) -> Result<Lsn, LogAnswer> {
    if log.end().segment >= segment {
        return Err(LogAnswer::Failed);
    }
    let record = Record {
        txn: 0,
        back: NONE,
        body: Body::NextSegment { segment },
    };
    log.append(disk, &record)
}

/// Whether the control page has this next number of a segment.
fn has_number(disk: &mut MemDisk, next: u8) -> bool {
    let mut page = [0; 4096];
    disk.page_read(0, 0, &mut page) == Ok(true) && page[35] == 1 && page[39] == next
}

#[test]
fn record_that_names_a_segment_ends_its_own(rt: HostRuntime) {
    let mut disk = MemDisk::new(rt.alloc());
    let mut log = LogFile::new(rt.alloc(), 1).expect(&rt, "memory");
    assert!(rt; commit(&mut log, &mut disk, 5) == Ok(place(1, 0)));
    assert!(rt; name_segment(&mut log, &mut disk, 7) == Ok(place(1, 40)));
    assert!(rt; has_number(&mut disk, 8));
    assert!(rt; log.end() == place(7, 0));
    assert!(rt; commit(&mut log, &mut disk, 6) == Ok(place(7, 0)));
    assert!(rt;
        name_segment(&mut log, &mut disk, u32::MAX) == Err(LogAnswer::Full { segment: u32::MAX })
    );
    log.seek(place(1, 0));
    assert!(rt; read(&mut log, &mut disk) == Some((5, place(1, 0))));
    assert!(rt; read(&mut log, &mut disk) == Some((0, place(1, 40))));
    assert!(rt; read(&mut log, &mut disk) == Some((6, place(7, 0))));
    assert!(rt; read(&mut log, &mut disk).is_none());
}

/// Whether a force is done after each of its two calls failed once, and nothing was forced before.
fn forces_at_last(log: &mut LogFile, disk: &mut MemDisk) -> bool {
    for k in 0..2 {
        disk.fuse(k);
        if log.force(disk).is_ok() || log.forced() != place(1, 0) || log.end() != place(1, 40) {
            return false;
        }
    }
    disk.fuse(u64::MAX);
    log.force(disk).is_ok() && log.forced() == place(1, 40)
}

#[test]
fn failed_force_loses_nothing(rt: HostRuntime) {
    let mut disk = MemDisk::new(rt.alloc());
    let mut log = LogFile::new(rt.alloc(), 1).expect(&rt, "memory");
    assert!(rt; commit(&mut log, &mut disk, 5) == Ok(place(1, 0)));
    assert!(rt; forces_at_last(&mut log, &mut disk));
    assert!(rt; reads_one(&mut log, &mut disk));
    assert!(rt; disk.faults() == 2);
}

/// Whether a record that finds the buffer full is appended after each of the two calls of its force failed once.
fn appends_at_last(log: &mut LogFile, disk: &mut MemDisk, text: &[u8; 9960]) -> bool {
    for _ in 0..3 {
        let _ = heap_change(log, disk, text.as_slice());
    }
    for k in 0..2 {
        disk.fuse(k);
        if heap_change(log, disk, text.as_slice()) != Err(LogAnswer::Failed) {
            return false;
        }
    }
    disk.fuse(u64::MAX);
    heap_change(log, disk, text.as_slice()) == Ok(place(1, 59_922))
        && log.forced() == place(1, 59_922)
}

#[test]
fn failed_append_appends_nothing(rt: HostRuntime) {
    let mut disk = MemDisk::new(rt.alloc());
    let mut log = LogFile::new(rt.alloc(), 1).expect(&rt, "memory");
    assert!(rt; appends_at_last(&mut log, &mut disk, &[7; 9960]));
    assert!(rt; log.end() == place(1, 79_896));
}

/// Whether the records at 1.0 are one of transaction 5 and then none, or one of transaction 6 and then none.
fn reads_front(log: &mut LogFile, disk: &mut MemDisk) -> bool {
    log.seek(place(1, 0));
    if read(log, disk) != Some((5, place(1, 0))) {
        return false;
    }
    match read(log, disk) {
        Some((6, at)) => at == place(1, 40) && read(log, disk).is_none(),
        Some(_) => false,
        None => true,
    }
}

/// In how many of these disks a log has what was forced of it, and a front of the rest.
fn having_front(log: &mut LogFile, images: &mut Images) -> usize {
    let mut n: usize = 0;
    for image in images.iter_mut() {
        if reads_front(log, image) {
            n = n.saturating_add(1);
        }
    }
    n
}

#[test]
fn every_image_of_a_force_has_what_was_forced(rt: HostRuntime) {
    let mut disk = MemDisk::new(rt.alloc());
    let mut log = LogFile::new(rt.alloc(), 1).expect(&rt, "memory");
    assert!(rt; commit(&mut log, &mut disk, 5) == Ok(place(1, 0)));
    assert!(rt; log.force(&mut disk).is_ok());
    let since = disk.clock();
    assert!(rt; since == 2);
    assert!(rt; commit(&mut log, &mut disk, 6) == Ok(place(1, 40)));
    assert!(rt; log.force(&mut disk).is_ok());
    let mut later = LogFile::new(rt.alloc(), 2).expect(&rt, "memory");
    let images = disk.images(since);
    assert!(rt; images.is_ok());
    if let Ok(mut images) = images {
        assert!(rt; images.len() == 92);
        assert!(rt; having_front(&mut later, &mut images) == 92);
    }
}
