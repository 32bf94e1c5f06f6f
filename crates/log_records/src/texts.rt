//! What tells the bodies of records.

ghost use Rattle.std.specs.Prelude.{◌≡◌, ◌↔◌, ◌≤◌, ◌^◌, IsTrue};
ghost use Rattle.log_records.specs.Reading.{IsHeapText, IsEntryText, IsCreateText, IsDiscardText, IsCompensationText, IsSplitText, IsGrowText, IsMarkText, IsNextText, IsPurgeText};

use crate::back::is_back;
use crate::field::{get_byte, get_lsn};
use crate::lists::{TXNS, are_images, are_open};
use dby_bytes::{get_u16, get_u32, get_u64};
use dby_types::number::Lsn;

/// The first number that no container has.
pub const CONTAINERS: u32 = 1 << 31;

/// Whether the bytes are the body of a heap change.
pub fn is_heap(b: &[u8]) -> bool
    ensures { IsTrue result ↔ IsHeapText b.now }
{
    b.len() >= 14
        && b.len() == 14 + 2 * get_u16(b, 12) as usize
        && get_u32(b, 0) < CONTAINERS
        && get_byte(b, 10) < 4
        && get_byte(b, 11) < 4
}

/// Whether the bytes are the body of an entry change.
pub fn is_entry(b: &[u8]) -> bool
    ensures { IsTrue result ↔ IsEntryText b.now }
{
    b.len() >= 13
        && b.len() == 13 + 2 * get_u16(b, 11) as usize
        && get_u32(b, 0) < CONTAINERS
        && get_byte(b, 10) >= 1
        && get_byte(b, 10) <= 4
}

/// Whether the bytes are the body of the making of a container.
pub fn is_create(b: &[u8]) -> bool
    ensures { IsTrue result ↔ IsCreateText b.now }
{
    b.len() == 5 && get_u32(b, 0) < CONTAINERS && get_byte(b, 4) <= 1
}

/// Whether the bytes are a container.
pub fn is_discard(b: &[u8]) -> bool
    ensures { IsTrue result ↔ IsDiscardText b.now }
{
    b.len() == 4 && get_u32(b, 0) < CONTAINERS
}

/// Whether the bytes begin as a compensation at a record's place.
pub fn is_compensation(b: &[u8], at: Lsn) -> bool
    ensures { IsTrue result ↔ IsCompensationText at b.now }
{
    b.len() >= 9 && is_back(get_lsn(b, 0), at)
}

/// Whether the bytes are the body of a split.
pub fn is_split(b: &[u8]) -> bool
    ensures { IsTrue result ↔ IsSplitText b.now }
{
    if b.len() < 5 {
        return false;
    }
    let count = get_byte(b, 4) as usize;
    b.len() == 5 + 4100 * count && get_u32(b, 0) < CONTAINERS && are_images(&b[5..], count)
}

/// Whether the bytes are the body of a new page.
pub fn is_grow(b: &[u8]) -> bool
    ensures { IsTrue result ↔ IsGrowText b.now }
{
    b.len() == 9 && get_u32(b, 0) < CONTAINERS && get_byte(b, 8) <= 4
}

/// Whether the bytes are the body of a checkpoint at a record's place.
pub fn is_mark(b: &[u8], at: Lsn) -> bool
    ensures { IsTrue result ↔ IsMarkText at b.now }
{
    if b.len() < 22 {
        return false;
    }
    let count = get_u16(b, 20) as usize;
    if b.len() != 22 + 16 * count {
        return false;
    }
    is_next(get_u32(b, 8), get_u64(b, 12)) && are_open(&b[22..], count, at)
}

/// Whether these are numbers that a checkpoint gives next.
fn is_next(container: u32, txn: u64) -> bool
    ensures { IsTrue result ↔ (16 ≤ container × container ≤ 2 ^ 31 × 1 ≤ txn × txn ≤ 2 ^ 62) }
{
    container >= 16 && container <= CONTAINERS && txn >= 1 && txn <= TXNS
}

/// Whether the bytes are the number of a segment behind a record's.
pub fn is_next_segment(b: &[u8], at: Lsn) -> bool
    ensures { IsTrue result ↔ IsNextText at b.now }
{
    b.len() == 4 && get_u32(b, 0) > at.segment
}

/// Whether the bytes are the body of a purge.
pub fn is_purge(b: &[u8]) -> bool
    ensures { IsTrue result ↔ IsPurgeText b.now }
{
    b.len() == 10 && get_u32(b, 0) < CONTAINERS
}
