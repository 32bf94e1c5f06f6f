//! The fields of a page, judged in the order of their places.

ghost use Rattle.std.specs.Prelude.{◌≡◌, ◌↔◌, ◌≤◌, ◌<◌, ◌+◌, ◌*◌, ℕ, IsTrue, MatchOption};
ghost use Rattle.slotted_page.specs.Format.{AreRightBelow, IsCountFor, IsFirstWrong, IsKindFor, IsRightAt, count_at, directory_at, directory_end, end_at, own_id};

use dby_bytes::{get_u16, get_u32};
use dby_types::number::PageId;

/// Whether a page may be of a kind.
fn is_kind_for(container: u32, page: u32, kind: u8) -> bool
    ensures { IsTrue result ↔ IsKindFor container page kind }
{
    if container == 0 {
        return page == 0 && kind == 0;
    }
    if page == 0 {
        return kind == 1;
    }
    kind >= 2 && kind <= 4
}

/// Whether a page of a kind may have so many records.
fn is_count_for(kind: u8, count: u16) -> bool
    ensures { IsTrue result ↔ IsCountFor kind count }
{
    if kind == 0 {
        return count == 0;
    }
    if kind == 1 {
        return count == 1;
    }
    count <= 812
}

/// The first of the first 32 bytes' fields that breaks the format.
fn wrong_front(b: &[u8; 4096], id: PageId) -> Option<u32>
    ensures exact { MatchOption result (AreRightBelow id b.now 32) (IsFirstWrong id b.now) }
{
    if get_u32(b, 8) != id.container {
        return Some(8);
    }
    if get_u32(b, 12) != id.page {
        return Some(12);
    }
    if !is_kind_for(id.container, id.page, b[16]) {
        return Some(16);
    }
    if b[17] != 0 {
        return Some(17);
    }
    if !is_count_for(b[16], get_u16(b, 18)) {
        return Some(18);
    }
    None
}

/// Where the directory of a page of a kind begins.
fn directory_start(kind: u8) -> usize
    ensures { result ≡ directory_at kind }
{
    if kind == 0 { 48 } else { 32 }
}

/// Whether a record may start at a place.
fn is_start(kind: u8, start: usize, low: usize, end: usize) -> bool
    ensures { IsTrue result ↔ ((low ≤ start) × (start < end) × (kind ≡ 1 → start ≡ 4091)) }
{
    if kind == 1 && start != 4091 {
        return false;
    }
    low <= start && start < end
}

/// The first field of the directory that breaks the format.
fn wrong_entry(b: &[u8; 4096]) -> Option<u32>
    requires { AreRightBelow (own_id b.now) b.now 32 }
    ensures exact { MatchOption result (AreRightBelow (own_id b.now) b.now (32 + 4 * count_at b.now)) (IsFirstWrong (own_id b.now) b.now) }
{
    let count = get_u16(b, 18) as usize;
    let low = directory_start(b[16]) + 4 * count;
    let mut end = 4096;
    for i in 0..count {
        let at = 32 + 4 * i;
        let start = get_u16(b, at) as usize;
        if !is_start(b[16], start, low, end) {
            return Some(at as u32);
        }
        if start + get_u16(b, at + 2) as usize != end {
            return Some(at as u32 + 2);
        }
        end = start;
    }
    None
}

/// The field of a control page's own bytes that breaks the format.
fn wrong_own(b: &[u8; 4096]) -> Option<u32>
    requires { AreRightBelow (own_id b.now) b.now (32 + 4 * count_at b.now) }
    ensures exact { MatchOption result (AreRightBelow (own_id b.now) b.now (directory_end b.now)) (IsFirstWrong (own_id b.now) b.now) }
{
    if b[16] == 0 && get_u32(b, 36) == 0 {
        return Some(36);
    }
    None
}

/// Where the last record of the directory starts: the page's end where there is none.
fn lowest(b: &[u8; 4096]) -> usize
    requires { 32 + 4 * count_at b.now ≤ 4096 }
    ensures { result ≡ end_at b.now (count_at b.now) }
{
    let count = get_u16(b, 18) as usize;
    if count == 0 {
        return 4096;
    }
    get_u16(b, 32 + 4 * (count - 1)) as usize
}

/// The first byte between the directory and the records that isn't 0.
fn wrong_gap(b: &[u8; 4096]) -> Option<u32>
    requires { AreRightBelow (own_id b.now) b.now (directory_end b.now) }
    ensures exact { MatchOption result (AreRightBelow (own_id b.now) b.now (end_at b.now (count_at b.now))) (IsFirstWrong (own_id b.now) b.now) }
{
    let count = get_u16(b, 18) as usize;
    let from = directory_start(b[16]) + 4 * count;
    let low = lowest(b);
    for p in from..low {
        if b[p] != 0 {
            return Some(p as u32);
        }
    }
    None
}

/// The first record whose flags break the format.
fn wrong_flags(b: &[u8; 4096]) -> Option<u32>
    requires directory { AreRightBelow (own_id b.now) b.now (directory_end b.now) }
    requires gap { AreRightBelow (own_id b.now) b.now (end_at b.now (count_at b.now)) }
    ensures exact { MatchOption result ((p : ℕ) → IsRightAt (own_id b.now) b.now p) (IsFirstWrong (own_id b.now) b.now) }
{
    let count = get_u16(b, 18) as usize;
    for k in 0..count {
        let start = get_u16(b, 32 + 4 * (count - 1 - k)) as usize;
        if b[start] > 3 {
            return Some(start as u32);
        }
    }
    None
}

/// The first field behind the first 32 bytes that breaks the format.
fn wrong_behind(b: &[u8; 4096]) -> Option<u32>
    requires { AreRightBelow (own_id b.now) b.now 32 }
    ensures exact { MatchOption result ((p : ℕ) → IsRightAt (own_id b.now) b.now p) (IsFirstWrong (own_id b.now) b.now) }
{
    if let Some(p) = wrong_entry(b) {
        return Some(p);
    }
    if let Some(p) = wrong_own(b) {
        return Some(p);
    }
    if let Some(p) = wrong_gap(b) {
        return Some(p);
    }
    wrong_flags(b)
}

/// The first field that breaks the format; none exactly where every field keeps it.
pub fn first_wrong(b: &[u8; 4096], id: PageId) -> Option<u32>
    ensures exact { MatchOption result ((p : ℕ) → IsRightAt id b.now p) (IsFirstWrong id b.now) }
{
    if let Some(p) = wrong_front(b, id) {
        return Some(p);
    }
    wrong_behind(b)
}
