//! Where a page's records stand.

ghost use Rattle.std.specs.Prelude.{◌≡◌, ◌↔◌, ◌≤◌, ◌<◌, ◌+◌, ◌-◌, IsTrue, length, take};
ghost use Rattle.slotted_page.specs.Content.{HasRoom, record_at, stored_len};
ghost use Rattle.slotted_page.specs.Layout.{IsPage, content_of};

use crate::flags::Flags;
use dby_bytes::get_u16;

/// The number of records of a page.
pub fn record_count(b: &[u8; 4096]) -> usize
    ensures exact { result ≡ length (content_of b.now).records }
{
    get_u16(b, 18) as usize
}

/// Where the record at a place begins.
pub fn start_of(b: &[u8; 4096], i: usize) -> usize
    requires page { IsPage b.now }
    requires inside { i < length (content_of b.now).records }
    ensures exact { result ≡ 4096 - stored_len (take (i + 1) (content_of b.now).records) }
{
    get_u16(b, 32 + 4 * i) as usize
}

/// Where the records before a place begin: the page's end where there is none.
pub fn end_of(b: &[u8; 4096], i: usize) -> usize
    requires page { IsPage b.now }
    requires inside { i ≤ length (content_of b.now).records }
    ensures exact { result ≡ 4096 - stored_len (take i (content_of b.now).records) }
{
    if i == 0 {
        return 4096;
    }
    start_of(b, i - 1)
}

/// The bytes of the record at a place.
pub fn item_of(b: &[u8; 4096], i: usize) -> &[u8]
    requires page { IsPage b.now }
    requires inside { i < length (content_of b.now).records }
    ensures exact { result.now ≡ (record_at (content_of b.now) i).bytes }
{
    let start = start_of(b, i);
    let end = end_of(b, i);
    &b[start + 1..end]
}

/// The flags of the record at a place.
pub fn flags_of(b: &[u8; 4096], i: usize) -> Flags
    requires page { IsPage b.now }
    requires inside { i < length (content_of b.now).records }
    ensures exact { result.0 ≡ (record_at (content_of b.now) i).flags }
{
    Flags(b[start_of(b, i)])
}

/// Whether a record of n bytes has room.
pub fn has_room(b: &[u8; 4096], n: u16) -> bool
    requires { IsPage b.now }
    ensures exact { IsTrue result ↔ HasRoom (content_of b.now) n }
{
    if b[16] == 0 {
        return false;
    }
    let count = record_count(b);
    end_of(b, count) >= 37 + 4 * count + n as usize
}
