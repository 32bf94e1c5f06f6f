//! Edits of a page's bytes.

ghost use Rattle.std.specs.Prelude.{◌≡◌, ◌≤◌, ◌<◌, ◌+◌, ◌-◌, ◌*◌, ◌∷◌, ◌++◌, length};
ghost use Rattle.dby_bytes.specs.Numbers.{bytes_of};
ghost use Rattle.slotted_page.specs.Content.{HasRoom, known, record_at, with_changed, with_record, without_record};
ghost use Rattle.slotted_page.specs.Edits.{IsMoved, exchanged, overwritten};
ghost use Rattle.slotted_page.specs.Layout.{IsPage, IsPageOf, content_of, zeros};

use crate::place::{end_of, record_count, start_of};
use dby_bytes::{get_u16, put_u16};

/// Where the directory begins.
pub const DIRECTORY: usize = 32;

/// Where the number of records stands.
pub const COUNT: usize = 18;

/// Puts the part from a place up to another one behind the part that follows it.
fn exchange(b: &mut [u8; 4096], from: usize, mid: usize, to: usize)
    requires first { from ≤ mid }
    requires second { mid ≤ to }
    requires inside { to ≤ 4096 }
    ensures exact { b.new ≡ exchanged b.old from mid to }
{
    b[from..to].rotate_left(mid - from);
}

/// Writes bytes over a part of the page.
pub fn overwrite(b: &mut [u8; 4096], at: usize, bytes: &[u8])
    requires inside { at + length bytes.now ≤ 4096 }
    ensures exact { b.new ≡ overwritten b.old at bytes.now }
{
    b[at..at + bytes.len()].copy_from_slice(bytes);
}

/// Writes zeros over the part from a place up to another one.
pub fn clear(b: &mut [u8; 4096], from: usize, to: usize)
    requires first { from ≤ to }
    requires inside { to ≤ 4096 }
    ensures exact { b.new ≡ overwritten b.old from (zeros (to - from)) }
{
    b[from..to].fill(0);
}

/// Writes a record over a part of the page.
fn put_record(b: &mut [u8; 4096], at: usize, flags: u8, bytes: &[u8])
    requires inside { at + 1 + length bytes.now ≤ 4096 }
    ensures exact { b.new ≡ overwritten b.old at (flags ∷ bytes.now) }
{
    overwrite(b, at, &[flags]);
    overwrite(b, at + 1, bytes);
}

/// Writes an entry of the directory.
fn put_entry(b: &mut [u8; 4096], at: usize, start: u16, len: u16)
    requires inside { at + 4 ≤ 4096 }
    ensures exact { b.new ≡ overwritten b.old at (bytes_of 2 start ++ bytes_of 2 len) }
{
    put_u16(b, at, start);
    put_u16(b, at + 2, len);
}

/// Lets the records of a part of the directory end at another place.
fn move_directory(b: &mut [u8; 4096], from: usize, count: usize, end: usize)
    requires inside { from + 4 * count ≤ 4096 }
    requires place { end ≤ 4096 }
    ensures exact { IsMoved b.old b.new from count end }
{
    let mut start = end;
    for i in 0..count {
        let at = from + 4 * i;
        start = start.saturating_sub(get_u16(b, at + 2) as usize);
        put_u16(b, at, start as u16);
    }
}

/// Puts a record at a place, before those from there on.
pub fn insert_record(b: &mut [u8; 4096], at: usize, flags: u8, bytes: &[u8])
    requires page { IsPage b.old }
    requires inside { at ≤ length (content_of b.old).records }
    requires room { HasRoom (content_of b.old) (length bytes.now) }
    ensures exact { IsPageOf b.new (with_record (content_of b.old) at (record { flags = known flags; bytes = bytes.now })) }
{
    let count = record_count(b);
    let size = 1 + bytes.len();
    let low = end_of(b, count);
    let end = end_of(b, at);
    exchange(b, low - size, low, end);
    put_record(b, end - size, flags % 4, bytes);
    let entry = DIRECTORY + 4 * at;
    let last = DIRECTORY + 4 * count;
    exchange(b, entry, last, last + 4);
    put_entry(b, entry, (end - size) as u16, size as u16);
    move_directory(b, entry + 4, count - at, end - size);
    put_u16(b, COUNT, (count + 1) as u16);
}

/// Takes a record away, and closes up.
pub fn purge_record(b: &mut [u8; 4096], i: usize)
    requires page { IsPage b.old }
    requires inside { i < length (content_of b.old).records }
    ensures exact { IsPageOf b.new (without_record (content_of b.old) i) }
{
    let count = record_count(b);
    let low = end_of(b, count);
    let start = start_of(b, i);
    let end = end_of(b, i);
    let entry = DIRECTORY + 4 * i;
    let last = DIRECTORY + 4 * count;
    exchange(b, low, start, end);
    clear(b, low, low + (end - start));
    exchange(b, entry, entry + 4, last);
    clear(b, last - 4, last);
    move_directory(b, entry, count - 1 - i, end);
    put_u16(b, COUNT, (count - 1) as u16);
}

/// Writes a record's bytes, as many as it has.
pub fn set_record(b: &mut [u8; 4096], i: usize, bytes: &[u8])
    requires page { IsPage b.old }
    requires inside { i < length (content_of b.old).records }
    requires same { length bytes.now ≡ length (record_at (content_of b.old) i).bytes }
    ensures exact { IsPageOf b.new (with_changed (content_of b.old) i (record (record_at (content_of b.old) i) { bytes = bytes.now })) }
{
    let at = start_of(b, i);
    overwrite(b, at + 1, bytes);
}

/// Writes a record's flags.
pub fn mark_record(b: &mut [u8; 4096], i: usize, flags: u8)
    requires page { IsPage b.old }
    requires inside { i < length (content_of b.old).records }
    ensures exact { IsPageOf b.new (with_changed (content_of b.old) i (record (record_at (content_of b.old) i) { flags = known flags })) }
{
    let at = start_of(b, i);
    overwrite(b, at, &[flags % 4]);
}
