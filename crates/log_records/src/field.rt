//! Fields in bytes: single bytes, places, and parts.

ghost use Rattle.std.specs.Prelude.{◌≡◌, ◌≤◌, ◌<◌, ◌+◌, length};
ghost use Rattle.dby_bytes.specs.Numbers.{number_at, with_number};
ghost use Rattle.log_records.specs.Fields.{with_bytes};
ghost use Rattle.log_records.specs.Reading.{lsn_at};

use dby_bytes::{get_u32, put_u32};
use dby_types::number::Lsn;

/// The byte at a place.
pub fn get_byte(b: &[u8], at: usize) -> u8
    requires { at < length b.now }
    ensures { result ≡ number_at 1 b.now at }
{
    b[at]
}

/// The place in the eight bytes at a place.
pub fn get_lsn(b: &[u8], at: usize) -> Lsn
    requires { at + 8 ≤ length b.now }
    ensures { result ≡ lsn_at b.now at }
{
    Lsn {
        segment: get_u32(b, at),
        offset: get_u32(b, at + 4),
    }
}

/// Writes a byte.
pub fn put_byte(b: &mut [u8], at: usize, v: u8)
    requires { at < length b.old }
    ensures { b.new ≡ with_number 1 b.old at v }
{
    b[at] = v;
}

/// Writes a place into eight bytes.
pub fn put_lsn(b: &mut [u8], at: usize, lsn: Lsn)
    requires { at + 8 ≤ length b.old }
    ensures { b.new ≡ with_number 4 (with_number 4 b.old at lsn.segment) (at + 4) lsn.offset }
{
    put_u32(b, at, lsn.segment);
    put_u32(b, at + 4, lsn.offset);
}

/// Writes bytes over a part.
pub fn put_bytes(b: &mut [u8], at: usize, bytes: &[u8])
    requires { at + length bytes.now ≤ length b.old }
    ensures { b.new ≡ with_bytes b.old at bytes.now }
{
    b[at..at + bytes.len()].copy_from_slice(bytes);
}
