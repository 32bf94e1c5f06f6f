//! Numbers in bytes, the highest byte first.
#![tactic(auto)]

ghost use Rattle.std.specs.Prelude.{◌≡◌, ◌≤◌, ◌+◌, length};
ghost use Rattle.dby_bytes.specs.Numbers.{number_at, with_number};

use byteorder::{BigEndian, ByteOrder};

/// The number in the two bytes at a place.
#[tactic(auto, unfolding(crate::specs::Numbers::number_at, crate::specs::Numbers::number_of))]
pub fn get_u16(b: &[u8], at: usize) -> u16
    requires { at + 2 ≤ length b.now }
    ensures exact { result ≡ number_at 2 b.now at }
{
    BigEndian::read_u16(&b[at..])
}

/// The number in the four bytes at a place.
#[tactic(auto, unfolding(crate::specs::Numbers::number_at, crate::specs::Numbers::number_of))]
pub fn get_u32(b: &[u8], at: usize) -> u32
    requires { at + 4 ≤ length b.now }
    ensures exact { result ≡ number_at 4 b.now at }
{
    BigEndian::read_u32(&b[at..])
}

/// The number in the eight bytes at a place.
#[tactic(auto, unfolding(crate::specs::Numbers::number_at, crate::specs::Numbers::number_of))]
pub fn get_u64(b: &[u8], at: usize) -> u64
    requires { at + 8 ≤ length b.now }
    ensures exact { result ≡ number_at 8 b.now at }
{
    BigEndian::read_u64(&b[at..])
}

/// Writes a number into the two bytes at a place.
pub fn put_u16(b: &mut [u8], at: usize, v: u16)
    requires { at + 2 ≤ length b.old }
    ensures exact { b.new ≡ with_number 2 b.old at v }
    ensures found { number_at 2 b.new at ≡ v }
{
    BigEndian::write_u16(&mut b[at..], v);
}

/// Writes a number into the four bytes at a place.
pub fn put_u32(b: &mut [u8], at: usize, v: u32)
    requires { at + 4 ≤ length b.old }
    ensures exact { b.new ≡ with_number 4 b.old at v }
    ensures found { number_at 4 b.new at ≡ v }
{
    BigEndian::write_u32(&mut b[at..], v);
}

/// Writes a number into the eight bytes at a place.
pub fn put_u64(b: &mut [u8], at: usize, v: u64)
    requires { at + 8 ≤ length b.old }
    ensures exact { b.new ≡ with_number 8 b.old at v }
    ensures found { number_at 8 b.new at ≡ v }
{
    BigEndian::write_u64(&mut b[at..], v);
}
