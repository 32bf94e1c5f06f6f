//! What tells a record: its length, its place, its zeros and its sum.

ghost use Rattle.std.specs.Prelude.{◌≡◌, ◌≤◌, ◌↔◌, ℕ, IsTrue, MatchOption, length};
ghost use Rattle.dby_bytes.specs.Numbers.{number_at};
ghost use Rattle.log_records.specs.Reading.{IsFront, IsWhole};

use crate::field::get_byte;
use crate::sum::record_sum;
use dby_bytes::{get_u32, get_u64};
use dby_types::number::Lsn;

/// The bytes of a record before its body.
pub const HEADER: usize = 40;

/// Whether the place and the zeros are those of a record at this place.
fn is_front(b: &[u8], at: Lsn) -> bool
    requires { 40 ≤ length b.now }
    ensures { IsTrue result ↔ IsFront at b.now }
{
    get_u32(b, 12) == at.segment
        && get_u32(b, 16) == at.offset
        && get_byte(b, 21) == 0
        && get_byte(b, 22) == 0
        && get_byte(b, 23) == 0
}

/// The length of the record that the bytes begin with, by all but its transaction and its body.
pub fn whole(b: &[u8], at: Lsn) -> Option<usize>
    ensures { MatchOption result ((n : ℕ) → IsWhole at b.now n → ⊥) (λ n. IsWhole at b.now n) }
{
    if b.len() < HEADER {
        return None;
    }
    let size = get_u32(b, 8) as usize;
    if size < HEADER || size > b.len() {
        return None;
    }
    if !is_front(b, at) {
        return None;
    }
    if get_u64(b, 0) != record_sum(&b[8..size]) {
        return None;
    }
    Some(size)
}
