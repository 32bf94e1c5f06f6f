//! A record read from its bytes.

ghost use Rattle.std.specs.Prelude.{◌≡◌, ◌⊎◌, ℕ, List, MatchOption, drop};
ghost use Rattle.dby_types.specs.declared.number.Lsn.{Lsn};
ghost use Rattle.log_records.specs.Content.{LogRecord};
ghost use Rattle.log_records.specs.Format.{size_of};
ghost use Rattle.log_records.specs.Reading.{IsWhole};
ghost use Rattle.log_records.specs.Rules.{Begins};
ghost use Rattle.log_records.specs.View.{record_of};

use crate::back::is_back;
use crate::bodies::read_body;
use crate::field::{get_byte, get_lsn};
use crate::lists::TXNS;
use crate::record::Record;
use crate::whole::{HEADER, whole};
use dby_bytes::get_u64;
use dby_types::number::Lsn;

/// The record of this size that the bytes begin with, where their length, place, zeros and sum are right; none exactly where they begin with none.
pub fn read_whole<'a>(b: &'a [u8], at: Lsn, size: usize) -> Option<Record<'a>>
    requires { IsWhole at b.now size }
    ensures { MatchOption result ((r : LogRecord) (rest : List ℕ) → Begins at b.now r rest → ⊥)
        (λ r. Begins at b.now (record_of r) (drop size b.now) × (size ≡ size_of (record_of r))) }
{
    let txn = get_u64(b, 24);
    let back = get_lsn(b, 32);
    if txn >= TXNS {
        return None;
    }
    if !is_back(back, at) {
        return None;
    }
    match read_body(get_byte(b, 20), &b[HEADER..size], at) {
        Some(body) => Some(Record { txn, back, body }),
        None => None,
    }
}

/// The record that the bytes begin with at this place, and how many bytes it takes; none exactly where they begin with none.
pub fn decode<'a>(b: &'a [u8], at: Lsn) -> Option<(Record<'a>, usize)>
    ensures { MatchOption result ((r : LogRecord) (rest : List ℕ) → Begins at b.now r rest → ⊥)
        (λ p. Begins at b.now (record_of p.0) (drop p.1 b.now) × (p.1 ≡ size_of (record_of p.0))) }
{
    let Some(size) = whole(b, at) else {
        return None;
    };
    match read_whole(b, at, size) {
        Some(r) => Some((r, size)),
        None => None,
    }
}

/// Bytes begin with at most one record at a place.
pub fn laws()
    ensures { (at : Lsn) (b : List ℕ) (r x : LogRecord) (rest more : List ℕ) → Begins at b r rest → Begins at b x more → r ≡ x }
{}
