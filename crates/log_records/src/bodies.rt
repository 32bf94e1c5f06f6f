//! What records say, read from their bodies.

ghost use Rattle.std.specs.Prelude.{◌≡◌, Bool, ◌<◌, length, MatchOption};
ghost use Rattle.dby_types.specs.declared.number.Lsn.{Lsn};
ghost use Rattle.log_records.specs.Content.{LogBase};
ghost use Rattle.log_records.specs.Reading.{IsBaseOf, IsBodyOf, ReadsBody};
ghost use Rattle.log_records.specs.View.{body_of};

use crate::changes::read_base;
use crate::field::{get_byte, get_lsn};
use crate::record::Body;
use crate::texts::{is_compensation, is_grow, is_mark, is_next_segment, is_purge, is_split};
use dby_bytes::{get_u16, get_u32, get_u64};
use dby_types::number::Lsn;

/// What the bytes say, of the kind of this number, in a record at this place.
pub fn read_body(kind: u8, b: &[u8], at: Lsn) -> Option<Body<'_>>
    ensures { ReadsBody at kind b.now result }
{
    match kind {
        3 => read_compensation(b, at),
        4 => read_split(b),
        5 => read_grow(b),
        6 => read_commit(b),
        7 => read_rolled_back(b),
        8 => read_checkpoint(b, at),
        9 => read_next_segment(b, at),
        12 => read_purge(b),
        _ => read_change(kind, b),
    }
}

fn read_change(kind: u8, b: &[u8]) -> Option<Body<'_>>
    ensures { (at : Lsn) → MatchOption result ((y : LogBase) → IsBaseOf kind b.now y → ⊥) (λ r. IsBodyOf at kind b.now (body_of r)) }
{
    let base = read_base(kind, b)?;
    Some(Body::Change(base))
}

fn read_compensation(b: &[u8], at: Lsn) -> Option<Body<'_>>
    ensures { ReadsBody at 3 b.now result }
{
    if !is_compensation(b, at) {
        return None;
    }
    match read_base(get_byte(b, 8), &b[9..]) {
        Some(base) => Some(Body::Compensation {
            next: get_lsn(b, 0),
            base,
        }),
        None => None,
    }
}

fn read_split(b: &[u8]) -> Option<Body<'_>>
    ensures { (at : Lsn) → ReadsBody at 4 b.now result }
{
    if !is_split(b) {
        return None;
    }
    Some(Body::Split {
        container: get_u32(b, 0),
        count: get_byte(b, 4),
        pages: &b[5..],
    })
}

fn read_grow(b: &[u8]) -> Option<Body<'_>>
    ensures { (at : Lsn) → ReadsBody at 5 b.now result }
{
    if !is_grow(b) {
        return None;
    }
    Some(Body::Grow {
        container: get_u32(b, 0),
        page: get_u32(b, 4),
        kind: get_byte(b, 8),
    })
}

fn read_commit(b: &[u8]) -> Option<Body<'_>>
    ensures { (at : Lsn) → ReadsBody at 6 b.now result }
{
    if b.is_empty() {
        Some(Body::Commit)
    } else {
        None
    }
}

fn read_rolled_back(b: &[u8]) -> Option<Body<'_>>
    ensures { (at : Lsn) → ReadsBody at 7 b.now result }
{
    if b.is_empty() {
        Some(Body::RolledBack)
    } else {
        None
    }
}

fn read_checkpoint(b: &[u8], at: Lsn) -> Option<Body<'_>>
    ensures { ReadsBody at 8 b.now result }
{
    if !is_mark(b, at) {
        return None;
    }
    Some(Body::Checkpoint {
        redo: get_lsn(b, 0),
        next_container: get_u32(b, 8),
        next_txn: get_u64(b, 12),
        count: get_u16(b, 20),
        txns: &b[22..],
    })
}

fn read_next_segment(b: &[u8], at: Lsn) -> Option<Body<'_>>
    ensures { ReadsBody at 9 b.now result }
{
    if !is_next_segment(b, at) {
        return None;
    }
    Some(Body::NextSegment {
        segment: get_u32(b, 0),
    })
}

fn read_purge(b: &[u8]) -> Option<Body<'_>>
    ensures { (at : Lsn) → ReadsBody at 12 b.now result }
{
    if !is_purge(b) {
        return None;
    }
    Some(Body::Purge {
        container: get_u32(b, 0),
        page: get_u32(b, 4),
        place: get_u16(b, 8),
    })
}
