//! How many bytes a record takes.

ghost use Rattle.std.specs.Prelude.{◌≡◌, ◌<◌, ◌+◌, ◌^◌, length};
ghost use Rattle.log_records.specs.Fields.{field_bytes, fields_len};
ghost use Rattle.log_records.specs.Format.{base_fields, body_fields, size_of};
ghost use Rattle.log_records.specs.View.{base_of, body_of, record_of};

use crate::record::{Base, Body, Record};
use crate::whole::HEADER;

/// The bytes of two texts behind a front; the greatest number where they are more.
fn texts_len(front: usize, before: &[u8], after: &[u8]) -> usize
    ensures { front + length before.now + length after.now < 2 ^ 64 → result ≡ front + length before.now + length after.now }
{
    front
        .saturating_add(before.len())
        .saturating_add(after.len())
}

/// The bytes of a change.
fn base_len(b: &Base<'_>) -> usize
    ensures { fields_len (base_fields (base_of b.now)) < 2 ^ 64 → result ≡ fields_len (base_fields (base_of b.now)) }
{
    match *b {
        Base::Heap { before, after, .. } => texts_len(14, before, after),
        Base::Entry { before, after, .. } => texts_len(13, before, after),
        Base::Create { .. } => 5,
        Base::Discard { .. } => 4,
    }
}

/// The bytes of a change behind those of a compensation.
fn compensation_len(b: &Base<'_>) -> usize
    ensures { 9 + length (field_bytes (base_fields (base_of b.now))) < 2 ^ 64 → result ≡ 9 + length (field_bytes (base_fields (base_of b.now))) }
{
    base_len(b).saturating_add(9)
}

/// The bytes of a body.
fn body_len(b: &Body<'_>) -> usize
    ensures { fields_len (body_fields (body_of b.now)) < 2 ^ 64 → result ≡ fields_len (body_fields (body_of b.now)) }
{
    match b {
        Body::Change(base) => base_len(base),
        Body::Compensation { base, .. } => compensation_len(base),
        Body::Split { pages, .. } => pages.len().saturating_add(5),
        Body::Grow { .. } => 9,
        Body::Commit | Body::RolledBack => 0,
        Body::Checkpoint { txns, .. } => txns.len().saturating_add(22),
        Body::NextSegment { .. } => 4,
        Body::Purge { .. } => 10,
    }
}

/// The bytes of a record; the greatest number where they are more.
pub fn size(r: &Record<'_>) -> usize
    ensures { size_of (record_of r.now) < 2 ^ 64 → result ≡ size_of (record_of r.now) }
{
    body_len(&r.body).saturating_add(HEADER)
}
