//! A record written as bytes.

ghost use Rattle.std.specs.Prelude.{◌≡◌, ◌≤◌, ◌+◌, ◌++◌, [], ◌∷◌, length, drop};
ghost use Rattle.log_records.specs.Content.LogBody.{compensation};
ghost use Rattle.log_records.specs.Fields.{Fit, field_bytes, fields_len, with_bytes, written};
ghost use Rattle.log_records.specs.Fields.Field.{number, raw};
ghost use Rattle.log_records.specs.Format.{base_fields, base_kind, body_fields, front_fields, kind_of, mark_fields, size_of};
ghost use Rattle.log_records.specs.Rules.{Begins, BodyFits, IsLegal};
ghost use Rattle.log_records.specs.View.{base_of, body_of, mark_of, record_of};

use crate::field::{put_byte, put_bytes, put_lsn};
use crate::record::{Base, Body, Record};
use crate::size::size;
use crate::sum::record_sum;
use crate::whole::HEADER;
use dby_bytes::{put_u16, put_u32, put_u64};
use dby_types::number::Lsn;

/// Writes container, page, and a slot or place.
fn put_place(into: &mut [u8], container: u32, page: u32, place: u16)
    requires { 10 ≤ length into.old }
    ensures { into.new ≡ written (number 4 container ∷ number 4 page ∷ number 2 place ∷ []) 0 into.old }
{
    put_u32(into, 0, container);
    put_u32(into, 4, page);
    put_u16(into, 8, place);
}

/// Writes a length and both texts.
fn put_texts(into: &mut [u8], at: usize, before: &[u8], after: &[u8])
    requires room { at + 2 + length before.now + length after.now ≤ length into.old }
    requires short { length before.now ≤ 20000 }
    ensures { into.new ≡ written (number 2 (length before.now) ∷ raw before.now ∷ raw after.now ∷ []) at into.old }
{
    put_u16(into, at, before.len() as u16);
    put_bytes(into, at + 2, before);
    put_bytes(into, at + 2 + before.len(), after);
}

/// The number of a change's kind.
fn base_kind(b: &Base<'_>) -> u8
    ensures { result ≡ base_kind (base_of b.now) }
{
    match b {
        Base::Heap { .. } => 1,
        Base::Entry { .. } => 2,
        Base::Create { .. } => 10,
        Base::Discard { .. } => 11,
    }
}

/// Writes a change.
fn write_base(b: &Base<'_>, into: &mut [u8])
    requires room { fields_len (base_fields (base_of b.now)) ≤ length into.old }
    requires short { fields_len (base_fields (base_of b.now)) ≤ 20000 }
    ensures exact { into.new ≡ written (base_fields (base_of b.now)) 0 into.old }
    ensures fits { Fit (base_fields (base_of b.now)) }
{
    match *b {
        Base::Heap {
            container,
            page,
            slot,
            flags_before,
            flags_after,
            before,
            after,
        } => {
            put_place(into, container, page, slot);
            put_byte(into, 10, flags_before);
            put_byte(into, 11, flags_after);
            put_texts(into, 12, before, after);
        }
        Base::Entry {
            container,
            page,
            place,
            what,
            before,
            after,
        } => {
            put_place(into, container, page, place);
            put_byte(into, 10, what);
            put_texts(into, 11, before, after);
        }
        Base::Create { container, is_tree } => {
            put_u32(into, 0, container);
            put_byte(into, 4, u8::from(is_tree));
        }
        Base::Discard { container } => put_u32(into, 0, container),
    }
}

/// Writes a change over the part that begins at a place.
fn put_base(into: &mut [u8], at: usize, b: &Base<'_>)
    requires room { at + fields_len (base_fields (base_of b.now)) ≤ length into.old }
    requires short { fields_len (base_fields (base_of b.now)) ≤ 20000 }
    ensures exact { into.new ≡ with_bytes into.old at (field_bytes (base_fields (base_of b.now))) }
    ensures fits { Fit (base_fields (base_of b.now)) }
{
    write_base(b, &mut into[at..]);
}

/// Writes a compensation.
fn write_compensation(next: Lsn, base: &Base<'_>, into: &mut [u8])
    requires room { 9 + length (field_bytes (base_fields (base_of base.now))) ≤ length into.old }
    requires short { 9 + length (field_bytes (base_fields (base_of base.now))) ≤ 20000 }
    ensures exact { into.new ≡ written (body_fields (compensation next (base_of base.now))) 0 into.old }
    ensures fits { BodyFits (compensation next (base_of base.now)) }
{
    put_lsn(into, 0, next);
    put_byte(into, 8, base_kind(base));
    put_base(into, 9, base);
}

/// Writes a checkpoint.
fn write_mark(
    into: &mut [u8],
    redo: Lsn,
    next_container: u32,
    next_txn: u64,
    count: u16,
    txns: &[u8],
)
    requires { 22 + length txns.now ≤ length into.old }
    ensures exact { into.new ≡ written (mark_fields (mark_of redo next_container next_txn count txns.now)) 0 into.old }
    ensures fits { Fit (mark_fields (mark_of redo next_container next_txn count txns.now)) }
{
    put_lsn(into, 0, redo);
    put_u32(into, 8, next_container);
    put_u64(into, 12, next_txn);
    put_u16(into, 20, count);
    put_bytes(into, 22, txns);
}

/// Writes what a record says.
fn write_body(b: &Body<'_>, into: &mut [u8])
    requires room { fields_len (body_fields (body_of b.now)) ≤ length into.old }
    requires short { fields_len (body_fields (body_of b.now)) ≤ 20000 }
    ensures exact { into.new ≡ written (body_fields (body_of b.now)) 0 into.old }
    ensures fits { BodyFits (body_of b.now) }
{
    match b {
        Body::Change(base) => write_base(base, into),
        Body::Compensation { next, base } => write_compensation(*next, base, into),
        Body::Split {
            container,
            count,
            pages,
        } => {
            put_u32(into, 0, *container);
            put_byte(into, 4, *count);
            put_bytes(into, 5, pages);
        }
        Body::Grow {
            container,
            page,
            kind,
        } => {
            put_u32(into, 0, *container);
            put_u32(into, 4, *page);
            put_byte(into, 8, *kind);
        }
        Body::Commit | Body::RolledBack => {}
        Body::Checkpoint {
            redo,
            next_container,
            next_txn,
            count,
            txns,
        } => write_mark(into, *redo, *next_container, *next_txn, *count, txns),
        Body::NextSegment { segment } => put_u32(into, 0, *segment),
        Body::Purge {
            container,
            page,
            place,
        } => put_place(into, *container, *page, *place),
    }
}

/// Writes what a record says behind its front.
fn put_body(into: &mut [u8], b: &Body<'_>)
    requires room { 40 + fields_len (body_fields (body_of b.now)) ≤ length into.old }
    requires short { fields_len (body_fields (body_of b.now)) ≤ 20000 }
    ensures exact { into.new ≡ with_bytes into.old 40 (field_bytes (body_fields (body_of b.now))) }
    ensures fits { BodyFits (body_of b.now) }
{
    write_body(b, &mut into[HEADER..]);
}

/// The number of a record's kind.
fn kind_of(b: &Body<'_>) -> u8
    ensures { result ≡ kind_of (body_of b.now) }
{
    match b {
        Body::Change(base) => base_kind(base),
        Body::Compensation { .. } => 3,
        Body::Split { .. } => 4,
        Body::Grow { .. } => 5,
        Body::Commit => 6,
        Body::RolledBack => 7,
        Body::Checkpoint { .. } => 8,
        Body::NextSegment { .. } => 9,
        Body::Purge { .. } => 12,
    }
}

/// Writes what stands between the sum and the body.
fn put_front(into: &mut [u8], size: u32, at: Lsn, kind: u8, txn: u64, back: Lsn)
    requires { 40 ≤ length into.old }
    ensures exact { into.new ≡ written (front_fields size at kind txn back) 8 into.old }
    ensures fits { Fit (front_fields size at kind txn back) }
{
    put_u32(into, 8, size);
    put_lsn(into, 12, at);
    put_byte(into, 20, kind);
    put_byte(into, 21, 0);
    put_byte(into, 22, 0);
    put_byte(into, 23, 0);
    put_u64(into, 24, txn);
    put_lsn(into, 32, back);
}

/// Writes the record at the front of the buffer, as it stands at this place, and answers how many bytes it takes. Takes no memory.
pub fn encode(r: &Record<'_>, at: Lsn, into: &mut [u8]) -> usize
    requires legal { IsLegal at (record_of r.now) }
    requires short { size_of (record_of r.now) ≤ 20000 }
    requires room { size_of (record_of r.now) ≤ length into.old }
    ensures size { result ≡ size_of (record_of r.now) }
    ensures begins { Begins at into.new (record_of r.now) (drop (size_of (record_of r.now)) into.old) }
{
    let size = size(r);
    put_front(into, size as u32, at, kind_of(&r.body), r.txn, r.back);
    put_body(into, &r.body);
    let sum = record_sum(&into[8..size]);
    put_u64(into, 0, sum);
    size
}
