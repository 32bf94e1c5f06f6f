//! A row read from its stored form.

ghost use Rattle.std.specs.Prelude.{◌≡◌, ◌↔◌, List, length, slice_index, EachIndex, IfOk, IsTrue, MatchOption};
ghost use Rattle.dby_types.specs.declared.value.Value.{Value};
ghost use Rattle.row_codec.specs.StoredRow.{IsRow, IsValue, column_len};

use crate::width;
use dby_bytes::{get_u16, get_u32, get_u64};
use dby_types::copies::copy_text;
use dby_types::definition::Columns;
use dby_types::seq::Seq;
use dby_types::value::{Row, Ty, Value};
use std::alloc::{AllocError, Global};

/// The row that the bytes are the stored form of; none exactly where there is none.
pub fn read_row(alloc: Global, b: &[u8], c: &Columns) -> Result<Option<Row>, AllocError>
    ensures exact { IfOk result (λ o. MatchOption o ((r : List Value) → IsRow c.now b.now r → ⊥) (λ r. IsRow c.now b.now r)) }
{
    let columns = c.as_slice();
    let mut values = Vec::with_capacity(alloc, columns.len())?;
    let mut at = 0;
    for column in columns {
        let len = width::column_len(column.ty) as usize;
        if b.len() - at < len {
            return Ok(None);
        }
        let Some(value) = read_value(alloc, &b[at..at + len], column.ty)? else {
            return Ok(None);
        };
        values.push(value)?;
        at += len;
    }
    if at < b.len() {
        return Ok(None);
    }
    Ok(Some(Seq::from_vec(values)))
}

/// The value of a column's bytes.
fn read_value(alloc: Global, b: &[u8], ty: Ty) -> Result<Option<Value>, AllocError>
    requires { length b.now ≡ column_len ty }
    ensures exact { IfOk result (λ o. MatchOption o ((v : Value) → IsValue ty b.now v → ⊥) (λ v. IsValue ty b.now v)) }
{
    if b[0] == 1 {
        return read_field(alloc, b, ty);
    }
    if is_zero(b) {
        return Ok(Some(Value::Null));
    }
    Ok(None)
}

/// The value of a column's bytes that aren't those of NULL.
fn read_field(alloc: Global, b: &[u8], ty: Ty) -> Result<Option<Value>, AllocError>
    requires room { length b.now ≡ column_len ty }
    requires flag { slice_index b.now 0 ≡ 1 }
    ensures exact { IfOk result (λ o. MatchOption o ((v : Value) → IsValue ty b.now v → ⊥) (λ v. IsValue ty b.now v)) }
{
    match ty {
        Ty::Small => Ok(Some(Value::Num(i64::from(get_u16(b, 1).cast_signed())))),
        Ty::Int => Ok(Some(Value::Num(i64::from(get_u32(b, 1).cast_signed())))),
        Ty::Big => Ok(Some(Value::Num(get_u64(b, 1).cast_signed()))),
        Ty::Bool => Ok(read_truth(b)),
        Ty::Text(n) => read_text(alloc, b, n),
    }
}

/// The truth value of a column's bytes that aren't those of NULL.
fn read_truth(b: &[u8]) -> Option<Value>
    requires room { length b.now ≡ 2 }
    requires flag { slice_index b.now 0 ≡ 1 }
    ensures exact { MatchOption result ((v : Value) → IsValue Ty.Bool b.now v → ⊥) (λ v. IsValue Ty.Bool b.now v) }
{
    if b[1] > 1 {
        return None;
    }
    Some(Value::Bool(b[1] == 1))
}

/// The text of a column's bytes that aren't those of NULL.
fn read_text(alloc: Global, b: &[u8], n: u16) -> Result<Option<Value>, AllocError>
    requires room { length b.now ≡ column_len (Ty.Text n) }
    requires flag { slice_index b.now 0 ≡ 1 }
    ensures exact { IfOk result (λ o. MatchOption o ((v : Value) → IsValue (Ty.Text n) b.now v → ⊥) (λ v. IsValue (Ty.Text n) b.now v)) }
{
    let len = get_u16(b, 1);
    if len > n {
        return Ok(None);
    }
    let end = 3 + len as usize;
    let text = &b[3..end];
    if !is_zero(&b[end..]) {
        return Ok(None);
    }
    match str::from_utf8(text) {
        Ok(_) => Ok(Some(Value::Text(copy_text(alloc, text)?))),
        Err(_) => Ok(None),
    }
}

/// Whether all bytes are 0.
fn is_zero(b: &[u8]) -> bool
    ensures exact { IsTrue result ↔ EachIndex b.now (λ k. slice_index b.now k ≡ 0) }
{
    b.iter().all(|x| *x == 0)
}
