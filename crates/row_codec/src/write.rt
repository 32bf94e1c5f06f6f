//! A row as it is stored.

ghost use Rattle.std.specs.Prelude.{◌≡◌, ◌≤◌, ℕ, List, ◌∷◌, ◌++◌, drop, length};
ghost use Rattle.dby_types.specs.declared.value.Value.{Value};
ghost use Rattle.row_codec.specs.StoredRow.{FitsColumn, FitsColumns, FitsNumber, FitsText, column_len, row_len, stored_number, stored_row, stored_text, stored_value};

use crate::width;
use dby_bytes::{put_u16, put_u32, put_u64};
use dby_types::definition::Columns;
use dby_types::value::{Row, Ty, Value};

/// Writes a row at the front of the buffer, and leaves what is behind it. Takes no memory.
pub fn write_row(r: &Row, c: &Columns, into: &mut [u8])
    requires fits { FitsColumns r.now c.now }
    requires room { row_len c.now ≤ length into.old }
    ensures exact { into.new ≡ stored_row r.now c.now ++ drop (row_len c.now) into.old }
    ensures others { (s : List Value) (rest : List ℕ) → FitsColumns s c.now → into.new ≡ stored_row s c.now ++ rest → s ≡ r.now }
{
    let values = r.as_slice();
    let columns = c.as_slice();
    let mut at = 0;
    for i in 0..columns.len() {
        let ty = columns[i].ty;
        let end = at + width::column_len(ty) as usize;
        write_value(&values[i], ty, &mut into[at..end]);
        at = end;
    }
}

/// Writes a value over the bytes of its column.
fn write_value(value: &Value, ty: Ty, into: &mut [u8])
    requires fits { FitsColumn value.now ty }
    requires room { length into.old ≡ column_len ty }
    ensures exact { into.new ≡ stored_value value.now ty }
{
    match value {
        Value::Null => into.fill(0),
        Value::Num(n) => write_number(*n, ty, into),
        Value::Bool(b) => {
            into[0] = 1;
            into[1] = u8::from(*b);
        }
        Value::Text(text) => write_text(text.as_slice(), ty, into),
    }
}

/// Writes a number that isn't NULL over the bytes of its column.
fn write_number(n: i64, ty: Ty, into: &mut [u8])
    requires fits { FitsNumber ty n }
    requires room { length into.old ≡ column_len ty }
    ensures exact { into.new ≡ 1 ∷ stored_number ty n }
{
    into[0] = 1;
    match ty {
        Ty::Small => put_u16(into, 1, (n as i16).cast_unsigned()),
        Ty::Int => put_u32(into, 1, (n as i32).cast_unsigned()),
        Ty::Big => put_u64(into, 1, n.cast_unsigned()),
        Ty::Bool | Ty::Text(_) => {}
    }
}

/// Writes a text over the bytes of its column.
fn write_text(text: &[u8], ty: Ty, into: &mut [u8])
    requires fits { FitsText ty text.now }
    requires room { length into.old ≡ column_len ty }
    ensures exact { into.new ≡ 1 ∷ stored_text ty text.now }
{
    into.fill(0);
    into[0] = 1;
    put_u16(into, 1, text.len() as u16);
    into[3..3 + text.len()].copy_from_slice(text);
}
