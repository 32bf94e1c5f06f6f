//! The worked row written and read again and again.

ghost use Rattle.std.specs.Prelude.{◌≡◌, ◌≤◌, IfOk};
ghost use Rattle.row_codec.specs.StoredRow.{FitsColumns, row_len};
ghost use Rattle.row_codec.specs.Worked.{column_of, worked_columns, worked_row};

use dby_types::copies::copy_text;
use dby_types::definition::{ColumnDef, Columns};
use dby_types::seq::Seq;
use dby_types::value::{Row, Ty, Value};
use row_codec::read::read_row;
use row_codec::write::write_row;
use std::alloc::{AllocError, Global};

fn column_of(alloc: Global, ty: Ty) -> ColumnDef
    ensures { result ≡ column_of ty }
{
    ColumnDef {
        name: Seq::new(alloc),
        ty,
        not_null: false,
    }
}

fn worked_columns(alloc: Global) -> Result<Columns, AllocError>
    ensures { IfOk result (λ c. c ≡ worked_columns) }
{
    let mut columns = Seq::new(alloc);
    columns.push(column_of(alloc, Ty::Int))?;
    columns.push(column_of(alloc, Ty::Text(4)))?;
    Ok(columns)
}

fn worked_row(alloc: Global) -> Result<Row, AllocError>
    ensures { IfOk result (λ r. r ≡ worked_row) }
{
    let mut row = Seq::new(alloc);
    row.push(Value::Num(7))?;
    row.push(Value::Text(copy_text(alloc, b"ab")?))?;
    Ok(row)
}

/// Writes the row so often. The answer is the sum of the bytes behind it, which change each time.
fn write_each(row: &Row, columns: &Columns, times: u32) -> u64
    requires fits { FitsColumns row.now columns.now }
    requires room { row_len columns.now ≤ 12 }
{
    let mut buffer = [0; 13];
    let mut found = 0_u64;
    for _ in 0..times {
        buffer[12] ^= buffer[4];
        write_row(row, columns, &mut buffer);
        found = found.wrapping_add(u64::from(buffer[12]));
    }
    found
}

/// Writes the row of two values so often.
pub fn write_again(alloc: Global, times: u32) -> Result<u64, AllocError> {
    let columns = worked_columns(alloc)?;
    let row = worked_row(alloc)?;
    Ok(write_each(&row, &columns, times))
}

/// Reads the row of two values, so often. The answer is how often it was read.
pub fn read_again(alloc: Global, times: u32) -> Result<u64, AllocError> {
    let columns = worked_columns(alloc)?;
    let stored = [1, 0, 0, 0, 7, 1, 0, 2, 0x61, 0x62, 0, 0];
    let mut found = 0_u64;
    for _ in 0..times {
        if read_row(alloc, &stored, &columns)?.is_some() {
            found = found.wrapping_add(1);
        }
    }
    Ok(found)
}
