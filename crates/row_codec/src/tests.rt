//! The worked row.

ghost use Rattle.std.specs.Prelude.{◌≡◌, IfOk};
ghost use Rattle.row_codec.specs.Worked.{column_of, worked_columns, worked_row};

use crate::read::read_row;
use crate::write::write_row;
use dby_types::copies::copy_text;
use dby_types::definition::{ColumnDef, Columns};
use dby_types::seq::Seq;
use dby_types::value::{Row, Ty, Value};
use std::alloc::{AllocError, Global};

/// The stored form that the format's document gives.
const STORED: [u8; 12] = [1, 0, 0, 0, 7, 1, 0, 2, 0x61, 0x62, 0, 0];

fn column_of(alloc: Global, ty: Ty) -> ColumnDef
    ensures { result ≡ column_of ty }
{
    ColumnDef {
        name: Seq::new(alloc),
        ty,
        not_null: false,
    }
}

fn worked_columns(alloc: Global) -> Result<Columns, AllocError>
    ensures { IfOk result (λ c. c ≡ worked_columns) }
{
    let mut columns = Seq::new(alloc);
    columns.push(column_of(alloc, Ty::Int))?;
    columns.push(column_of(alloc, Ty::Text(4)))?;
    Ok(columns)
}

fn worked_row(alloc: Global) -> Result<Row, AllocError>
    ensures { IfOk result (λ r. r ≡ worked_row) }
{
    let mut row = Seq::new(alloc);
    row.push(Value::Num(7))?;
    row.push(Value::Text(copy_text(alloc, b"ab")?))?;
    Ok(row)
}

#[test]
fn row_is_written(rt: HostRuntime) -> Result<(), AllocError> {
    let columns = worked_columns(rt.alloc())?;
    let row = worked_row(rt.alloc())?;
    let mut buffer = [0xee; 13];
    write_row(&row, &columns, &mut buffer);
    assert!(rt; &buffer[..12] == STORED.as_slice());
    assert!(rt; buffer[12] == 0xee);
    Ok(())
}

#[test]
fn row_is_read(rt: HostRuntime) -> Result<(), AllocError> {
    let columns = worked_columns(rt.alloc())?;
    let read = read_row(rt.alloc(), &STORED, &columns)?;
    assert!(rt; read == Some(worked_row(rt.alloc())?));
    assert!(rt; read_row(rt.alloc(), &STORED[..11], &columns)?.is_none());
    Ok(())
}
