//! CREATE TABLE without keys.

ghost use Rattle.std.specs.Prelude.{◌≡◌, ◌++◌, ◌∷◌, [], IfOk, OnOk, false, length, nat_le};
ghost use Rattle.expr_binder.specs.Walking.{kept};
ghost use Rattle.name_binder.specs.Lent.{texts};
ghost use Rattle.row_codec.specs.StoredRow.{row_len};
ghost use Rattle.sql_binder.specs.Answering.{Forms};
ghost use Rattle.sql_binder.specs.Built.{has_key};
ghost use Rattle.sql_binder.specs.Making.{has_not_null as marks_not_null, plain_column, plain_columns};
ghost use Rattle.sql_binding.specs.Bound.{create_table};
ghost use Rattle.sql_binding.specs.Creating.{column_names, create_faults, created_columns, created_keys, exists_faults};
ghost use Rattle.sql_binding.specs.From.{found_in, limit_faults, twice_faults};

use change_binder::faults::{keep, keep_unless};
use dby_types::copies::copy_text;
use dby_types::definition::{ColumnDef, Columns};
use dby_types::seq::Seq;
use dby_types::state::SqlState;
use name_binder::catalog::Catalog;
use name_binder::twice::has_twice;
use row_codec::width::column_len;
use sql_ast::bound::BoundStatement;
use sql_ast::statement::{ColumnMark, ColumnText, TablePart};
use std::alloc::{AllocError, Global};

/// A table has at most this many columns,
const MOST_COLUMNS: usize = 64;

/// and a row at most this many bytes.
const LONGEST_ROW: u32 = 1900;

/// Whether a column is marked NOT NULL.
fn has_not_null(marks: &[ColumnMark]) -> bool
    ensures { result ≡ marks_not_null marks.now }
{
    for mark in marks {
        if *mark == ColumnMark::NotNull {
            return true;
        }
    }
    false
}

/// A column of a table without keys.
fn column(alloc: Global, text: &ColumnText) -> Result<ColumnDef, AllocError>
    ensures { IfOk result (λ c. c ≡ plain_column text.now) }
{
    let name = copy_text(alloc, text.name.as_slice())?;
    Ok(ColumnDef {
        name,
        ty: text.ty,
        not_null: has_not_null(text.marks.as_slice()),
    })
}

/// Puts a part's column behind those that are there. A key has none.
fn put(alloc: Global, part: &TablePart, columns: &mut Columns) -> Result<(), AllocError>
    ensures { OnOk result (columns.new ≡ columns.old ++ plain_columns (part.now ∷ [])) }
{
    match part {
        TablePart::Column(text) => {
            columns.push(column(alloc, text)?)?;
            Ok(())
        }
        TablePart::PrimaryKey(_) | TablePart::Unique(_) => Ok(()),
    }
}

/// The columns of a table without keys.
fn columns(alloc: Global, parts: &[TablePart]) -> Result<Columns, AllocError>
    requires built { has_key parts.now ≡ false }
    ensures { IfOk result (λ columns. columns ≡ created_columns parts.now) }
{
    let mut columns = Seq::new(alloc);
    for part in parts {
        put(alloc, part, &mut columns)?;
    }
    Ok(columns)
}

/// The names of columns, lent.
fn lend<'a>(alloc: Global, columns: &'a [ColumnDef]) -> Result<Vec<&'a [u8]>, AllocError>
    ensures { IfOk result (λ lent. texts lent.items ≡ column_names columns.now) }
{
    let mut lent = Vec::with_capacity(alloc, columns.len())?;
    for column in columns {
        lent.push(column.name.as_slice())?;
    }
    Ok(lent)
}

/// Whether a row of these columns isn't too long.
fn is_short(columns: &[ColumnDef]) -> bool
    ensures { result ≡ nat_le (row_len columns.now) 1900 }
{
    let mut left = LONGEST_ROW;
    for column in columns {
        let len = column_len(column.ty);
        if left < len {
            return false;
        }
        left -= len;
    }
    true
}

/// No column may have the name of another, and there may not be too many or too long ones.
fn judge(
    alloc: Global,
    columns: &[ColumnDef],
    fault: &mut Option<SqlState>,
) -> Result<(), AllocError>
    ensures { OnOk result (fault.new ≡ kept fault.old (twice_faults (column_names columns.now) ++ (limit_faults (length columns.now) 64 ++ limit_faults (row_len columns.now) 1900))) }
{
    let lent = lend(alloc, columns)?;
    let twice = has_twice(alloc, lent.as_slice())?;
    keep_unless(fault, !twice, SqlState::NameTwice);
    keep_unless(fault, columns.len() <= MOST_COLUMNS, SqlState::TooLarge);
    keep_unless(fault, is_short(columns), SqlState::TooLarge);
    Ok(())
}

/// The name of a table has to be new.
fn judge_name<D: Catalog>(d: &D, name: &[u8], fault: &mut Option<SqlState>)
    ensures { fault.new ≡ kept fault.old (exists_faults (found_in (D.dictionary d.now) name.now)) }
{
    match d.table(name) {
        None => {}
        Some(_) => keep(fault, SqlState::NameExists),
    }
}

/// CREATE TABLE without keys, and the fault that is told of it and so far.
pub fn create<D: Catalog>(
    alloc: Global,
    name: &[u8],
    parts: &[TablePart],
    d: &D,
    fault: &mut Option<SqlState>,
) -> Result<BoundStatement, AllocError>
    requires built { has_key parts.now ≡ false }
    ensures { IfOk result (Forms (create_table name.now (created_columns parts.now) (created_keys parts.now)) (create_faults (D.dictionary d.now) name.now parts.now) fault.old fault.new) }
{
    judge_name(d, name, fault);
    let columns = columns(alloc, parts)?;
    judge(alloc, columns.as_slice(), fault)?;
    Ok(BoundStatement::CreateTable {
        name: copy_text(alloc, name)?,
        columns,
        keys: Seq::new(alloc),
    })
}
