//! The catalog rows of a new table, and the table as the dictionary has it.

ghost use Rattle.std.specs.Prelude.{◌≡◌, ◌<◌, ◌≤◌, ◌^◌, ◌+◌, Some, None, take, pos, Ok, IfOk, IfSome, IfNone, vec_len, vec_capacity};
ghost use Rattle.indexmap.specs.IndexMap.{spare};
ghost use Rattle.journal_model.specs.Catalog.{kind_of, size_of, table_row, column_row};
ghost use Rattle.session_engine.specs.Creating.{told_done};
ghost use Rattle.session_engine.specs.Listing.{table_at, is_listed, IsLaid, IsListed, IsColumnToPut, IsTableToPut};

use crate::dictionary::{Defined, Tables};
use crate::filling::room_to_change;
use crate::session::{Make, Plan, Session};
use dby_types::answer::Answer;
use dby_types::copies::copy_text;
use dby_types::definition::{ColumnDef, Columns, TableDef};
use dby_types::number::TxnNo;
use dby_types::seq::Seq;
use dby_types::value::{Name, Row, Ty, Value};
use journal_model::journal::Entry;
use std::alloc::{AllocError, Global};
use std::mem;

/// The catalog's tables of tables, and of columns.
pub(crate) const OF_TABLES: u32 = 1;

pub(crate) const OF_COLUMNS: u32 = 2;

/// The catalog table of the row that is put next. The table's own row comes last: until then nobody knows it.
pub(crate) fn table_of_next(make: &Make) -> u32
    ensures { result ≡ table_at make.now.done make.now.def.columns }
{
    if make.done < make.def.columns.len() {
        OF_COLUMNS
    } else {
        OF_TABLES
    }
}

/// The number of a type's kind.
fn kind(ty: Ty) -> i64
    ensures { result ≡ pos (kind_of ty) }
{
    match ty {
        Ty::Small => 1,
        Ty::Int => 2,
        Ty::Big => 3,
        Ty::Bool => 4,
        Ty::Text(_) => 5,
    }
}

/// The most bytes of a text of this type.
fn size(ty: Ty) -> i64
    ensures { result ≡ pos (size_of ty) }
{
    match ty {
        Ty::Text(most) => i64::from(most),
        _ => 0,
    }
}

/// The row of a column.
fn row_of_column(
    alloc: Global,
    number: u32,
    place: usize,
    column: &ColumnDef,
) -> Result<Row, AllocError>
    requires { place < 2 ^ 63 }
    ensures { IfOk result (λ r. r ≡ column_row number place column.now) }
{
    let name = copy_text(alloc, column.name.as_slice())?;
    let mut row = Seq::new(alloc);
    row.push(Value::Num(i64::from(number)))?;
    row.push(Value::Num(place as i64))?;
    row.push(Value::Text(name))?;
    row.push(Value::Num(kind(column.ty)))?;
    row.push(Value::Num(size(column.ty)))?;
    row.push(Value::Bool(column.not_null))?;
    Ok(row)
}

/// The row of a table.
fn row_of_table(alloc: Global, number: u32, name: &[u8]) -> Result<Row, AllocError>
    ensures { IfOk result (λ r. r ≡ table_row number name.now) }
{
    let name = copy_text(alloc, name)?;
    let mut row = Seq::new(alloc);
    row.push(Value::Num(i64::from(number)))?;
    row.push(Value::Text(name))?;
    Ok(row)
}

fn copy_column(alloc: Global, column: &ColumnDef) -> Result<ColumnDef, AllocError>
    ensures { IfOk result (λ c. c ≡ column.now) }
{
    let name = copy_text(alloc, column.name.as_slice())?;
    Ok(ColumnDef {
        name,
        ty: column.ty,
        not_null: column.not_null,
    })
}

fn copy_columns(alloc: Global, columns: &[ColumnDef]) -> Result<Columns, AllocError>
    ensures { IfOk result (λ cs. cs ≡ columns.now) }
{
    let mut copies = Vec::with_capacity(alloc, columns.len())?;
    for column in columns {
        copies.push(copy_column(alloc, column)?)?;
    }
    Ok(Seq::from_vec(copies))
}

/// The row of the next column, where room was made for it. The room is used up.
fn lay_next(alloc: Global, make: &mut Make) -> Option<Result<Row, AllocError>>
    ensures { IsLaid make.old make.new result }
{
    let true = make.made else {
        return None;
    };
    let true = make.has_room else {
        return None;
    };
    let columns = make.def.columns.as_slice();
    if make.done >= columns.len() {
        return None;
    }
    let row = row_of_column(alloc, make.def.number, make.done, &columns[make.done]);
    make.done += 1;
    make.has_room = false;
    Some(row)
}

/// The same out of a connection's plan.
pub(crate) fn column_to_put(alloc: Global, session: &mut Session) -> Option<Result<Row, AllocError>>
    ensures { IsColumnToPut session.old session.new result }
{
    let planned = mem::replace(&mut session.plan, Plan::Nothing);
    match planned {
        Plan::Create(mut make) => {
            let laid = lay_next(alloc, &mut make);
            session.plan = Plan::Create(make);
            laid
        }
        other => {
            session.plan = other;
            None
        }
    }
}

/// A table's row, with what the dictionary takes of it.
#[derive(Debug, Drop)]
pub struct Listing {
    pub row: Row,
    pub name: Name,
    pub defined: Defined,
}

fn list_of(alloc: Global, def: &TableDef) -> Result<Listing, AllocError>
    ensures row { IfOk result (λ l. l.row ≡ table_row def.now.number def.now.name) }
    ensures name { IfOk result (λ l. l.name ≡ def.now.name) }
    ensures defined { IfOk result (λ l. l.defined ≡ record { number = def.now.number; columns = def.now.columns }) }
{
    let row = row_of_table(alloc, def.number, def.name.as_slice())?;
    let name = copy_text(alloc, def.name.as_slice())?;
    let columns = copy_columns(alloc, def.columns.as_slice())?;
    Ok(Listing {
        row,
        name,
        defined: Defined {
            number: def.number,
            columns,
        },
    })
}

/// The row of the table itself, once those of its columns are put.
fn list_next(alloc: Global, make: &mut Make) -> Option<Result<Listing, AllocError>>
    ensures { IsListed make.old make.new result }
{
    if !make.made {
        return None;
    }
    if !make.has_room {
        return None;
    }
    let columns = make.def.columns.as_slice();
    if make.done != columns.len() {
        return None;
    }
    let listed = list_of(alloc, &make.def);
    make.done += 1;
    make.has_room = false;
    Some(listed)
}

/// The same out of a connection's plan.
pub(crate) fn table_to_put(
    alloc: Global,
    session: &mut Session,
) -> Option<Result<Listing, AllocError>>
    ensures { IsTableToPut session.old session.new result }
{
    let planned = mem::replace(&mut session.plan, Plan::Nothing);
    match planned {
        Plan::Create(mut make) => {
            let listed = list_next(alloc, &mut make);
            session.plan = Plan::Create(make);
            listed
        }
        other => {
            session.plan = other;
            None
        }
    }
}

/// What is to be put, with room for its entry and that of its undo.
pub(crate) fn ready<T: Drop>(
    item: Result<T, AllocError>,
    entries: &mut Vec<Entry>,
    made: &mut Vec<u64>,
    owed: usize,
) -> Result<T, AllocError>
    ensures entries { entries.new.items ≡ entries.old.items }
    ensures made { made.new.items ≡ made.old.items }
    ensures kept { (vec_len entries.new ≡ vec_len entries.old) × (vec_capacity entries.old ≤ vec_capacity entries.new) }
    ensures room { IfOk result (λ t. (vec_len entries.new + (owed + 2) ≤ vec_capacity entries.new) × (vec_len made.new + 1 ≤ vec_capacity made.new)) }
    ensures same { IfOk result (λ t. item ≡ Ok t) }
{
    let item = item?;
    room_to_change(entries, made, owed)?;
    Ok(item)
}

/// .. with room for its table in the dictionary.
pub(crate) fn ready_to_list(
    listed: Result<Listing, AllocError>,
    tables: &mut Tables,
) -> Result<Listing, AllocError>
    ensures tables { tables.new.entries ≡ tables.old.entries }
    ensures spare { IfOk result (λ l. 1 ≤ spare tables.new) }
    ensures same { IfOk result (λ l. listed ≡ Ok l) }
{
    let listing = listed?;
    tables.reserve(1)?;
    Ok(listing)
}

/// Whether a CREATE TABLE has put all its rows.
pub(crate) fn is_listed(make: &Make) -> bool
    ensures { result ≡ is_listed make.now }
{
    make.made && make.done > make.def.columns.len()
}

/// The entry of its answer.
pub(crate) fn told_done(alloc: Global, txn: TxnNo, place: u64) -> Entry
    ensures { result ≡ told_done txn place }
{
    Entry::Answered {
        txn,
        answer: Answer::Done,
        joined: Seq::new(alloc),
        from: place,
        to: place,
    }
}
