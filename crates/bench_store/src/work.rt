//! One transaction that puts rows, and what is done again and again with them then.

ghost use Rattle.std.specs.Prelude.{◌≡◌, IfOk, true};
ghost use Rattle.std.specs.Bool.{OnTrue};
ghost use Rattle.store_api.specs.Catalog.{columns_of_tables};
ghost use Rattle.store_trials.specs.Sole.{IsSole};
ghost use Rattle.table_model.specs.Fitting.{fits_columns};

use dby_types::copies::copy_text;
use dby_types::number::{RowId, TxnNo};
use dby_types::seq::Seq;
use dby_types::value::{Row, Value};
use list_store::lists::ListStore;
use std::alloc::{AllocError, Global};
use store_api::answers::Undo;
use store_api::store::RowStore;
use store_trials::sole::{goes_on, opens, puts, reaches, reads, sets, undoes};

/// What is done with each row once all are put.
#[derive(Clone, Copy, Debug, PartialEq, Eq)]
pub enum Work {
    Put,
    Read,
    Scan,
    Set,
    /// The changes that were set are taken back.
    Undo,
}

/// Puts so many rows, and does something with each so often. The answer is how often it was done; of a put, how many rows there are.
pub fn done(alloc: Global, work: Work, rows: u32, times: u32) -> Result<u64, AllocError> {
    let mut store = ListStore::new(alloc);
    let t = TxnNo(store.next_txn());
    if !opens(&mut store, t) {
        return Ok(0);
    }
    let row = row(alloc)?;
    let mut rids = Vec::new(alloc);
    if !put(&mut store, t, &row, rows, &mut rids)? {
        return Ok(0);
    }
    if work == Work::Undo && !passes(&mut store, t, Work::Set, times, &row, rids.as_slice()) {
        return Ok(0);
    }
    if passes(&mut store, t, work, times, &row, rids.as_slice()) {
        Ok((times as u64).wrapping_mul(rows as u64))
    } else {
        Ok(0)
    }
}

/// A row of table 1: a number, and a name of 16 bytes.
fn row(alloc: Global) -> Result<Row, AllocError>
    ensures { IfOk result (λ r. fits_columns columns_of_tables r ≡ true) }
{
    let mut values = Vec::new(alloc);
    values.push(Value::Num(16))?;
    values.push(Value::Text(copy_text(alloc, b"SIXTEEN_LETTERS_")?))?;
    Ok(Seq::from_vec(values))
}

/// Puts a row so often, and notes where. False where it can't be.
fn put<S: RowStore>(
    store: &mut S,
    t: TxnNo,
    row: &Row,
    times: u32,
    rids: &mut Vec<RowId>,
) -> Result<bool, AllocError>
    requires sole { IsSole (S.view store.old) t.0 }
    requires fits { fits_columns columns_of_tables row.now ≡ true }
    ensures { IfOk result (λ all. OnTrue all (IsSole (S.view store.new) t.0)) }
{
    'put: for _ in 0..times {
        match puts(store, t, row) {
            Some(rid) => rids.push(rid)?,
            None => return Ok(false),
        }
    }
    Ok(true)
}

/// Does a work with each row, so often.
fn passes<S: RowStore>(
    store: &mut S,
    t: TxnNo,
    work: Work,
    times: u32,
    row: &Row,
    rids: &[RowId],
) -> bool
    requires sole { IsSole (S.view store.old) t.0 }
    requires fits { fits_columns columns_of_tables row.now ≡ true }
    ensures { OnTrue result (IsSole (S.view store.new) t.0) }
{
    'pass: for _ in 0..times {
        if !pass(store, t, work, row, rids) {
            return false;
        }
    }
    true
}

fn pass<S: RowStore>(store: &mut S, t: TxnNo, work: Work, row: &Row, rids: &[RowId]) -> bool
    requires sole { IsSole (S.view store.old) t.0 }
    requires fits { fits_columns columns_of_tables row.now ≡ true }
    ensures { OnTrue result (IsSole (S.view store.new) t.0) }
{
    match work {
        Work::Put => true,
        Work::Read => read(store, t, row, rids),
        Work::Scan => scan(store, t, rids.len()),
        Work::Set => set(store, t, row, rids),
        Work::Undo => undo(store, t, rids),
    }
}

/// Reads each row, as it was put.
fn read<S: RowStore>(store: &mut S, t: TxnNo, row: &Row, rids: &[RowId]) -> bool
    requires sole { IsSole (S.view store.old) t.0 }
    ensures { OnTrue result (IsSole (S.view store.new) t.0) }
{
    'read: for rid in rids {
        if !reads(store, t, *rid, row, false) {
            return false;
        }
    }
    true
}

/// Goes over the rows, from the first to behind the last.
fn scan<S: RowStore>(store: &mut S, t: TxnNo, rows: usize) -> bool
    requires sole { IsSole (S.view store.old) t.0 }
    ensures { OnTrue result (IsSole (S.view store.new) t.0) }
{
    if !reaches(store, t) {
        return false;
    }
    'scan: for _ in 0..rows {
        if !goes_on(store, t) {
            return false;
        }
    }
    true
}

/// Writes over each row.
fn set<S: RowStore>(store: &mut S, t: TxnNo, row: &Row, rids: &[RowId]) -> bool
    requires sole { IsSole (S.view store.old) t.0 }
    requires fits { fits_columns columns_of_tables row.now ≡ true }
    ensures { OnTrue result (IsSole (S.view store.new) t.0) }
{
    'set: for rid in rids {
        if !sets(store, t, *rid, row) {
            return false;
        }
    }
    true
}

/// Takes as many changes back as there are rows, the newest first.
fn undo<S: RowStore>(store: &mut S, t: TxnNo, rids: &[RowId]) -> bool
    requires sole { IsSole (S.view store.old) t.0 }
    ensures { OnTrue result (IsSole (S.view store.new) t.0) }
{
    'undo: for rid in rids.iter().rev() {
        if !undoes(
            store,
            t,
            0,
            Undo::Undid {
                table: 1,
                rid: *rid,
            },
        ) {
            return false;
        }
    }
    true
}
