//! Each call once, over the store over vectors and over one that sends actors onward; also where each allocation fails in turn.

ghost use Rattle.std.specs.Prelude.{◌≡◌, ◌≤◌, ◌⊎◌, [], IfOk, IfSome, length, pos, true};
ghost use Rattle.std.specs.Bool.{OnTrue};
ghost use Rattle.list_store.specs.Lists.{seen};
ghost use Rattle.store_api.specs.Catalog.{columns_of_tables};
ghost use Rattle.store_trials.specs.Sole.{IsIdle, IsSole};
ghost use Rattle.table_model.specs.Fitting.{fits_columns};

use crate::again::{
    Known, Stood, drops_at_last, makes_at_last, marks_at_last, opens_at_last, puts_at_last,
    reads_at_last, sets_at_last,
};
use crate::onward::OnwardStore;
use crate::sole::{commits, ends_undone, goes_on, lets_go, reaches, undoes};
use dby_types::copies::copy_text;
use dby_types::definition::TableDef;
use dby_types::number::{RowId, TxnNo};
use dby_types::seq::Seq;
use dby_types::value::{Row, Value};
use list_store::lists::ListStore;
use std::alloc::{AllocError, Global};
use std::test::Fail;
use store_api::answers::{Moved, StoreAnswer, Undo};
use store_api::places::{At, Target};
use store_api::store::RowStore;

/// What is known of a store with nothing in it.
fn nothing_yet<S: RowStore>(store: &S) -> Known {
    Known {
        next_txn: store.next_txn(),
        changes: 0,
        faults: store.faults(),
        one: None,
        two: None,
        wanted: false,
    }
}

/// A row is put, set, marked and read, and nothing else has changed.
fn changes<S: RowStore>(
    store: &mut S,
    t: TxnNo,
    known: &mut Known,
    first: &Row,
    other: &Row,
) -> Option<RowId>
    requires sole { IsSole (S.view store.old) t.0 }
    requires first { fits_columns columns_of_tables first.now ≡ true }
    requires other { fits_columns columns_of_tables other.now ≡ true }
    ensures { IfSome result (λ rid. IsSole (S.view store.new) t.0) }
{
    let Some(rid) = puts_at_last(store, t, first, known, first, other) else {
        return None;
    };
    let put = Stood {
        rid,
        marked: false,
        is_other: false,
    };
    known.changes = 1;
    known.one = Some(put);
    if !sets_at_last(store, t, rid, other, known, first, other) {
        return None;
    }
    let set = Stood {
        rid,
        marked: false,
        is_other: true,
    };
    known.changes = 2;
    known.one = Some(set);
    if !marks_at_last(store, t, rid, known, first, other) {
        return None;
    }
    let marked = Stood {
        rid,
        marked: true,
        is_other: true,
    };
    known.changes = 3;
    known.one = Some(marked);
    if !reads_at_last(store, t, marked, known, first, other) {
        return None;
    }
    Some(rid)
}

/// Each of three changes of a row is taken back.
fn takes_back<S: RowStore>(
    store: &mut S,
    t: TxnNo,
    rid: RowId,
    known: &mut Known,
    first: &Row,
    other: &Row,
) -> bool
    requires sole { IsSole (S.view store.old) t.0 }
{
    let undone = Undo::Undid { table: 1, rid };
    if !undoes(store, t, 0, undone) {
        return false;
    }
    let set = Stood {
        rid,
        marked: false,
        is_other: true,
    };
    known.changes = 2;
    known.one = Some(set);
    if !reads_at_last(store, t, set, known, first, other) {
        return false;
    }
    if !undoes(store, t, 0, undone) {
        return false;
    }
    let put = Stood {
        rid,
        marked: false,
        is_other: false,
    };
    known.changes = 1;
    known.one = Some(put);
    if !reads_at_last(store, t, put, known, first, other) {
        return false;
    }
    if !undoes(store, t, 1, Undo::Done) {
        return false;
    }
    if !undoes(store, t, 0, undone) {
        return false;
    }
    let gone = Stood {
        rid,
        marked: true,
        is_other: false,
    };
    known.changes = 0;
    known.one = Some(gone);
    if !reads_at_last(store, t, gone, known, first, other) {
        return false;
    }
    ends_undone(store, t)
}

/// A row is put, set, marked, and each is taken back.
fn changes_and_takes_back<S: RowStore>(store: &mut S, first: &Row, other: &Row) -> bool
    requires idle { IsIdle (S.view store.old) }
    requires first { fits_columns columns_of_tables first.now ≡ true }
    requires other { fits_columns columns_of_tables other.now ≡ true }
{
    let t = TxnNo(store.next_txn());
    let mut known = nothing_yet(store);
    if !opens_at_last(store, t, &mut known) {
        return false;
    }
    known.next_txn = store.next_txn();
    match changes(store, t, &mut known, first, other) {
        Some(rid) => takes_back(store, t, rid, &mut known, first, other),
        None => false,
    }
}

/// Two rows are scanned.
fn is_scanned<S: RowStore>(store: &mut S, t: TxnNo, second: RowId) -> bool
    requires sole { IsSole (S.view store.old) t.0 }
    ensures { OnTrue result (IsSole (S.view store.new) t.0) }
{
    if !reaches(store, t) {
        return false;
    }
    if !goes_on(store, t) {
        return false;
    }
    if store.held(1)
        != Ok(Some(At::Row {
            rid: second,
            marked: false,
        }))
    {
        return false;
    }
    if !goes_on(store, t) {
        return false;
    }
    if store.held(1) != Ok(Some(At::End)) {
        return false;
    }
    lets_go(store, t);
    store.held(1) == Ok(None)
}

/// A container is made and dropped.
fn comes_and_goes<S: RowStore>(
    store: &mut S,
    t: TxnNo,
    known: &mut Known,
    first: &Row,
    other: &Row,
) -> bool
    requires sole { IsSole (S.view store.old) t.0 }
    ensures { OnTrue result (IsSole (S.view store.new) t.0) }
{
    match makes_at_last(store, t, known, first, other) {
        Some(n) => {
            known.changes = 3;
            if n == 16 {
                drops_at_last(store, t, n, 17, known, first, other)
            } else {
                false
            }
        }
        None => false,
    }
}

/// Two rows are put.
fn puts_two<S: RowStore>(
    store: &mut S,
    t: TxnNo,
    known: &mut Known,
    first: &Row,
    other: &Row,
) -> Option<RowId>
    requires sole { IsSole (S.view store.old) t.0 }
    requires first { fits_columns columns_of_tables first.now ≡ true }
    requires other { fits_columns columns_of_tables other.now ≡ true }
    ensures { IfSome result (λ rid. IsSole (S.view store.new) t.0) }
{
    let Some(rid) = puts_at_last(store, t, first, known, first, other) else {
        return None;
    };
    let one = Stood {
        rid,
        marked: false,
        is_other: false,
    };
    known.changes = 1;
    known.one = Some(one);
    let Some(second) = puts_at_last(store, t, other, known, first, other) else {
        return None;
    };
    let two = Stood {
        rid: second,
        marked: false,
        is_other: true,
    };
    known.changes = 2;
    known.two = Some(two);
    Some(second)
}

/// Two rows are put and scanned, a container is made and dropped, and all is committed.
fn scans<S: RowStore>(store: &mut S, first: &Row, other: &Row) -> bool
    requires idle { IsIdle (S.view store.old) }
    requires first { fits_columns columns_of_tables first.now ≡ true }
    requires other { fits_columns columns_of_tables other.now ≡ true }
{
    let t = TxnNo(store.next_txn());
    let mut known = nothing_yet(store);
    if !opens_at_last(store, t, &mut known) {
        return false;
    }
    known.next_txn = store.next_txn();
    let Some(second) = puts_two(store, t, &mut known, first, other) else {
        return false;
    };
    if !is_scanned(store, t, second) {
        return false;
    }
    if !comes_and_goes(store, t, &mut known, first, other) {
        return false;
    }
    commits(store, t)
}

/// Whether the first search is sent onward.
fn is_sent_on<S: RowStore>(store: &mut S) -> bool
    requires idle { IsIdle (S.view store.old) }
{
    store.law();
    match store.reach(
        1,
        &Target::Heap {
            table: 1,
            after: None,
        },
    ) {
        Ok(Moved::Onward) => true,
        _ => false,
    }
}

/// A table without columns is described.
fn describes<S: RowStore>(store: &mut S, table: &TableDef) -> Result<(), StoreAnswer>
    requires number { table.now.number ≡ 5 }
    requires none { table.now.columns ≡ [] }
{
    store.law();
    store.describe_table(table)
}

/// The same, also where memory is wanting once.
fn describes_at_last<S: RowStore>(store: &mut S, alloc: Global) -> bool {
    let table = TableDef {
        number: 5,
        name: Seq::new(alloc),
        columns: Seq::new(alloc),
    };
    match describes(store, &table) {
        Ok(()) => true,
        Err(StoreAnswer::Memory) => describes(store, &table) == Ok(()),
        Err(_) => false,
    }
}

/// A store over vectors with nothing in it, behind one that sends actors onward.
fn behind(alloc: Global) -> OnwardStore<ListStore>
    ensures { IsIdle (⟦<OnwardStore<ListStore> as RowStore>⟧.view result) }
{
    OnwardStore::new(ListStore::new(alloc))
}

fn row(alloc: Global, number: i64, name: &[u8]) -> Result<Row, AllocError>
    requires number { (number ≡ pos 16) ⊎ (number ≡ pos 17) }
    requires short { length name.now ≤ 128 }
    ensures { IfOk result (λ r. fits_columns columns_of_tables r ≡ true) }
{
    let mut values = Vec::new(alloc);
    values.push(Value::Num(number))?;
    values.push(Value::Text(copy_text(alloc, name)?))?;
    Ok(Seq::from_vec(values))
}

/// The two rows of a trial, also where memory is wanting once.
fn rows_at_last(alloc: Global) -> Result<(Row, Row), AllocError>
    ensures { IfOk result (λ r. (fits_columns columns_of_tables r.0 ≡ true) × (fits_columns columns_of_tables r.1 ≡ true)) }
{
    match rows(alloc) {
        Ok(both) => Ok(both),
        Err(_) => rows(alloc),
    }
}

fn rows(alloc: Global) -> Result<(Row, Row), AllocError>
    ensures { IfOk result (λ r. (fits_columns columns_of_tables r.0 ≡ true) × (fits_columns columns_of_tables r.1 ≡ true)) }
{
    let first = row(alloc, 16, b"T")?;
    let other = row(alloc, 17, b"U")?;
    Ok((first, other))
}

#[test]
fn a_row_is_put_set_marked_and_taken_back(rt: HostRuntime) -> Result<(), Fail> {
    let (first, other) = rows_at_last(rt.alloc())?;
    let mut store = ListStore::new(rt.alloc());
    assert!(rt; changes_and_takes_back(&mut store, &first, &other));
    Ok(())
}

#[test]
fn a_row_is_put_set_marked_and_taken_back_behind_one_that_sends_onward(
    rt: HostRuntime,
) -> Result<(), Fail> {
    let (first, other) = rows_at_last(rt.alloc())?;
    let mut onward = behind(rt.alloc());
    assert!(rt; changes_and_takes_back(&mut onward, &first, &other));
    Ok(())
}

#[test]
fn rows_are_scanned_and_committed(rt: HostRuntime) -> Result<(), Fail> {
    let (first, other) = rows_at_last(rt.alloc())?;
    let mut store = ListStore::new(rt.alloc());
    assert!(rt; scans(&mut store, &first, &other));
    Ok(())
}

#[test]
fn rows_are_scanned_and_committed_behind_one_that_sends_onward(
    rt: HostRuntime,
) -> Result<(), Fail> {
    let (first, other) = rows_at_last(rt.alloc())?;
    let mut onward = behind(rt.alloc());
    assert!(rt; scans(&mut onward, &first, &other));
    Ok(())
}

#[test]
fn only_one_store_sends_a_search_onward(rt: HostRuntime) -> Result<(), Fail> {
    let mut store = ListStore::new(rt.alloc());
    assert!(rt; !is_sent_on(&mut store));
    let mut onward = behind(rt.alloc());
    assert!(rt; is_sent_on(&mut onward));
    Ok(())
}

#[test]
fn tables_are_described_and_65_actors_may_hold_pages(rt: HostRuntime) -> Result<(), Fail> {
    let mut store = ListStore::new(rt.alloc());
    assert!(rt; store.actors() == 65);
    assert!(rt; describes_at_last(&mut store, rt.alloc()));
    let mut onward = behind(rt.alloc());
    assert!(rt; onward.actors() == 65);
    assert!(rt; describes_at_last(&mut onward, rt.alloc()));
    Ok(())
}
