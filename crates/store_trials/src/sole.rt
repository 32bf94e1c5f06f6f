//! One actor alone with one transaction of one table, over any store: it goes on where it is sent onward.

ghost use Rattle.std.specs.Prelude.{◌≡◌, ◌≤◌, ◌<◌, IfSome, Some, true, false};
ghost use Rattle.std.specs.Bool.{OnTrue};
ghost use Rattle.store_api.specs.Catalog.{columns_of_tables};
ghost use Rattle.store_api.specs.Effects.{IsAtRow};
ghost use Rattle.store_trials.specs.Sole.{IsIdle, IsSole, IsWithin, Has};
ghost use Rattle.table_model.specs.Fitting.{fits_columns};

use dby_types::number::{RowId, TxnNo};
use dby_types::value::Row;
use store_api::answers::{Made, Moved, RowRead, Undo};
use store_api::places::{At, Room, Target};
use store_api::store::RowStore;

/// A transaction is opened.
pub fn opens<S: RowStore>(store: &mut S, t: TxnNo) -> bool
    requires idle { IsIdle (S.view store.old) }
    requires fresh { (S.view store.old).content.next_txn ≤ t.0 }
    ensures { OnTrue result (IsSole (S.view store.new) t.0) }
{
    store.law();
    match store.begin(t) {
        Ok(()) => true,
        Err(_) => false,
    }
}

/// The actor may be sent onward only so often.
pub fn ends<S: RowStore>(store: &S)
    ensures { IsWithin (S.view store.now) S.most_pages }
{
    store.law();
    store.bound();
}

/// Room is made in table 1.
pub fn makes_room<S: RowStore>(store: &mut S, t: TxnNo) -> bool
    requires sole { IsSole (S.view store.old) t.0 }
    ensures sole { OnTrue result (IsSole (S.view store.new) t.0) }
    ensures room { OnTrue result (((S.view store.new).actors 1).room ≡ Some 1) }
{
    'room: loop {
        store.law();
        match store.make_room(1, t, &Room::Heap { table: 1 }) {
            Ok(Moved::Reached) => return true,
            Ok(Moved::Onward) => ends(store),
            _ => return false,
        }
    }
}

/// A row is put into table 1.
pub fn puts<S: RowStore>(store: &mut S, t: TxnNo, row: &Row) -> Option<RowId>
    requires sole { IsSole (S.view store.old) t.0 }
    requires fits { fits_columns columns_of_tables row.now ≡ true }
    ensures sole { IfSome result (λ rid. IsSole (S.view store.new) t.0) }
    ensures stands { IfSome result (λ rid. Has (S.view store.new) rid row.now false) }
{
    if makes_room(store, t) {
        match store.put_row(1, t, 1, row) {
            Ok(rid) => Some(rid),
            Err(_) => None,
        }
    } else {
        None
    }
}

/// A row of table 1 is read as this one.
pub fn reads<S: RowStore>(store: &mut S, t: TxnNo, rid: RowId, row: &Row, marked: bool) -> bool
    requires sole { IsSole (S.view store.old) t.0 }
    ensures { OnTrue result (IsSole (S.view store.new) t.0) }
{
    store.law();
    match store.row(1, 1, rid) {
        Ok(read) => shows(read, row, marked),
        Err(_) => false,
    }
}

pub fn shows(read: RowRead, row: &Row, marked: bool) -> bool {
    match read {
        RowRead::Row {
            row: stands,
            marked: is_marked,
        } => stands == *row && is_marked == marked,
        _ => false,
    }
}

/// The first row of table 1 is reached.
pub fn reaches<S: RowStore>(store: &mut S, t: TxnNo) -> bool
    requires sole { IsSole (S.view store.old) t.0 }
    ensures { OnTrue result (IsSole (S.view store.new) t.0) }
{
    'search: loop {
        store.law();
        match store.reach(
            1,
            &Target::Heap {
                table: 1,
                after: None,
            },
        ) {
            Ok(Moved::Reached) => return true,
            Ok(Moved::Onward) => ends(store),
            _ => return false,
        }
    }
}

/// From a row, the next one is reached.
pub fn goes_on<S: RowStore>(store: &mut S, t: TxnNo) -> bool
    requires sole { IsSole (S.view store.old) t.0 }
    ensures { OnTrue result (IsSole (S.view store.new) t.0) }
{
    match store.held(1) {
        Ok(
            Some(
                At::Row {
                    rid: _here,
                    marked: _was,
                },
            ),
        ) => goes_on_from(store, t),
        _ => false,
    }
}

fn goes_on_from<S: RowStore>(store: &mut S, t: TxnNo) -> bool
    requires sole { IsSole (S.view store.old) t.0 }
    requires at_row { IsAtRow (S.view store.old) 1 }
    ensures { OnTrue result (IsSole (S.view store.new) t.0) }
{
    'step: loop {
        store.law();
        match store.onward(1) {
            Ok(Moved::Reached) => return true,
            Ok(Moved::Onward) => ends(store),
            _ => return false,
        }
    }
}

/// A row of table 1 is written over.
pub fn sets<S: RowStore>(store: &mut S, t: TxnNo, rid: RowId, row: &Row) -> bool
    requires sole { IsSole (S.view store.old) t.0 }
    requires fits { fits_columns columns_of_tables row.now ≡ true }
    ensures sole { OnTrue result (IsSole (S.view store.new) t.0) }
    ensures stands { OnTrue result (Has (S.view store.new) rid row.now false) }
{
    store.law();
    match store.row(1, 1, rid) {
        Ok(
            RowRead::Row {
                row: _old,
                marked: _was,
            },
        ) => match store.set_row(1, t, 1, rid, row) {
            Ok(()) => true,
            Err(_) => false,
        },
        _ => false,
    }
}

/// A row of table 1 is marked as deleted.
pub fn marks<S: RowStore>(store: &mut S, t: TxnNo, rid: RowId) -> bool
    requires sole { IsSole (S.view store.old) t.0 }
    ensures { OnTrue result (IsSole (S.view store.new) t.0) }
{
    store.law();
    match store.row(1, 1, rid) {
        Ok(
            RowRead::Row {
                row: _old,
                marked: _was,
            },
        ) => match store.mark_row(1, t, 1, rid) {
            Ok(()) => true,
            Err(_) => false,
        },
        _ => false,
    }
}

/// The newest change is taken back, where more stand than are asked for.
pub fn undoes<S: RowStore>(store: &mut S, t: TxnNo, down_to: u64, wanted: Undo) -> bool
    requires sole { IsSole (S.view store.old) t.0 }
    ensures { OnTrue result (IsSole (S.view store.new) t.0) }
{
    if store.place(t) < down_to {
        return false;
    }
    'undo: loop {
        store.law();
        match store.undo_one(1, t, down_to) {
            Ok(Undo::Onward) => ends(store),
            Ok(undo) => return undo == wanted,
            Err(_) => return false,
        }
    }
}

/// A container is made.
pub fn makes<S: RowStore>(store: &mut S, t: TxnNo) -> Option<u32>
    requires sole { IsSole (S.view store.old) t.0 }
    ensures sole { IfSome result (λ n. IsSole (S.view store.new) t.0) }
    ensures made { IfSome result (λ n. n < (S.view store.new).content.next_container) }
{
    'make: loop {
        store.law();
        match store.create(1, t, false) {
            Ok(Made::Number(n)) => return Some(n),
            Ok(Made::Onward) => ends(store),
            Err(_) => return None,
        }
    }
}

/// A container is made under this number, and is to be dropped.
pub fn makes_and_drops<S: RowStore>(store: &mut S, t: TxnNo, wanted: u32) -> bool
    requires sole { IsSole (S.view store.old) t.0 }
    ensures { OnTrue result (IsSole (S.view store.new) t.0) }
{
    match makes(store, t) {
        Some(n) => match store.discard(t, n) {
            Ok(()) => n == wanted,
            Err(_) => false,
        },
        None => false,
    }
}

/// A transaction of which no change stands is rolled back.
pub fn ends_undone<S: RowStore>(store: &mut S, t: TxnNo) -> bool
    requires sole { IsSole (S.view store.old) t.0 }
{
    if store.place(t) != 0 {
        return false;
    }
    store.rolled_back(t).is_ok()
}

/// The actor lets go of all.
pub fn lets_go<S: RowStore>(store: &mut S, t: TxnNo)
    requires sole { IsSole (S.view store.old) t.0 }
    ensures sole { IsSole (S.view store.new) t.0 }
    ensures none { ((S.view store.new).actors 1).pages ≡ 0 }
{
    store.let_go(1);
}

/// A transaction is committed, and its commit is made durable.
pub fn commits<S: RowStore>(store: &mut S, t: TxnNo) -> bool
    requires sole { IsSole (S.view store.old) t.0 }
{
    store.append_commit(t).is_ok() && store.force().is_ok()
}
