//! One actor alone with one transaction, where memory may be wanting once: the store is seen to be as it was, and the call is made again.

ghost use Rattle.std.specs.Prelude.{◌≡◌, ◌≤◌, ◌<◌, IfOk, IfErr, IfSome, OnOk, true};
ghost use Rattle.std.specs.Bool.{OnTrue};
ghost use Rattle.store_api.specs.Catalog.{columns_of_tables};
ghost use Rattle.store_trials.specs.Sole.{IsIdle, IsSole, IsIdleStill, IsSoleStill};
ghost use Rattle.table_model.specs.Fitting.{fits_columns};

use crate::sole::{
    ends, goes_on, makes, makes_and_drops, makes_room, marks, opens, puts, reaches, reads, sets,
    shows,
};
use dby_types::number::{RowId, TxnNo};
use dby_types::value::Row;
use store_api::answers::{Made, RowRead, StoreAnswer};
use store_api::places::At;
use store_api::store::RowStore;

/// A row that stands in table 1: the one or the other of a trial's two rows.
#[derive(Clone, Copy, Debug, PartialEq, Eq)]
pub struct Stood {
    pub rid: RowId,
    pub marked: bool,
    pub is_other: bool,
}

/// What a trial knows of a store: its numbers, the rows of table 1, and whether memory was wanting yet.
#[derive(Clone, Copy, Debug, PartialEq, Eq)]
pub struct Known {
    pub next_txn: u64,
    pub changes: u64,
    pub faults: u64,
    pub one: Option<Stood>,
    pub two: Option<Stood>,
    pub wanted: bool,
}

/// What stands where the actor is.
fn is_at<S: RowStore>(
    store: &mut S,
    t: TxnNo,
    stood: Option<Stood>,
    first: &Row,
    other: &Row,
) -> bool
    requires sole { IsSole (S.view store.old) t.0 }
    ensures { OnTrue result (IsSole (S.view store.new) t.0) }
{
    match stood {
        Some(s) => {
            if store.held(1)
                != Ok(Some(At::Row {
                    rid: s.rid,
                    marked: s.marked,
                }))
            {
                return false;
            }
            if s.is_other {
                reads(store, t, s.rid, other, s.marked)
            } else {
                reads(store, t, s.rid, first, s.marked)
            }
        }
        None => store.held(1) == Ok(Some(At::End)),
    }
}

/// What stands behind the actor's row.
fn goes_to<S: RowStore>(
    store: &mut S,
    t: TxnNo,
    stood: Option<Stood>,
    first: &Row,
    other: &Row,
) -> bool
    requires sole { IsSole (S.view store.old) t.0 }
    ensures { OnTrue result (IsSole (S.view store.new) t.0) }
{
    if goes_on(store, t) {
        is_at(store, t, stood, first, other)
    } else {
        false
    }
}

/// Table 1 has these rows and no other.
fn has_rows<S: RowStore>(store: &mut S, t: TxnNo, known: &Known, first: &Row, other: &Row) -> bool
    requires sole { IsSole (S.view store.old) t.0 }
    ensures { OnTrue result (IsSole (S.view store.new) t.0) }
{
    if !reaches(store, t) {
        return false;
    }
    if !is_at(store, t, known.one, first, other) {
        return false;
    }
    if known.one.is_none() {
        return true;
    }
    if !goes_to(store, t, known.two, first, other) {
        return false;
    }
    if known.two.is_none() {
        return true;
    }
    goes_to(store, t, None, first, other)
}

/// The store's own numbers are those that are known.
fn has_numbers<S: RowStore>(store: &S, known: &Known) -> bool {
    store.next_txn() == known.next_txn && store.faults() == known.faults
}

/// All is as it is known.
pub fn is_as<S: RowStore>(store: &mut S, t: TxnNo, known: &Known, first: &Row, other: &Row) -> bool
    requires sole { IsSole (S.view store.old) t.0 }
    ensures { OnTrue result (IsSole (S.view store.new) t.0) }
{
    if !has_numbers(store, known) {
        return false;
    }
    if store.place(t) != known.changes {
        return false;
    }
    has_rows(store, t, known, first, other)
}

/// Memory was wanting, for the first time, and has left all as it was.
fn is_left<S: RowStore>(
    store: &mut S,
    t: TxnNo,
    known: &mut Known,
    first: &Row,
    other: &Row,
) -> bool
    requires sole { IsSole (S.view store.old) t.0 }
    ensures { OnTrue result (IsSole (S.view store.new) t.0) }
{
    if known.wanted {
        return false;
    }
    known.wanted = true;
    is_as(store, t, known, first, other)
}

fn try_begin<S: RowStore>(store: &mut S, t: TxnNo) -> Result<(), StoreAnswer>
    requires idle { IsIdle (S.view store.old) }
    requires fresh { (S.view store.old).content.next_txn ≤ t.0 }
    ensures ok { OnOk result (IsSole (S.view store.new) t.0) }
    ensures err { IfErr result (IsIdleStill (S.view store.new) t.0) }
{
    store.law();
    match store.begin(t) {
        Ok(()) => Ok(()),
        Err(e) => Err(e),
    }
}

/// A transaction is opened.
pub fn opens_at_last<S: RowStore>(store: &mut S, t: TxnNo, known: &mut Known) -> bool
    requires idle { IsIdle (S.view store.old) }
    requires fresh { (S.view store.old).content.next_txn ≤ t.0 }
    ensures { OnTrue result (IsSole (S.view store.new) t.0) }
{
    match try_begin(store, t) {
        Ok(()) => true,
        Err(StoreAnswer::Memory) => {
            known.wanted = true;
            if has_numbers(store, known) {
                opens(store, t)
            } else {
                false
            }
        }
        Err(_) => false,
    }
}

fn try_put<S: RowStore>(store: &mut S, t: TxnNo, row: &Row) -> Result<Option<RowId>, StoreAnswer>
    requires sole { IsSole (S.view store.old) t.0 }
    requires fits { fits_columns columns_of_tables row.now ≡ true }
    ensures ok { IfOk result (λ put. IfSome put (λ rid. IsSole (S.view store.new) t.0)) }
    ensures err { IfErr result (IsSoleStill (S.view store.new) t.0) }
{
    if makes_room(store, t) {
        match store.put_row(1, t, 1, row) {
            Ok(rid) => Ok(Some(rid)),
            Err(e) => Err(e),
        }
    } else {
        Ok(None)
    }
}

/// A row is put into table 1: the one or the other.
pub fn puts_at_last<S: RowStore>(
    store: &mut S,
    t: TxnNo,
    row: &Row,
    known: &mut Known,
    first: &Row,
    other: &Row,
) -> Option<RowId>
    requires sole { IsSole (S.view store.old) t.0 }
    requires fits { fits_columns columns_of_tables row.now ≡ true }
    ensures { IfSome result (λ rid. IsSole (S.view store.new) t.0) }
{
    match try_put(store, t, row) {
        Ok(put) => put,
        Err(StoreAnswer::Memory) => {
            if is_left(store, t, known, first, other) {
                puts(store, t, row)
            } else {
                None
            }
        }
        Err(_) => None,
    }
}

fn try_read<S: RowStore>(store: &mut S, t: TxnNo, rid: RowId) -> Result<RowRead, StoreAnswer>
    requires sole { IsSole (S.view store.old) t.0 }
    ensures ok { OnOk result (IsSole (S.view store.new) t.0) }
    ensures err { IfErr result (IsSoleStill (S.view store.new) t.0) }
{
    store.law();
    match store.row(1, 1, rid) {
        Ok(read) => Ok(read),
        Err(e) => Err(e),
    }
}

/// A row of table 1 is read as it is known.
pub fn reads_at_last<S: RowStore>(
    store: &mut S,
    t: TxnNo,
    stood: Stood,
    known: &mut Known,
    first: &Row,
    other: &Row,
) -> bool
    requires sole { IsSole (S.view store.old) t.0 }
    ensures { OnTrue result (IsSole (S.view store.new) t.0) }
{
    let row = if stood.is_other { other } else { first };
    match try_read(store, t, stood.rid) {
        Ok(read) => shows(read, row, stood.marked),
        Err(StoreAnswer::Memory) => {
            if is_left(store, t, known, first, other) {
                reads(store, t, stood.rid, row, stood.marked)
            } else {
                false
            }
        }
        Err(_) => false,
    }
}

fn try_set<S: RowStore>(store: &mut S, t: TxnNo, rid: RowId, row: &Row) -> Result<bool, StoreAnswer>
    requires sole { IsSole (S.view store.old) t.0 }
    requires fits { fits_columns columns_of_tables row.now ≡ true }
    ensures ok { IfOk result (λ done. OnTrue done (IsSole (S.view store.new) t.0)) }
    ensures err { IfErr result (IsSoleStill (S.view store.new) t.0) }
{
    store.law();
    match store.row(1, 1, rid) {
        Ok(
            RowRead::Row {
                row: _old,
                marked: _was,
            },
        ) => match store.set_row(1, t, 1, rid, row) {
            Ok(()) => Ok(true),
            Err(e) => Err(e),
        },
        Ok(_) => Ok(false),
        Err(e) => Err(e),
    }
}

/// A row of table 1 is written over by this one.
pub fn sets_at_last<S: RowStore>(
    store: &mut S,
    t: TxnNo,
    rid: RowId,
    row: &Row,
    known: &mut Known,
    first: &Row,
    other: &Row,
) -> bool
    requires sole { IsSole (S.view store.old) t.0 }
    requires fits { fits_columns columns_of_tables row.now ≡ true }
    ensures { OnTrue result (IsSole (S.view store.new) t.0) }
{
    match try_set(store, t, rid, row) {
        Ok(done) => done,
        Err(StoreAnswer::Memory) => {
            if is_left(store, t, known, first, other) {
                sets(store, t, rid, row)
            } else {
                false
            }
        }
        Err(_) => false,
    }
}

fn try_mark<S: RowStore>(store: &mut S, t: TxnNo, rid: RowId) -> Result<bool, StoreAnswer>
    requires sole { IsSole (S.view store.old) t.0 }
    ensures ok { IfOk result (λ done. OnTrue done (IsSole (S.view store.new) t.0)) }
    ensures err { IfErr result (IsSoleStill (S.view store.new) t.0) }
{
    store.law();
    match store.row(1, 1, rid) {
        Ok(
            RowRead::Row {
                row: _old,
                marked: _was,
            },
        ) => match store.mark_row(1, t, 1, rid) {
            Ok(()) => Ok(true),
            Err(e) => Err(e),
        },
        Ok(_) => Ok(false),
        Err(e) => Err(e),
    }
}

/// A row of table 1 is marked as deleted.
pub fn marks_at_last<S: RowStore>(
    store: &mut S,
    t: TxnNo,
    rid: RowId,
    known: &mut Known,
    first: &Row,
    other: &Row,
) -> bool
    requires sole { IsSole (S.view store.old) t.0 }
    ensures { OnTrue result (IsSole (S.view store.new) t.0) }
{
    match try_mark(store, t, rid) {
        Ok(done) => done,
        Err(StoreAnswer::Memory) => {
            if is_left(store, t, known, first, other) {
                marks(store, t, rid)
            } else {
                false
            }
        }
        Err(_) => false,
    }
}

fn try_make<S: RowStore>(store: &mut S, t: TxnNo) -> Result<u32, StoreAnswer>
    requires sole { IsSole (S.view store.old) t.0 }
    ensures ok { IfOk result (λ n. IsSole (S.view store.new) t.0) }
    ensures made { IfOk result (λ n. n < (S.view store.new).content.next_container) }
    ensures err { IfErr result (IsSoleStill (S.view store.new) t.0) }
{
    'make: loop {
        store.law();
        match store.create(1, t, false) {
            Ok(Made::Number(n)) => return Ok(n),
            Ok(Made::Onward) => ends(store),
            Err(e) => return Err(e),
        }
    }
}

/// A container is made.
pub fn makes_at_last<S: RowStore>(
    store: &mut S,
    t: TxnNo,
    known: &mut Known,
    first: &Row,
    other: &Row,
) -> Option<u32>
    requires sole { IsSole (S.view store.old) t.0 }
    ensures sole { IfSome result (λ n. IsSole (S.view store.new) t.0) }
    ensures made { IfSome result (λ n. n < (S.view store.new).content.next_container) }
{
    match try_make(store, t) {
        Ok(n) => Some(n),
        Err(StoreAnswer::Memory) => {
            if is_left(store, t, known, first, other) {
                makes(store, t)
            } else {
                None
            }
        }
        Err(_) => None,
    }
}

fn try_drop<S: RowStore>(store: &mut S, t: TxnNo, n: u32) -> Result<(), StoreAnswer>
    requires sole { IsSole (S.view store.old) t.0 }
    requires made { n < (S.view store.old).content.next_container }
    ensures ok { OnOk result (IsSole (S.view store.new) t.0) }
    ensures err { IfErr result (IsSoleStill (S.view store.new) t.0) }
{
    match store.discard(t, n) {
        Ok(()) => Ok(()),
        Err(e) => Err(e),
    }
}

/// A container is to be dropped; or, where memory was wanting, one that is made then, under the next number.
pub fn drops_at_last<S: RowStore>(
    store: &mut S,
    t: TxnNo,
    n: u32,
    next: u32,
    known: &mut Known,
    first: &Row,
    other: &Row,
) -> bool
    requires sole { IsSole (S.view store.old) t.0 }
    requires made { n < (S.view store.old).content.next_container }
    ensures { OnTrue result (IsSole (S.view store.new) t.0) }
{
    match try_drop(store, t, n) {
        Ok(()) => true,
        Err(StoreAnswer::Memory) => {
            if is_left(store, t, known, first, other) {
                makes_and_drops(store, t, next)
            } else {
                false
            }
        }
        Err(_) => false,
    }
}
