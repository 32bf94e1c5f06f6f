//! Where actors are, and rows at their row ids.

ghost use Rattle.std.specs.Prelude.{◌≡◌, ◌≢◌, ◌<◌, ◌^◌, length, None, IfOk, OnOk, OnErr};
ghost use Rattle.list_store.specs.Begun.{IsSame, Pushes, changes_of};
ghost use Rattle.list_store.specs.Heaps.{heaps_of, rows_in, row_at, number_of, RowsBecome};
ghost use Rattle.list_store.specs.Holders.{other_in, with_holder, holder_in, MayPut};
ghost use Rattle.list_store.specs.Places.{Searches, fixed, TakesBack, Overwrites, IsCopy};
ghost use Rattle.store_api.specs.Order.{at_slot, at_place as stands_at};

use crate::begun::Begun;
use crate::heap::{self, Heaps, first, number, rows, slot_at};
use crate::holders::{Holder, Holders, holder_of, other_holder, put_holder};
use dby_types::copies::copy_row;
use dby_types::number::{RowId, TxnNo};
use dby_types::value::Row;
use std::alloc::{AllocError, Global};
use store_api::answers::{Moved, Undo};
use store_api::places::{Actor, At, Place};
use store_api::slot::{Item, Slot};

/// What stands at a row id.
fn at_rid(slots: &[Slot], rid: RowId) -> At
    ensures { result ≡ at_slot rid (row_at slots.now rid) }
{
    match slot_at(slots, rid) {
        Some(slot) => At::Row {
            rid,
            marked: slot.marked,
        },
        None => At::End,
    }
}

/// What stands at a place.
pub fn at_place(heaps: &Heaps, table: u32, at: Option<RowId>) -> At
    ensures { result ≡ stands_at (heaps_of heaps.now.entries) table at }
{
    match at {
        Some(rid) => at_rid(rows(heaps, table), rid),
        None => At::End,
    }
}

/// An actor comes to the first row behind a row id, unless another holds the heap.
pub fn search(
    holders: &mut Holders,
    heaps: &Heaps,
    a: Actor,
    table: u32,
    after: Option<RowId>,
) -> Moved
    requires room { MayPut a holders.old.items }
    requires short { length (rows_in heaps.now.entries table) < 2 ^ 47 }
    ensures { Searches a table after (rows_in heaps.now.entries table) holders.old.items holders.new.items result }
{
    if let Some(b) = other_holder(holders.as_slice(), a, table) {
        return Moved::Held(b);
    }
    let at = first(rows(heaps, table), after);
    let held = holder_of(holders.as_slice(), a);
    put_holder(
        holders,
        Holder {
            actor: a,
            place: Some(Place { table, at }),
            page: held.page,
            room: held.room,
        },
    );
    Moved::Reached
}

/// An actor holds a heap beside its place, with or without room for a row.
pub fn fix(holders: &mut Holders, a: Actor, table: u32, room: bool)
    requires { MayPut a holders.old.items }
    ensures { holders.new.items ≡ with_holder (fixed a table room holders.old.items) holders.old.items }
{
    let held = holder_of(holders.as_slice(), a);
    put_holder(
        holders,
        Holder {
            actor: a,
            place: held.place,
            page: Some(table),
            room,
        },
    );
}

/// A second row like the one at a row id.
pub fn copy_at(alloc: Global, heaps: &Heaps, table: u32, rid: RowId) -> Result<Row, AllocError>
    requires { row_at (rows_in heaps.now.entries table) rid ≢ None }
    ensures { IfOk result (IsCopy (row_at (rows_in heaps.now.entries table) rid)) }
{
    match slot_at(rows(heaps, table), rid) {
        Some(slot) => copy_row(alloc, slot.row.as_slice()),
        None => unreachable!(),
    }
}

/// Writes a row over the one at a row id, and notes the change.
pub fn write_at(
    heaps: &mut Heaps,
    begun: &mut Begun,
    t: TxnNo,
    table: u32,
    rid: RowId,
    slot: Slot,
) -> Result<(), AllocError>
    requires begun { changes_of begun.old.entries t.0 ≢ None }
    requires there { row_at (rows_in heaps.old.entries table) rid ≢ None }
    requires short { length (rows_in heaps.old.entries table) < 2 ^ 47 }
    ensures ok { OnOk result (Overwrites heaps.old.entries heaps.new.entries begun.old.entries begun.new.entries t.0 table rid slot) }
    ensures err { OnErr result ((heaps.new.entries ≡ heaps.old.entries) × IsSame begun.old.entries begun.new.entries) }
{
    match number(rid) {
        Some(n) => heap::overwrite(heaps, begun, t, table, n, slot),
        None => unreachable!(),
    }
}

/// Takes a change back.
pub fn take_back(heaps: &mut Heaps, item: Item) -> Undo
    ensures { TakesBack heaps.old.entries heaps.new.entries item result }
{
    match item {
        Item::Changed { table, rid, before } => {
            heap::put_back(heaps, table, rid, before);
            Undo::Undid { table, rid }
        }
        Item::Created(c) => {
            heap::drop_heap(heaps, c);
            Undo::UndidContainer
        }
        Item::Discarded(_) => Undo::UndidContainer,
    }
}
