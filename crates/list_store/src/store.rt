//! The calls of the store.

ghost use Rattle.std.specs.Prelude.{◌≡◌, IfSome};
ghost use Rattle.device.specs.Counts.{Rises};
ghost use Rattle.list_store.specs.Told.{as_told};
ghost use Rattle.list_store.specs.Places.{IsInTheWay};

use crate::begun::{self, Begun};
use crate::heap::{self, MOST_ROWS, number, rows, slot_at};
use crate::holders::{Holders, holder_of, other_holder, remove_holder};
use crate::lists::ListStore;
use crate::places::{at_place, copy_at, fix, search, take_back, write_at};
use dby_types::copies::copy_row;
use dby_types::definition::TableDef;
use dby_types::number::{RowId, TxnNo};
use dby_types::state::SqlState;
use dby_types::value::Row;
use std::alloc::AllocError;
use store_api::answers::{Made, Moved, RowRead, StoreAnswer, Undo};
use store_api::places::{Actor, At, Room, Target};
use store_api::slot::{Item, Slot};
use store_api::store::RowStore;

/// A count that rises; it stands still at its type's end.
fn raised(count: u64) -> u64
    ensures { Rises count result }
{
    if count == u64::MAX { count } else { count + 1 }
}

/// What the store answers where only memory may be wanting.
fn told<T: Drop>(done: Result<T, AllocError>) -> Result<T, StoreAnswer>
    ensures { result ≡ as_told done }
{
    match done {
        Ok(value) => Ok(value),
        Err(_) => Err(StoreAnswer::Memory),
    }
}

/// Another actor that holds the heap of a transaction's newest change.
fn in_the_way(begun: &Begun, holders: &Holders, a: Actor, t: TxnNo) -> Option<Actor>
    ensures { IfSome result (IsInTheWay a holders.now.items) }
{
    match begun::newest(begun, t) {
        Some(Item::Changed { table, .. }) => other_holder(holders.as_slice(), a, *table),
        _ => None,
    }
}

impl RowStore for ListStore {
    ghost use Rattle.std.specs.Prelude.{◌^◌};
    ghost use Rattle.list_store.specs.Lists.{seen, IsSpent};

    ghost view = { seen };

    ghost is_full = { IsSpent };

    ghost is_damaged = { λ s d. ⊥ };

    ghost tells = { ⊥ };

    ghost stands = { λ s base commits durable. ⊥ };

    ghost clock = { λ s. 0 };

    ghost may_be = { λ s since tables. ⊥ };

    ghost are_sound = { λ s since. Unit {0} };

    ghost keeps_rules = { λ tables. Unit {0} };

    ghost most_pages = { 2 ^ 31 };

    fn law(&self) {
        let _ = self.holders.is_empty();
    }

    fn bound(&self) {
        let _ = self.holders.is_empty();
    }

    fn actors(&self) -> u32 {
        65
    }

    fn next_txn(&self) -> u64 {
        self.next_txn
    }

    fn describe_table(&mut self, d: &TableDef) -> Result<(), StoreAnswer> {
        told(heap::describe(&mut self.heaps, self.alloc, d.number, d.columns.as_slice()))
    }

    fn begin(&mut self, t: TxnNo) -> Result<(), StoreAnswer> {
        if t.0 >= 1 << 62 {
            self.no_log = raised(self.no_log);
            return Err(StoreAnswer::Full(SqlState::LogSpent));
        }
        match begun::begin(&mut self.begun, self.alloc, t) {
            Ok(()) => {
                self.next_txn = t.0 + 1;
                Ok(())
            }
            Err(_) => Err(StoreAnswer::Memory),
        }
    }

    fn reach(&mut self, a: Actor, to: &Target) -> Result<Moved, StoreAnswer> {
        match to {
            Target::Heap { table, after } => Ok(search(
                &mut self.holders,
                &self.heaps,
                a,
                *table,
                *after,
            )),
            Target::Tree { .. } => unreachable!(),
        }
    }

    fn held(&self, a: Actor) -> Result<Option<At>, StoreAnswer> {
        match holder_of(self.holders.as_slice(), a).place {
            Some(place) => Ok(Some(at_place(&self.heaps, place.table, place.at))),
            None => Ok(None),
        }
    }

    fn onward(&mut self, a: Actor) -> Result<Moved, StoreAnswer> {
        match holder_of(self.holders.as_slice(), a).place {
            Some(place) => Ok(search(&mut self.holders, &self.heaps, a, place.table, place.at)),
            None => Ok(Moved::Reached),
        }
    }

    fn let_go(&mut self, a: Actor) {
        remove_holder(&mut self.holders, a);
    }

    fn row(&mut self, a: Actor, table: u32, rid: RowId) -> Result<RowRead, StoreAnswer> {
        if let Some(b) = other_holder(self.holders.as_slice(), a, table) {
            return Ok(RowRead::Held(b));
        }
        match slot_at(rows(&self.heaps, table), rid) {
            Some(slot) => {
                let marked = slot.marked;
                match copy_row(self.alloc, slot.row.as_slice()) {
                    Ok(row) => {
                        fix(&mut self.holders, a, table, false);
                        Ok(RowRead::Row { row, marked })
                    }
                    Err(_) => Err(StoreAnswer::Memory),
                }
            }
            None => Ok(RowRead::Absent),
        }
    }

    fn make_room(&mut self, a: Actor, t: TxnNo, need: &Room) -> Result<Moved, StoreAnswer> {
        match need {
            Room::Heap { table } => {
                if let Some(b) = other_holder(self.holders.as_slice(), a, *table) {
                    return Ok(Moved::Held(b));
                }
                if rows(&self.heaps, *table).len() >= MOST_ROWS {
                    self.no_pages = raised(self.no_pages);
                    return Err(StoreAnswer::Full(SqlState::PagesSpent));
                }
                fix(&mut self.holders, a, *table, true);
                Ok(Moved::Reached)
            }
            Room::Entry { .. } => unreachable!(),
        }
    }

    fn put_row(&mut self, a: Actor, t: TxnNo, table: u32, row: &Row) -> Result<RowId, StoreAnswer> {
        if rows(&self.heaps, table).len() >= MOST_ROWS {
            return Err(StoreAnswer::Memory);
        }
        match copy_row(self.alloc, row.as_slice()) {
            Ok(row) => {
                let slot = Slot { row, marked: false };
                told(heap::put(&mut self.heaps, &mut self.begun, self.alloc, t, table, slot))
            }
            Err(_) => Err(StoreAnswer::Memory),
        }
    }

    fn set_row(
        &mut self,
        a: Actor,
        t: TxnNo,
        table: u32,
        rid: RowId,
        row: &Row,
    ) -> Result<(), StoreAnswer> {
        match copy_row(self.alloc, row.as_slice()) {
            Ok(row) => {
                let slot = Slot { row, marked: false };
                told(write_at(&mut self.heaps, &mut self.begun, t, table, rid, slot))
            }
            Err(_) => Err(StoreAnswer::Memory),
        }
    }

    fn mark_row(&mut self, a: Actor, t: TxnNo, table: u32, rid: RowId) -> Result<(), StoreAnswer> {
        match copy_at(self.alloc, &self.heaps, table, rid) {
            Ok(row) => {
                let slot = Slot { row, marked: true };
                told(write_at(&mut self.heaps, &mut self.begun, t, table, rid, slot))
            }
            Err(_) => Err(StoreAnswer::Memory),
        }
    }

    fn create(&mut self, a: Actor, t: TxnNo, is_tree: bool) -> Result<Made, StoreAnswer> {
        let number = self.next_container;
        if number == 1 << 31 {
            self.no_pages = raised(self.no_pages);
            return Err(StoreAnswer::Full(SqlState::PagesSpent));
        }
        match begun::push(&mut self.begun, t, Item::Created(number)) {
            Ok(()) => {
                self.next_container = number + 1;
                Ok(Made::Number(number))
            }
            Err(_) => Err(StoreAnswer::Memory),
        }
    }

    fn discard(&mut self, t: TxnNo, container: u32) -> Result<(), StoreAnswer> {
        told(begun::push(&mut self.begun, t, Item::Discarded(container)))
    }

    fn place(&self, t: TxnNo) -> u64 {
        begun::count(&self.begun, t) as u64
    }

    fn undo_one(&mut self, a: Actor, t: TxnNo, down_to: u64) -> Result<Undo, StoreAnswer> {
        if begun::count(&self.begun, t) as u64 == down_to {
            return Ok(Undo::Done);
        }
        if let Some(b) = in_the_way(&self.begun, &self.holders, a, t) {
            return Ok(Undo::Held(b));
        }
        match begun::pop(&mut self.begun, t) {
            Some(item) => Ok(take_back(&mut self.heaps, item)),
            None => Ok(Undo::Done),
        }
    }

    fn rolled_back(&mut self, t: TxnNo) -> Result<(), StoreAnswer> {
        let _ = begun::end(&mut self.begun, t);
        Ok(())
    }

    fn append_commit(&mut self, t: TxnNo) -> Result<(), StoreAnswer> {
        if let Some(open) = begun::end(&mut self.begun, t) {
            heap::drop_discarded(&mut self.heaps, open);
        }
        Ok(())
    }

    fn force(&mut self) -> Result<(), StoreAnswer> {
        Ok(())
    }

    fn faults(&self) -> u64 {
        0
    }
}
