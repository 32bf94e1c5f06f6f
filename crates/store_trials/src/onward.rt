//! A store over another one that answers Onward once before each answer that comes to a place.

use crate::marks::{
    Marks, clear, ends_making, ends_move, ends_undo, may_send, may_send_to_start, nobody,
};
use dby_types::definition::TableDef;
use dby_types::number::{RowId, TxnNo};
use dby_types::value::Row;
use store_api::answers::{Made, Moved, RowRead, StoreAnswer, Undo};
use store_api::places::{Actor, At, Room, Target};
use store_api::store::RowStore;

/// The store below, and which actors were sent onward since their last answer of another kind.
#[derive(Drop)]
pub struct OnwardStore<S> {
    store: S,
    sent: Marks,
}

impl<S: RowStore> OnwardStore<S> {
    ghost use Rattle.store_trials.specs.Sent.{IsOver};

    /// A store over another one, with nobody sent onward yet.
    pub fn new(store: S) -> OnwardStore<S>
        ensures { IsOver (S.view store) (⟦<OnwardStore<S> as RowStore>⟧.view result) }
    {
        OnwardStore {
            store,
            sent: nobody(),
        }
    }
}

impl<S: RowStore> RowStore for OnwardStore<S> {
    ghost use Rattle.std.specs.Prelude.{◌+◌};
    ghost use Rattle.store_trials.specs.Sent.{seen_over};

    ghost view = { λ s. seen_over (S.view s.store) s.sent };

    ghost is_full = { λ s. S.is_full s.store };

    ghost is_damaged = { λ s. S.is_damaged s.store };

    ghost tells = { ⊥ };

    ghost stands = { λ s base commits durable. ⊥ };

    ghost clock = { λ s. 0 };

    ghost may_be = { λ s since tables. ⊥ };

    ghost are_sound = { λ s since. Unit {0} };

    ghost keeps_rules = { λ tables. Unit {0} };

    ghost most_pages = { S.most_pages + 1 };

    fn law(&self) {
        self.store.law();
    }

    fn bound(&self) {
        self.store.bound();
    }

    fn actors(&self) -> u32 {
        self.store.actors()
    }

    fn next_txn(&self) -> u64 {
        self.store.next_txn()
    }

    fn describe_table(&mut self, d: &TableDef) -> Result<(), StoreAnswer> {
        self.store.describe_table(d)
    }

    fn begin(&mut self, t: TxnNo) -> Result<(), StoreAnswer> {
        self.store.begin(t)
    }

    fn reach(&mut self, a: Actor, to: &Target) -> Result<Moved, StoreAnswer> {
        if may_send_to_start(&self.store, &self.sent, a) {
            self.sent[a as usize] = true;
            return Ok(Moved::Onward);
        }
        let answer = self.store.reach(a, to);
        clear(&mut self.sent, a, ends_move(&answer));
        answer
    }

    fn held(&self, a: Actor) -> Result<Option<At>, StoreAnswer> {
        self.store.held(a)
    }

    fn onward(&mut self, a: Actor) -> Result<Moved, StoreAnswer> {
        if may_send(&self.store, &self.sent, a) {
            self.sent[a as usize] = true;
            return Ok(Moved::Onward);
        }
        let answer = self.store.onward(a);
        clear(&mut self.sent, a, ends_move(&answer));
        answer
    }

    fn let_go(&mut self, a: Actor) {
        self.store.let_go(a);
        clear(&mut self.sent, a, true);
    }

    fn row(&mut self, a: Actor, table: u32, rid: RowId) -> Result<RowRead, StoreAnswer> {
        let answer = self.store.row(a, table, rid);
        clear(&mut self.sent, a, answer.is_ok());
        answer
    }

    fn make_room(&mut self, a: Actor, t: TxnNo, need: &Room) -> Result<Moved, StoreAnswer> {
        if may_send(&self.store, &self.sent, a) {
            self.sent[a as usize] = true;
            return Ok(Moved::Onward);
        }
        let answer = self.store.make_room(a, t, need);
        clear(&mut self.sent, a, ends_move(&answer));
        answer
    }

    fn put_row(&mut self, a: Actor, t: TxnNo, table: u32, row: &Row) -> Result<RowId, StoreAnswer> {
        let answer = self.store.put_row(a, t, table, row);
        clear(&mut self.sent, a, answer.is_ok());
        answer
    }

    fn set_row(
        &mut self,
        a: Actor,
        t: TxnNo,
        table: u32,
        rid: RowId,
        row: &Row,
    ) -> Result<(), StoreAnswer> {
        let answer = self.store.set_row(a, t, table, rid, row);
        clear(&mut self.sent, a, answer.is_ok());
        answer
    }

    fn mark_row(&mut self, a: Actor, t: TxnNo, table: u32, rid: RowId) -> Result<(), StoreAnswer> {
        let answer = self.store.mark_row(a, t, table, rid);
        clear(&mut self.sent, a, answer.is_ok());
        answer
    }

    fn create(&mut self, a: Actor, t: TxnNo, is_tree: bool) -> Result<Made, StoreAnswer> {
        if may_send(&self.store, &self.sent, a) {
            self.sent[a as usize] = true;
            return Ok(Made::Onward);
        }
        let answer = self.store.create(a, t, is_tree);
        clear(&mut self.sent, a, ends_making(&answer));
        answer
    }

    fn discard(&mut self, t: TxnNo, container: u32) -> Result<(), StoreAnswer> {
        self.store.discard(t, container)
    }

    fn place(&self, t: TxnNo) -> u64 {
        self.store.place(t)
    }

    fn undo_one(&mut self, a: Actor, t: TxnNo, down_to: u64) -> Result<Undo, StoreAnswer> {
        if self.store.place(t) > down_to && may_send(&self.store, &self.sent, a) {
            self.sent[a as usize] = true;
            return Ok(Undo::Onward);
        }
        let answer = self.store.undo_one(a, t, down_to);
        clear(&mut self.sent, a, ends_undo(&answer));
        answer
    }

    fn rolled_back(&mut self, t: TxnNo) -> Result<(), StoreAnswer> {
        self.store.rolled_back(t)
    }

    fn append_commit(&mut self, t: TxnNo) -> Result<(), StoreAnswer> {
        self.store.append_commit(t)
    }

    fn force(&mut self) -> Result<(), StoreAnswer> {
        self.store.force()
    }

    fn faults(&self) -> u64 {
        self.store.faults()
    }
}
