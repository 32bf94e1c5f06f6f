//! The row store: heaps of rows, transactions that change them and take changes back, and what each actor holds.

ghost use Rattle.std.specs.Prelude.{⊤, ◌≡◌, ◌≢◌, ◌≤◌, ◌<◌, ◌+◌, ◌^◌, ◌↔◌, ◌⊎◌, ℕ, List, [], length, Option, Some, IfOk, IfErr, OnOk, IsTrue, true};
ghost use Rattle.dby_types.specs.declared.number.Damage.{Damage};
ghost use Rattle.dby_types.specs.declared.state.SqlState.{SqlState};
ghost use Rattle.dby_types.specs.declared.state.SqlState.TheVariants.{LogSpent};
ghost use Rattle.store_api.specs.Crashes.{Standing, Survives, KeepsRules, MakesDurable, net_in, as_they_are, with_commit};
ghost use Rattle.store_api.specs.Effects.{MayDescribe, IsDescribed, IsOpen, MayReach, MayMakeRoom, IsAtRow, FitsTable, MayChange, IsOutside, ReachesTarget, MovesOn, Reads, MakesRoomFor, Puts, Sets, Marks, Creates, Undoes, is_done, with_item, without_txn, committed};
ghost use Rattle.store_api.specs.Frames.{Frame, GrowingFrame, StillFrame, Stores, HasCause, IsWell, never_full};
ghost use Rattle.store_api.specs.Order.{shown_at};
ghost use Rattle.store_api.specs.View.{View, IsSound, MayHold, MayBegin, at_number, nothing_held, changes_in};
ghost use Rattle.store_api.specs.declared.slot.Item.TheVariants.{Discarded};
ghost use Rattle.table_model.specs.Tables.{Tables, Each};

use crate::answers::{Made, Moved, RowRead, StoreAnswer, Undo};
use crate::places::{Actor, At, Room, Target};
use dby_types::definition::TableDef;
use dby_types::number::{RowId, TxnNo};
use dby_types::value::Row;

/// A store of rows. A transaction is open from the Ok of its `begin` to its `append_commit` or `rolled_back`.
pub trait RowStore {
    /// What it is seen with.
    ghost view: { Self → View };

    /// What is spent: no further page or container, or no further log room.
    ghost is_full: { Self → SqlState → Type 0 };

    /// Bytes that it may read fail so.
    ghost is_damaged: { Self → Damage → Type 0 };

    /// True of a store over a disk that tells its crashes, and false of any other, which owes no clause on them.
    ghost tells: { Type 0 };

    /// What it stands for: base, commits, and how many of them are durable.
    ghost stands: { Self → Standing };

    /// The disk's clock.
    ghost clock: { Self → ℕ };

    /// An image of a moment since a time has these tables.
    ghost may_be: { Self → ℕ → Tables → Type 0 };

    /// Each image of a moment since a time is sound.
    ghost are_sound: { Self → ℕ → Type 0 };

    /// What a sound image asks of its tables.
    ghost keeps_rules: { Tables → Type 0 };

    /// As many pages as its containers ever have.
    ghost most_pages: { ℕ };

    /// What holds of it at any time. The call does nothing.
    fn law(&self)
        ensures { IsSound (view self.now) };

    /// That its pages end, and with them the answers Onward in a row. The call does nothing.
    fn bound(&self)
        ensures { (view self.now).pages ≤ most_pages };

    /// How many actors may hold pages at once, the daemon among them: from 2 to 65.
    fn actors(&self) -> u32
        ensures { result ≡ (view self.now).limit };

    /// A number above that of each transaction that was begun, from 1 to 2^62.
    fn next_txn(&self) -> u64
        ensures { result ≡ (view self.now).content.next_txn };

    /// Rows of this table are read and written by its columns from now on, until the drop of its container is committed.
    fn describe_table(&mut self, d: &TableDef) -> Result<(), StoreAnswer>
        requires { MayDescribe (view self.old) d.now }
        ensures frame { StillFrame (view self.old) (view self.new) }
        ensures ok { OnOk result (Stores (view self.old) (view self.new) (record (view self.old).content { columns = at_number (view self.old).content.columns d.now.number (Some d.now.columns) })) }
        ensures err { IfErr result (HasCause ⊤ never_full (λ d. ⊥) (view self.old).content (view self.old) (view self.new)) }
        ensures crash { tells → Survives (stands self.old) (stands self.new) (clock self.old) (clock self.new) (may_be self.old) (may_be self.new) (are_sound self.old) (are_sound self.new) as_they_are };

    /// Opens a transaction, with what its end will need.
    fn begin(&mut self, t: TxnNo) -> Result<(), StoreAnswer>
        requires fresh { (view self.old).content.next_txn ≤ t.0 }
        requires few { MayBegin (view self.old) }
        ensures frame { StillFrame (view self.old) (view self.new) }
        ensures ok { OnOk result ((t.0 < 2 ^ 62) × Stores (view self.old) (view self.new) (record (view self.old).content { changes = at_number (view self.old).content.changes t.0 (Some []); next_txn = t.0 + 1 })) }
        ensures err { IfErr result (HasCause ⊤ (λ state. (state ≡ LogSpent) × ((2 ^ 62 ≤ t.0) ⊎ is_full self.old state)) (is_damaged self.old) (view self.old).content (view self.old) (view self.new)) }
        ensures crash { tells → Survives (stands self.old) (stands self.new) (clock self.old) (clock self.new) (may_be self.old) (may_be self.new) (are_sound self.old) (are_sound self.new) as_they_are };

    /// Comes to the first row behind a row id, live or marked, or to the end of the heap, and holds its page.
    fn reach(&mut self, a: Actor, to: &Target) -> Result<Moved, StoreAnswer>
        requires described { MayReach (view self.old) to.now }
        requires few { MayHold (view self.old) a }
        ensures frame { Frame a (view self.old) (view self.new) }
        ensures ok { IfOk result (λ m. Stores (view self.old) (view self.new) (view self.old).content × ReachesTarget a to.now (view self.old) (view self.new) m) }
        ensures err { IfErr result (HasCause ⊥ never_full (is_damaged self.old) (view self.old).content (view self.old) (view self.new)) }
        ensures crash { tells → Survives (stands self.old) (stands self.new) (clock self.old) (clock self.new) (may_be self.old) (may_be self.new) (are_sound self.old) (are_sound self.new) as_they_are };

    /// What stands at the actor's place; None exactly where it holds no place.
    fn held(&self, a: Actor) -> Result<Option<At>, StoreAnswer>
        ensures ok { IfOk result (λ at. ((view self.now).meters.keeps ≡ None) × (at ≡ shown_at (view self.now).content.heaps ((view self.now).actors a).place)) }
        ensures err { IfErr result (λ e. (e ≡ StoreAnswer.Memory) ⊎ ((view self.now).meters.keeps ≡ Some e)) };

    /// Goes on from the row at which the actor is to the next one.
    fn onward(&mut self, a: Actor) -> Result<Moved, StoreAnswer>
        requires at_row { IsAtRow (view self.old) a }
        requires few { MayHold (view self.old) a }
        ensures frame { Frame a (view self.old) (view self.new) }
        ensures ok { IfOk result (λ m. Stores (view self.old) (view self.new) (view self.old).content × MovesOn a (view self.old) (view self.new) m) }
        ensures err { IfErr result (HasCause ⊥ never_full (is_damaged self.old) (view self.old).content (view self.old) (view self.new)) }
        ensures crash { tells → Survives (stands self.old) (stands self.new) (clock self.old) (clock self.new) (may_be self.old) (may_be self.new) (are_sound self.old) (are_sound self.new) as_they_are };

    /// Lets go of everything that the actor holds.
    fn let_go(&mut self, a: Actor)
        ensures frame { Frame a (view self.old) (view self.new) }
        ensures none { ((view self.new).actors a).pages ≡ 0 }
        ensures turns { ((view self.new).actors a).turns ≡ 0 }
        ensures same { (view self.new).content ≡ (view self.old).content }
        ensures meters { (view self.new).meters ≡ (view self.old).meters }
        ensures crash { tells → Survives (stands self.old) (stands self.new) (clock self.old) (clock self.new) (may_be self.old) (may_be self.new) (are_sound self.old) (are_sound self.new) as_they_are };

    /// Reads a row, live or marked, and holds its page beside the actor's place.
    fn row(&mut self, a: Actor, table: u32, rid: RowId) -> Result<RowRead, StoreAnswer>
        requires described { IsDescribed (view self.old) table }
        requires few { MayHold (view self.old) a }
        ensures frame { Frame a (view self.old) (view self.new) }
        ensures ok { IfOk result (λ r. Stores (view self.old) (view self.new) (view self.old).content × Reads a table rid (view self.old) (view self.new) r) }
        ensures err { IfErr result (HasCause ⊤ never_full (is_damaged self.old) (view self.old).content (view self.old) (view self.new)) }
        ensures crash { tells → Survives (stands self.old) (stands self.new) (clock self.old) (clock self.new) (may_be self.old) (may_be self.new) (are_sound self.old) (are_sound self.new) as_they_are };

    /// Holds a page with room for a new row, and sets aside what its put and its undo will need.
    fn make_room(&mut self, a: Actor, t: TxnNo, need: &Room) -> Result<Moved, StoreAnswer>
        requires begun { IsOpen (view self.old) t.0 }
        requires described { MayMakeRoom (view self.old) need.now }
        requires few { MayHold (view self.old) a }
        ensures frame { GrowingFrame a (view self.old) (view self.new) }
        ensures ok { IfOk result (λ m. Stores (view self.old) (view self.new) (view self.old).content × MakesRoomFor a need.now (view self.old) (view self.new) m) }
        ensures err { IfErr result (HasCause ⊤ (is_full self.old) (is_damaged self.old) (view self.old).content (view self.old) (view self.new)) }
        ensures crash { tells → Survives (stands self.old) (stands self.new) (clock self.old) (clock self.new) (may_be self.old) (may_be self.new) (are_sound self.old) (are_sound self.new) as_they_are };

    /// Puts a row where none was, in the room that was made for it.
    fn put_row(&mut self, a: Actor, t: TxnNo, table: u32, row: &Row) -> Result<RowId, StoreAnswer>
        requires begun { IsOpen (view self.old) t.0 }
        requires room { ((view self.old).actors a).room ≡ Some table }
        requires fits { FitsTable (view self.old) table row.now }
        ensures frame { Frame a (view self.old) (view self.new) }
        ensures ok { IfOk result (Puts a t.0 table row.now (view self.old) (view self.new)) }
        ensures err { IfErr result (HasCause ⊤ never_full (is_damaged self.old) (view self.old).content (view self.old) (view self.new)) }
        ensures crash { tells → Survives (stands self.old) (stands self.new) (clock self.old) (clock self.new) (may_be self.old) (may_be self.new) (are_sound self.old) (are_sound self.new) as_they_are };

    /// Writes a row over the one that stands there.
    fn set_row(
        &mut self,
        a: Actor,
        t: TxnNo,
        table: u32,
        rid: RowId,
        row: &Row,
    ) -> Result<(), StoreAnswer>
        requires may { MayChange (view self.old) a t.0 table rid }
        requires fits { FitsTable (view self.old) table row.now }
        ensures frame { Frame a (view self.old) (view self.new) }
        ensures ok { OnOk result (Sets a t.0 table rid row.now (view self.old) (view self.new)) }
        ensures err { IfErr result (HasCause ⊤ (is_full self.old) (is_damaged self.old) (view self.old).content (view self.old) (view self.new)) }
        ensures crash { tells → Survives (stands self.old) (stands self.new) (clock self.old) (clock self.new) (may_be self.old) (may_be self.new) (are_sound self.old) (are_sound self.new) as_they_are };

    /// Marks a row as deleted.
    fn mark_row(&mut self, a: Actor, t: TxnNo, table: u32, rid: RowId) -> Result<(), StoreAnswer>
        requires may { MayChange (view self.old) a t.0 table rid }
        requires described { IsDescribed (view self.old) table }
        ensures frame { Frame a (view self.old) (view self.new) }
        ensures ok { OnOk result (Marks a t.0 table rid (view self.old) (view self.new)) }
        ensures err { IfErr result (HasCause ⊤ (is_full self.old) (is_damaged self.old) (view self.old).content (view self.old) (view self.new)) }
        ensures crash { tells → Survives (stands self.old) (stands self.new) (clock self.old) (clock self.new) (may_be self.old) (may_be self.new) (are_sound self.old) (are_sound self.new) as_they_are };

    /// Makes a container, for a tree or for a heap, under a number that none had.
    fn create(&mut self, a: Actor, t: TxnNo, is_tree: bool) -> Result<Made, StoreAnswer>
        requires begun { IsOpen (view self.old) t.0 }
        requires few { MayHold (view self.old) a }
        ensures frame { GrowingFrame a (view self.old) (view self.new) }
        ensures ok { IfOk result (Creates a t.0 (view self.old) (view self.new)) }
        ensures err { IfErr result (HasCause ⊤ (is_full self.old) (is_damaged self.old) (view self.old).content (view self.old) (view self.new)) }
        ensures crash { tells → Survives (stands self.old) (stands self.new) (clock self.old) (clock self.new) (may_be self.old) (may_be self.new) (are_sound self.old) (are_sound self.new) as_they_are };

    /// A container is to be dropped once its transaction is committed.
    fn discard(&mut self, t: TxnNo, container: u32) -> Result<(), StoreAnswer>
        requires begun { IsOpen (view self.old) t.0 }
        requires made { container < (view self.old).content.next_container }
        requires free { (u : ℕ) → u ≢ t.0 → Each (IsOutside container) (changes_in ((view self.old).content.changes u)) }
        ensures frame { StillFrame (view self.old) (view self.new) }
        ensures ok { OnOk result (Stores (view self.old) (view self.new) (with_item (view self.old).content t.0 (Discarded container))) }
        ensures err { IfErr result (HasCause ⊤ (is_full self.old) (is_damaged self.old) (view self.old).content (view self.old) (view self.new)) }
        ensures crash { tells → Survives (stands self.old) (stands self.new) (clock self.old) (clock self.new) (may_be self.old) (may_be self.new) (are_sound self.old) (are_sound self.new) as_they_are };

    /// How many changes of the transaction stand.
    fn place(&self, t: TxnNo) -> u64
        requires { IsOpen (view self.now) t.0 }
        ensures { result ≡ length (changes_in ((view self.now).content.changes t.0)) };

    /// Takes the transaction's newest change back, where more stand than are asked for. It takes no memory.
    fn undo_one(&mut self, a: Actor, t: TxnNo, down_to: u64) -> Result<Undo, StoreAnswer>
        requires begun { IsOpen (view self.old) t.0 }
        requires within { down_to ≤ length (changes_in ((view self.old).content.changes t.0)) }
        requires few { MayHold (view self.old) a }
        ensures frame { Frame a (view self.old) (view self.new) }
        ensures ok { IfOk result (Undoes a t.0 down_to (view self.old) (view self.new)) }
        ensures done { IfOk result (λ u. IsTrue (is_done u) ↔ (length (changes_in ((view self.old).content.changes t.0)) ≡ down_to)) }
        ensures err { IfErr result (HasCause ⊥ never_full (is_damaged self.old) (view self.old).content (view self.old) (view self.new)) }
        ensures crash { tells → Survives (stands self.old) (stands self.new) (clock self.old) (clock self.new) (may_be self.old) (may_be self.new) (are_sound self.old) (are_sound self.new) as_they_are };

    /// Ends a transaction of which no change stands, at each answer. It takes no memory.
    fn rolled_back(&mut self, t: TxnNo) -> Result<(), StoreAnswer>
        requires begun { (view self.old).content.changes t.0 ≡ Some [] }
        ensures frame { StillFrame (view self.old) (view self.new) }
        ensures ok { OnOk result (Stores (view self.old) (view self.new) (without_txn (view self.old).content t.0)) }
        ensures err { IfErr result (HasCause ⊥ never_full (is_damaged self.old) (without_txn (view self.old).content t.0) (view self.old) (view self.new)) }
        ensures crash { tells → Survives (stands self.old) (stands self.new) (clock self.old) (clock self.new) (may_be self.old) (may_be self.new) (are_sound self.old) (are_sound self.new) as_they_are };

    /// Ends a transaction by its commit, at each answer; the containers that it discarded are gone. It takes no memory.
    fn append_commit(&mut self, t: TxnNo) -> Result<(), StoreAnswer>
        requires begun { IsOpen (view self.old) t.0 }
        ensures frame { StillFrame (view self.old) (view self.new) }
        ensures ok { OnOk result (Stores (view self.old) (view self.new) (committed (view self.old).content t.0)) }
        ensures err { IfErr result (HasCause ⊥ never_full (is_damaged self.old) (committed (view self.old).content t.0) (view self.old) (view self.new)) }
        ensures crash { tells → KeepsRules keeps_rules (view self.old).content t.0 → Survives (stands self.old) (stands self.new) (clock self.old) (clock self.new) (may_be self.old) (may_be self.new) (are_sound self.old) (are_sound self.new) (with_commit (net_in (view self.old).content t.0)) };

    /// Makes all commits durable. It takes no memory.
    fn force(&mut self) -> Result<(), StoreAnswer>
        ensures frame { StillFrame (view self.old) (view self.new) }
        ensures ok { OnOk result (Stores (view self.old) (view self.new) (view self.old).content) }
        ensures err { IfErr result (HasCause ⊥ never_full (is_damaged self.old) (view self.old).content (view self.old) (view self.new)) }
        ensures crash { tells → Survives (stands self.old) (stands self.new) (clock self.old) (clock self.new) (may_be self.old) (may_be self.new) (are_sound self.old) (are_sound self.new) as_they_are }
        ensures durable { tells → OnOk result (MakesDurable (stands self.old) (stands self.new)) };

    /// How often the disk has failed.
    fn faults(&self) -> u64
        ensures { result ≡ (view self.now).meters.faults };
}
