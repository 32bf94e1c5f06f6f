//! How an INSERT finds room for its rows and puts them.

ghost use Rattle.std.specs.Prelude.{◌≡◌, ◌+◌, ◌≤◌, [], IfErr, IfOk, OnOk, vec_len, vec_capacity};
ghost use Rattle.store_api.specs.Effects.{IsDescribed, IsOpen};
ghost use Rattle.store_api.specs.View.{MayHold};
ghost use Rattle.session_engine.specs.Filling.{Moves, IsRoomy, IsNextRow, IsPopped, TurnsFor, inserted, run_out, told_count};
ghost use Rattle.session_engine.specs.Pacing.{Acts};
ghost use Rattle.session_engine.specs.Stepped.{Refuses};

use crate::binding::refused;
use crate::session::{Fill, Phase, Plan, Session};
use dby_types::answer::Answer;
use dby_types::number::{RowId, TxnNo};
use dby_types::seq::Seq;
use dby_types::state::SqlState;
use dby_types::value::Row;
use journal_model::journal::Entry;
use std::alloc::{AllocError, Global};
use std::mem;
use store_api::answers::{Moved, StoreAnswer};
use store_api::places::{Actor, Room};
use store_api::store::RowStore;

/// How a look for room ended.
#[derive(Clone, Copy, Debug, PartialEq, Eq)]
pub(crate) enum Roomy {
    Made,
    /// One more page was fixed, and the look is to be made again.
    Onward,
    /// This actor holds the page that is wanted, and nothing changed.
    Held(Actor),
    /// No page is left, or no log room.
    NoPages,
    NoLog,
}

/// Looks for room for a new row of a table.
#[tactic(auto, using(crate::proofs::KeptLemmas::refuses_full, crate::proofs::KeptLemmas::spends_both))]
pub(crate) fn room_for_row<S: RowStore>(
    store: &mut S,
    actor: Actor,
    txn: TxnNo,
    table: u32,
) -> Result<Roomy, StoreAnswer>
    requires begun { IsOpen (S.view store.old) txn.0 }
    requires described { IsDescribed (S.view store.old) table }
    requires few { MayHold (S.view store.old) actor }
    ensures moves { Moves actor (S.view store.old) (S.view store.new) }
    ensures cause { IfErr result (Refuses (S.view store.new)) }
    ensures made { IfOk result (IsRoomy actor table (S.view store.old) (S.view store.new)) }
    ensures acts { Acts actor (S.view store.old) (S.view store.new) }
    ensures turns { IfOk result (TurnsFor actor (S.view store.old) (S.view store.new)) }
{
    let need = Room::Heap { table };
    match store.make_room(actor, txn, &need) {
        Ok(Moved::Reached) => Ok(Roomy::Made),
        Ok(Moved::Onward) => Ok(Roomy::Onward),
        Ok(Moved::Held(b)) => Ok(Roomy::Held(b)),
        Err(StoreAnswer::Full(state)) => match state {
            SqlState::PagesSpent => Ok(Roomy::NoPages),
            SqlState::LogSpent => Ok(Roomy::NoLog),
            _ => unreachable!(),
        },
        Err(answer) => Err(answer),
    }
}

/// Room for a change, its entry and that of its undo, beside what is owed already.
pub(crate) fn room_to_change(
    entries: &mut Vec<Entry>,
    made: &mut Vec<u64>,
    owed: usize,
) -> Result<(), AllocError>
    ensures entries { entries.new.items ≡ entries.old.items }
    ensures made { made.new.items ≡ made.old.items }
    ensures kept { (vec_len entries.new ≡ vec_len entries.old) × (vec_capacity entries.old ≤ vec_capacity entries.new) }
    ensures room { OnOk result ((vec_len entries.new + (owed + 2) ≤ vec_capacity entries.new) × (vec_len made.new + 1 ≤ vec_capacity made.new)) }
{
    entries.reserve(owed.checked_add(2).ok_or(AllocError)?)?;
    made.reserve(1)
}

/// The next row of an INSERT that has made room for it; the room is used up.
fn pop_row(fill: &mut Fill) -> Option<Row>
    ensures { IsPopped fill.old fill.new result }
{
    if !fill.has_room {
        return None;
    }
    if fill.rows.is_empty() {
        return None;
    }
    let row = fill.rows.pop()?;
    fill.has_room = false;
    Some(row)
}

/// The same out of a connection's plan, with the number of its table.
pub(crate) fn next_row(session: &mut Session) -> Option<(u32, Row)>
    ensures { IsNextRow session.old session.new result }
{
    let planned = mem::replace(&mut session.plan, Plan::Nothing);
    match planned {
        Plan::Insert(mut fill) => {
            let number = fill.number;
            let popped = pop_row(&mut fill);
            session.plan = Plan::Insert(fill);
            match popped {
                Some(row) => Some((number, row)),
                None => None,
            }
        }
        other => {
            session.plan = other;
            None
        }
    }
}

/// The entry of a row that was put.
pub(crate) fn inserted(txn: TxnNo, table: u32, rid: RowId, row: Row) -> Entry
    ensures { result ≡ inserted txn table rid row }
{
    Entry::Did {
        txn,
        table,
        rid,
        old: None,
        new: Some(row),
    }
}

/// No page is left: the statement is to be refused.
pub(crate) fn run_out(alloc: Global, session: &mut Session, state: SqlState)
    ensures { session.new ≡ run_out session.old state }
{
    session.phase = Phase::Refusing;
    session.plan = refused(alloc, state);
}

/// The entry of an INSERT's answer.
pub(crate) fn told_count(alloc: Global, txn: TxnNo, place: u64, count: u64) -> Entry
    ensures { result ≡ told_count txn place count }
{
    Entry::Answered {
        txn,
        answer: Answer::Changed(count),
        joined: Seq::new(alloc),
        from: place,
        to: place,
    }
}
