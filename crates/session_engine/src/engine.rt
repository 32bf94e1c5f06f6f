//! The engine: its connections over one store, and the journal that they write.

ghost use Rattle.std.specs.Prelude.{slice_set, true, IfOk, IfErr, Some, None, ◌≡◌, ◌+◌, ◌^◌, ◌<◌, ◌≤◌, ◌++◌, [], ◌∷◌, length, vec_len, vec_capacity};
ghost use Rattle.lock_modes.specs.Lock.{queue};
ghost use Rattle.lock_manager.specs.Table.{lock, woken_of};
ghost use Rattle.session_engine.specs.Release.{Idles, Released};
ghost use Rattle.session_engine.specs.Noted.{noted};
ghost use Rattle.session_engine.specs.Opening.{IsEmptyStore};
ghost use Rattle.session_engine.specs.Stepped.{Grows, HaltsFor, HasStopped, IsFinished, IsHalt, IsNoted, IsTold, KeepsFor, NotEnded, stop_after};
ghost use Rattle.session_engine.specs.declared.step.Event.TheVariants.{Change, Rollback};
ghost use Rattle.session_model.specs.Legal.{IsLegal};
ghost use Rattle.store_api.specs.View.{IsSound};
ghost use Rattle.table_model.specs.Tables.{Each, no_tables};
ghost use Rattle.session_engine.specs.Blocking.{HasWhy};
ghost use Rattle.session_engine.specs.Pacing.{Paces, gets_done, next_at};
ghost use Rattle.session_engine.specs.declared.next.Next.TheVariants.{Close, Refuse as ToRefuse, Work as ToWork};
ghost use Rattle.session_engine.specs.declared.next.Work.TheVariants.{Command as ToCommand};
ghost use Rattle.session_engine.specs.declared.next.Close.TheVariants.{GiveUp, Acknowledge, Append, Force, Leave, Vanish};

use crate::dictionary::{Tables, unlist};
use crate::follows::{automatic_after, ends, level_after, phase_answered, phase_refused, told};
use crate::opening::connections;
use crate::session::{Phase, Plan, Session};
use crate::step::{Event, Step, Stop, Why};
use dby_types::number::TxnNo;
use dby_types::seq::Seq;
use dby_types::value::Txt;
use indexmap::IndexMap;
use journal_model::journal::Entry;
use lock_manager::table::LockTable;
use lock_modes::event::LockEvent;
use session_model::journal::Locked;
use std::alloc::{AllocError, Global};
use std::collections::VecDeque;
use std::marker::Model;
use std::mem;
use store_api::answers::{StoreAnswer, Undo};
use store_api::places::Actor;
use store_api::store::RowStore;

/// Connections that take turns over one store.
#[derive(Drop)]
pub struct Engine<S: RowStore> {
    pub(crate) alloc: Global,
    pub(crate) store: S,
    pub(crate) entries: Vec<Entry>,
    pub(crate) events: Vec<Locked>,
    pub(crate) locks: LockTable,
    pub(crate) tables: Tables,
    pub(crate) sessions: Vec<Session>,
    /// The greatest number of a transaction.
    pub(crate) last: u64,
    /// For how many entries, and lock events, room is kept.
    pub(crate) owed: usize,
    pub(crate) owed_events: usize,
    pub(crate) stop: Option<Stop>,
}

impl<S: RowStore> Model for Engine<S> {
    ghost use Rattle.std.specs.Prelude.{List, ℕ, Option};
    ghost use Rattle.session_engine.specs.State.{scripts_of};
    ghost use Rattle.session_engine.specs.declared.next.Next.{Next};
    ghost use Rattle.session_engine.specs.Pacing.{nexts_of};
    ghost use Rattle.session_engine.specs.declared.step.Stop.{Stop};
    ghost use Rattle.journal_model.specs.declared.journal.Entry.{Entry};
    ghost use Rattle.session_model.specs.declared.journal.Locked.{Locked};
    ghost use Rattle.session_engine.specs.Engine.{EngineHolds};
    ghost use Rattle.sql_ast.specs.contracts.expression.Expression as expression;
    ghost use Rattle.std.specs.Coded.{codes};

    ghost coded = { Prim.hlevel (codes, expression.the_row.coded) };

    ghost Value = { List (List ℕ) × List Entry × List Locked × S × Option Stop × List Next };

    ghost view = { λ e. (scripts_of e.sessions.items, e.entries.items, e.events.items, e.store, e.stop, nexts_of e.sessions.items) };

    ghost invariant = { λ e. EngineHolds e.entries e.events e.locks e.sessions.items (S.view e.store) e.tables.entries e.last e.owed e.owed_events };
}

/// Puts an entry for which there is room.
pub fn put<T: Drop>(items: &mut Vec<T>, item: T)
    requires { vec_len items.old < vec_capacity items.old }
    ensures items { items.new.items ≡ items.old.items ++ item ∷ [] }
    ensures len { vec_len items.new ≡ vec_len items.old + 1 }
    ensures capacity { vec_capacity items.old ≤ vec_capacity items.new }
{
    let _ = items.push(item);
}

/// The actor that a connection is for the store: the first one is 1.
pub fn actor_of(c: usize) -> Actor
    requires { c + 1 < 2 ^ 32 }
    ensures { result ≡ c + 1 }
{
    c as u32 + 1
}

/// The connection has no transaction any more.
fn idle(session: &mut Session, closed: bool)
    ensures { Idles session.old session.new closed }
{
    session.phase = Phase::Idle;
    session.txn = TxnNo(0);
    session.opened = false;
    session.closed = closed;
    session.made.clear();
    session.order = None;
    session.plan = Plan::Nothing;
}

/// Puts the events of all grants that aren't given yet.
fn note_grants(locks: &mut LockTable, events: &mut Vec<Locked>, place: u64)
    requires { vec_len events.old + length (woken_of locks.old) ≤ vec_capacity events.old }
    ensures events { events.new.items ≡ events.old.items ++ noted place (woken_of locks.old) }
    ensures len { vec_len events.new ≡ vec_len events.old + length (woken_of locks.old) }
    ensures capacity { vec_capacity events.old ≤ vec_capacity events.new }
    ensures same { lock locks.new ≡ lock locks.old }
    ensures none { woken_of locks.new ≡ [] }
{
    'gives: while let Some((txn, name, mode)) = locks.woken() {
        put(
            events,
            Locked {
                place,
                event: LockEvent::Granted(txn, name, mode),
            },
        );
    }
}

/// Gives back all that a transaction has, and puts the events: its own, and the grants that follow. Room for them is there.
fn release(locks: &mut LockTable, events: &mut Vec<Locked>, place: u64, txn: TxnNo)
    requires none { woken_of locks.old ≡ [] }
    requires room { vec_len events.old + 1 + length (queue (lock locks.old)) ≤ vec_capacity events.old }
    ensures given { Released locks.old locks.new events.old events.new place txn }
    ensures none { woken_of locks.new ≡ [] }
{
    locks.release_all(txn);
    put(
        events,
        Locked {
            place,
            event: LockEvent::ReleasedAll(txn),
        },
    );
    note_grants(locks, events, place);
}

/// A statement was told in this step, unless the step stopped.
fn tells(step: Step, told: bool) -> Step
    requires { IsNoted Rollback step }
    ensures told { IsTold step result }
    ensures done { gets_done result ≡ true }
{
    match step {
        Step::Went(event) => if told {
            Step::Answered
        } else {
            Step::Went(event)
        },
        other => other,
    }
}

/// A statement has its answer or its refusal; it is told now where its transaction stays open, else at its end.
pub(crate) fn finished(phase: Phase) -> Step
    ensures finished { IsFinished result }
    ensures done { gets_done result ≡ true }
{
    match phase {
        Phase::Resting => Step::Answered,
        _ => Step::Went(Event::Finish),
    }
}

impl<S: RowStore + Drop> Engine<S> {
    /// Over a store without rows: a connection for each script, none of which has begun a statement.
    pub fn open(
        alloc: Global,
        store: S,
        scripts: &mut VecDeque<Txt>,
    ) -> Result<Engine<S>, AllocError>
        requires empty { IsEmptyStore (S.view store) }
        requires few { length scripts.old.items < (S.view store).limit }
        requires short { Each (λ s. length s < 2 ^ 32) scripts.old.items }
        ensures { IfOk result (λ e. (e.0 ≡ scripts.old.items) × (e.1 ≡ []) × (e.2 ≡ []) × (e.3 ≡ store) × (e.4 ≡ None)) }
    {
        let sessions = connections(alloc, scripts)?;
        Ok(Engine {
            alloc,
            store,
            entries: Vec::new(alloc),
            events: Vec::new(alloc),
            locks: LockTable::new(alloc),
            tables: IndexMap::new(alloc),
            sessions,
            last: 0,
            owed: 0,
            owed_events: 0,
            stop: None,
        })
    }
}

impl<S: RowStore> Engine<S> {
    /// The journal is legal for the scripts, the store is sound, and each script has a connection, at any time.
    pub fn law(&self)
        ensures legal { IsLegal no_tables self.now.0 self.now.1 self.now.2 }
        ensures sound { IsSound (S.view self.now.3) }
        ensures all { length self.now.5 ≡ length self.now.0 }
    {
        let _ = self.sessions.is_empty();
        self.store.law();
    }

    /// Keeps the store's first failure, and answers it; where there is none, the step went.
    pub(crate) fn note(&mut self, answer: Result<(), StoreAnswer>, event: Event) -> Step
        requires kept { IfErr answer (KeepsFor (S.view self.old.3)) }
        requires done { gets_done (Step.Went event) ≡ true }
        ensures same { self.new.0 ≡ self.old.0 }
        ensures entries { self.new.1 ≡ self.old.1 }
        ensures events { self.new.2 ≡ self.old.2 }
        ensures store { self.new.3 ≡ self.old.3 }
        ensures nexts { self.new.5 ≡ self.old.5 }
        ensures stops { self.new.4 ≡ stop_after result self.old.4 }
        ensures cause { HasStopped result (S.view self.new.3) }
        ensures noted { IsNoted event result }
        ensures done { gets_done result ≡ true }
    {
        match answer {
            Err(StoreAnswer::Failed) => {
                let faults = self.store.faults();
                self.stop_for(Stop::Fault(faults))
            }
            Err(StoreAnswer::Damaged(damage)) => self.stop_for(Stop::Damage(damage)),
            _ => Step::Went(event),
        }
    }

    /// Stops for an answer that the store keeps.
    pub(crate) fn halt(&mut self, answer: StoreAnswer) -> Step
        requires { HaltsFor (S.view self.old.3) answer }
        ensures same { self.new.0 ≡ self.old.0 }
        ensures entries { self.new.1 ≡ self.old.1 }
        ensures events { self.new.2 ≡ self.old.2 }
        ensures store { self.new.3 ≡ self.old.3 }
        ensures nexts { self.new.5 ≡ self.old.5 }
        ensures stops { self.new.4 ≡ stop_after result self.old.4 }
        ensures cause { HasStopped result (S.view self.new.3) }
        ensures halted { IsHalt result }
    {
        match answer {
            StoreAnswer::Failed => {
                let faults = self.store.faults();
                self.stop_for(Stop::Fault(faults))
            }
            StoreAnswer::Damaged(damage) => self.stop_for(Stop::Damage(damage)),
            StoreAnswer::Full(_) => unreachable!(),
            StoreAnswer::Memory => unreachable!(),
        }
    }

    /// The same of a change, whose statement is to be refused by now.
    pub(crate) fn note_change(&mut self, answer: StoreAnswer) -> Step
        requires { KeepsFor (S.view self.old.3) answer }
        ensures same { self.new.0 ≡ self.old.0 }
        ensures entries { self.new.1 ≡ self.old.1 }
        ensures events { self.new.2 ≡ self.old.2 }
        ensures store { self.new.3 ≡ self.old.3 }
        ensures nexts { self.new.5 ≡ self.old.5 }
        ensures stops { self.new.4 ≡ stop_after result self.old.4 }
        ensures cause { HasStopped result (S.view self.new.3) }
        ensures noted { IsNoted Change result }
        ensures done { gets_done result ≡ true }
    {
        match answer {
            StoreAnswer::Memory => Step::Went(Event::Change),
            other => self.note(Err(other), Event::Change),
        }
    }

    fn stop_for(&mut self, stop: Stop) -> Step
        ensures same { self.new.0 ≡ self.old.0 }
        ensures entries { self.new.1 ≡ self.old.1 }
        ensures events { self.new.2 ≡ self.old.2 }
        ensures store { self.new.3 ≡ self.old.3 }
        ensures nexts { self.new.5 ≡ self.old.5 }
        ensures stops { self.new.4 ≡ Some stop }
        ensures is { result ≡ Step.Stopped stop }
    {
        self.stop = Some(stop);
        Step::Stopped(stop)
    }

    /// The commit record: from here on the commit stands, and is not durable yet.
    #[tactic(auto, using(crate::proofs::KeptLemmas::kept_scripts, crate::proofs::KeptLemmas::grows_noted, crate::proofs::KeptLemmas::own_conn, crate::proofs::KeptLemmas::keeps_in, crate::proofs::KeptLemmas::goes_noted, crate::proofs::PaceLemmas::paces_put, crate::proofs::PaceLemmas::why_done, crate::proofs::PaceLemmas::acts_still))]
    pub(crate) fn append(&mut self, c: usize) -> Step
        requires here { next_at self.old.5 c ≡ Close Append }
        ensures same { self.new.0 ≡ self.old.0 }
        ensures grows { Grows (c + 1) result self.old.1 self.new.1 }
        ensures stops { self.new.4 ≡ stop_after result self.old.4 }
        ensures cause { HasStopped result (S.view self.new.3) }
        ensures goes { NotEnded result }
        ensures paces { Paces c result self.old.5 self.new.5 self.old.1 self.new.1 (S.view self.old.3) (S.view self.new.3) }
        ensures why { HasWhy (c + 1) result self.new.1 self.new.2 (S.view self.old.3) }
    {
        if c >= self.sessions.len() {
            unreachable!()
        }
        let session = &mut self.sessions[c];
        let Phase::Committing = session.phase else {
            unreachable!()
        };
        let answer = self.store.append_commit(session.txn);
        put(&mut self.entries, Entry::Committed(session.txn));
        self.owed -= session.made.len() + 1;
        session.made.clear();
        session.opened = false;
        session.phase = Phase::Forcing;
        self.note(answer, Event::Append)
    }

    /// The commit is made durable.
    #[tactic(auto, using(crate::proofs::KeptLemmas::kept_scripts, crate::proofs::KeptLemmas::grows_none, crate::proofs::KeptLemmas::grows_halted, crate::proofs::KeptLemmas::halt_goes, crate::proofs::KeptLemmas::halts_for, crate::proofs::PaceLemmas::paces_later, crate::proofs::PaceLemmas::paces_kept, crate::proofs::PaceLemmas::done_halted, crate::proofs::PaceLemmas::claims_halted, crate::proofs::PaceLemmas::why_done, crate::proofs::PaceLemmas::acts_still))]
    pub(crate) fn force(&mut self, c: usize) -> Step
        requires here { next_at self.old.5 c ≡ Close Force }
        ensures same { self.new.0 ≡ self.old.0 }
        ensures grows { Grows (c + 1) result self.old.1 self.new.1 }
        ensures stops { self.new.4 ≡ stop_after result self.old.4 }
        ensures cause { HasStopped result (S.view self.new.3) }
        ensures goes { NotEnded result }
        ensures paces { Paces c result self.old.5 self.new.5 self.old.1 self.new.1 (S.view self.old.3) (S.view self.new.3) }
        ensures why { HasWhy (c + 1) result self.new.1 self.new.2 (S.view self.old.3) }
    {
        if c >= self.sessions.len() {
            unreachable!()
        }
        let Phase::Forcing = self.sessions[c].phase else {
            unreachable!()
        };
        match self.store.force() {
            Ok(()) => {
                let session = &mut self.sessions[c];
                session.phase = Phase::Acknowledging;
                Step::Went(Event::Force)
            }
            Err(answer) => self.halt(answer),
        }
    }

    /// The commit is durable: all locks go, and the connection may be told.
    #[tactic(auto, using(crate::proofs::KeptLemmas::kept_scripts, crate::proofs::KeptLemmas::grows_one, crate::proofs::KeptLemmas::own_conn, crate::proofs::PaceLemmas::paces_put, crate::proofs::PaceLemmas::why_done, crate::proofs::PaceLemmas::acts_none))]
    pub(crate) fn acknowledge(&mut self, c: usize) -> Step
        requires here { next_at self.old.5 c ≡ Close Acknowledge }
        ensures same { self.new.0 ≡ self.old.0 }
        ensures grows { Grows (c + 1) result self.old.1 self.new.1 }
        ensures stops { self.new.4 ≡ stop_after result self.old.4 }
        ensures cause { HasStopped result (S.view self.new.3) }
        ensures goes { NotEnded result }
        ensures paces { Paces c result self.old.5 self.new.5 self.old.1 self.new.1 (S.view self.old.3) (S.view self.new.3) }
        ensures why { HasWhy (c + 1) result self.new.1 self.new.2 (S.view self.old.3) }
    {
        if c >= self.sessions.len() {
            unreachable!()
        }
        let session = &mut self.sessions[c];
        let Phase::Acknowledging = session.phase else {
            unreachable!()
        };
        let txn = session.txn;
        put(&mut self.entries, Entry::Acknowledged(txn));
        self.owed -= session.made.len() + 1;
        self.owed_events -= 1;
        idle(session, session.closed);
        release(
            &mut self.locks,
            &mut self.events,
            self.entries.len() as u64,
            txn,
        );
        Step::Answered
    }

    /// A change of a transaction that leaves is taken back; where none is left, the transaction ends.
    #[tactic(auto, using(crate::proofs::KeptLemmas::kept_scripts, crate::proofs::KeptLemmas::grows_one, crate::proofs::KeptLemmas::grows_none, crate::proofs::KeptLemmas::grows_told, crate::proofs::KeptLemmas::grows_halted, crate::proofs::KeptLemmas::halt_goes, crate::proofs::KeptLemmas::halts_for, crate::proofs::KeptLemmas::own_conn, crate::proofs::KeptLemmas::stops_told, crate::proofs::KeptLemmas::cause_told, crate::proofs::KeptLemmas::goes_told, crate::proofs::KeptLemmas::keeps_in, crate::proofs::KeptLemmas::keeps_for, crate::proofs::PaceLemmas::paces_put, crate::proofs::PaceLemmas::paces_undid, crate::proofs::PaceLemmas::paces_kept, crate::proofs::PaceLemmas::done_halted, crate::proofs::PaceLemmas::claims_halted, crate::proofs::PaceLemmas::why_done, crate::proofs::PaceLemmas::acts_frame, crate::proofs::PaceLemmas::acts_then, crate::proofs::PaceLemmas::paces_blocked, crate::proofs::PaceLemmas::acts_bare, crate::proofs::PaceLemmas::paces_on, crate::proofs::PaceLemmas::why_held))]
    pub(crate) fn leave(&mut self, c: usize) -> Step
        requires here { next_at self.old.5 c ≡ Close Leave }
        ensures same { self.new.0 ≡ self.old.0 }
        ensures grows { Grows (c + 1) result self.old.1 self.new.1 }
        ensures stops { self.new.4 ≡ stop_after result self.old.4 }
        ensures cause { HasStopped result (S.view self.new.3) }
        ensures goes { NotEnded result }
        ensures paces { Paces c result self.old.5 self.new.5 self.old.1 self.new.1 (S.view self.old.3) (S.view self.new.3) }
        ensures why { HasWhy (c + 1) result self.new.1 self.new.2 (S.view self.old.3) }
    {
        if c >= self.sessions.len() {
            unreachable!()
        }
        self.store.law();
        let actor = actor_of(c);
        let session = &mut self.sessions[c];
        let Phase::Leaving = session.phase else {
            unreachable!()
        };
        let true = session.opened else { unreachable!() };
        let txn = session.txn;
        match self.store.undo_one(actor, txn, 0) {
            Ok(Undo::Undid { table, rid: _rid }) => {
                if let Some(did) = session.made.pop() {
                    put(&mut self.entries, Entry::Undone { txn, did });
                    self.owed -= 1;
                    unlist(&mut self.tables, table);
                }
                Step::Went(Event::Undo)
            }
            Ok(Undo::Done) => {
                let answer = self.store.rolled_back(txn);
                put(&mut self.entries, Entry::RolledBack(txn));
                self.owed -= session.made.len() + 1;
                self.owed_events -= 1;
                let told = !session.closed;
                idle(session, session.closed);
                let place = self.entries.len() as u64;
                release(&mut self.locks, &mut self.events, place, txn);
                tells(self.note(answer, Event::Rollback), told)
            }
            Ok(Undo::UndidContainer) => Step::Went(Event::Undo),
            Ok(Undo::Onward) => Step::Went(Event::Fix),
            Ok(Undo::Held(b)) => {
                self.store.let_go(actor);
                Step::Blocked(Why::Latch(b))
            }
            Err(answer) => self.halt(answer),
        }
    }

    /// A transaction ends that the store never had.
    #[tactic(auto, using(crate::proofs::KeptLemmas::kept_scripts, crate::proofs::KeptLemmas::grows_told, crate::proofs::KeptLemmas::own_conn, crate::proofs::KeptLemmas::stops_told, crate::proofs::KeptLemmas::cause_told, crate::proofs::KeptLemmas::goes_told, crate::proofs::PaceLemmas::paces_put, crate::proofs::PaceLemmas::why_done, crate::proofs::PaceLemmas::acts_none))]
    pub(crate) fn vanish(&mut self, c: usize) -> Step
        requires here { next_at self.old.5 c ≡ Close Vanish }
        ensures same { self.new.0 ≡ self.old.0 }
        ensures grows { Grows (c + 1) result self.old.1 self.new.1 }
        ensures stops { self.new.4 ≡ stop_after result self.old.4 }
        ensures cause { HasStopped result (S.view self.new.3) }
        ensures goes { NotEnded result }
        ensures paces { Paces c result self.old.5 self.new.5 self.old.1 self.new.1 (S.view self.old.3) (S.view self.new.3) }
        ensures why { HasWhy (c + 1) result self.new.1 self.new.2 (S.view self.old.3) }
    {
        if c >= self.sessions.len() {
            unreachable!()
        }
        let session = &mut self.sessions[c];
        let Phase::Leaving = session.phase else {
            unreachable!()
        };
        let false = session.opened else {
            unreachable!()
        };
        let txn = session.txn;
        put(&mut self.entries, Entry::RolledBack(txn));
        self.owed -= session.made.len() + 1;
        self.owed_events -= 1;
        let told = !session.closed;
        idle(session, session.closed);
        let place = self.entries.len() as u64;
        release(&mut self.locks, &mut self.events, place, txn);
        tells(Step::Went(Event::Rollback), told)
    }

    /// The script has ended in an open transaction: it is to be taken back.
    #[tactic(auto, using(crate::proofs::KeptLemmas::kept_scripts))]
    pub(crate) fn give_up(&mut self, c: usize)
        requires here { next_at self.old.5 c ≡ Close GiveUp }
        ensures same { self.new.0 ≡ self.old.0 }
        ensures entries { self.new.1 ≡ self.old.1 }
        ensures store { self.new.3 ≡ self.old.3 }
        ensures stop { self.new.4 ≡ self.old.4 }
        ensures leaves { self.new.5 ≡ slice_set self.old.5 c (Close Leave) }
    {
        if c >= self.sessions.len() {
            unreachable!()
        }
        let session = &mut self.sessions[c];
        let Phase::Resting = session.phase else {
            unreachable!()
        };
        session.phase = Phase::Leaving;
        session.closed = true;
    }

    /// A change of a refused statement is taken back; where none is left, the refusal is put.
    #[tactic(auto, using(crate::proofs::KeptLemmas::kept_scripts, crate::proofs::KeptLemmas::grows_one, crate::proofs::KeptLemmas::grows_none, crate::proofs::KeptLemmas::grows_halted, crate::proofs::KeptLemmas::halt_goes, crate::proofs::KeptLemmas::halts_for, crate::proofs::KeptLemmas::own_conn, crate::proofs::KeptLemmas::grows_finished, crate::proofs::KeptLemmas::stops_finished, crate::proofs::KeptLemmas::cause_finished, crate::proofs::KeptLemmas::goes_finished, crate::proofs::KeptLemmas::keeps_for, crate::proofs::PaceLemmas::paces_put, crate::proofs::PaceLemmas::paces_undid, crate::proofs::PaceLemmas::paces_kept, crate::proofs::PaceLemmas::done_halted, crate::proofs::PaceLemmas::claims_halted, crate::proofs::PaceLemmas::why_done, crate::proofs::PaceLemmas::acts_frame, crate::proofs::PaceLemmas::paces_blocked, crate::proofs::PaceLemmas::acts_bare, crate::proofs::PaceLemmas::paces_on, crate::proofs::PaceLemmas::why_held))]
    pub(crate) fn refuse(&mut self, c: usize) -> Step
        requires here { next_at self.old.5 c ≡ ToRefuse }
        ensures same { self.new.0 ≡ self.old.0 }
        ensures grows { Grows (c + 1) result self.old.1 self.new.1 }
        ensures stops { self.new.4 ≡ stop_after result self.old.4 }
        ensures cause { HasStopped result (S.view self.new.3) }
        ensures goes { NotEnded result }
        ensures paces { Paces c result self.old.5 self.new.5 self.old.1 self.new.1 (S.view self.old.3) (S.view self.new.3) }
        ensures why { HasWhy (c + 1) result self.new.1 self.new.2 (S.view self.old.3) }
    {
        if c >= self.sessions.len() {
            unreachable!()
        }
        self.store.law();
        let actor = actor_of(c);
        let session = &mut self.sessions[c];
        let Phase::Refusing = session.phase else {
            unreachable!()
        };
        let txn = session.txn;
        match self.store.undo_one(actor, txn, session.mark) {
            Ok(Undo::Undid { table, rid: _rid }) => {
                if let Some(did) = session.made.pop() {
                    put(&mut self.entries, Entry::Undone { txn, did });
                    self.owed -= 1;
                    unlist(&mut self.tables, table);
                }
                Step::Went(Event::Undo)
            }
            Ok(Undo::Done) => {
                let planned = mem::replace(&mut session.plan, Plan::Nothing);
                match planned {
                    Plan::Refuse(why) => {
                        session.phase = phase_refused(&why, session.automatic, session.first);
                        put(&mut self.entries, Entry::Refused { txn, why });
                        self.owed -= 1;
                        finished(session.phase)
                    }
                    _ => unreachable!(),
                }
            }
            Ok(Undo::UndidContainer) => Step::Went(Event::Undo),
            Ok(Undo::Onward) => Step::Went(Event::Fix),
            Ok(Undo::Held(b)) => {
                self.store.let_go(actor);
                Step::Blocked(Why::Latch(b))
            }
            Err(answer) => self.halt(answer),
        }
    }

    /// A command is answered: it ends its transaction, or sets its connection.
    #[tactic(auto, using(crate::proofs::KeptLemmas::kept_scripts, crate::proofs::KeptLemmas::grows_finished, crate::proofs::KeptLemmas::own_conn, crate::proofs::KeptLemmas::stops_finished, crate::proofs::KeptLemmas::cause_finished, crate::proofs::KeptLemmas::goes_finished, crate::proofs::PaceLemmas::paces_put, crate::proofs::PaceLemmas::why_done, crate::proofs::PaceLemmas::acts_none))]
    pub(crate) fn command(&mut self, c: usize) -> Step
        requires here { next_at self.old.5 c ≡ ToWork ToCommand }
        ensures same { self.new.0 ≡ self.old.0 }
        ensures grows { Grows (c + 1) result self.old.1 self.new.1 }
        ensures stops { self.new.4 ≡ stop_after result self.old.4 }
        ensures cause { HasStopped result (S.view self.new.3) }
        ensures goes { NotEnded result }
        ensures paces { Paces c result self.old.5 self.new.5 self.old.1 self.new.1 (S.view self.old.3) (S.view self.new.3) }
        ensures why { HasWhy (c + 1) result self.new.1 self.new.2 (S.view self.old.3) }
    {
        if c >= self.sessions.len() {
            unreachable!()
        }
        let place = self.entries.len() as u64;
        let session = &mut self.sessions[c];
        let Phase::Working = session.phase else {
            unreachable!()
        };
        let Plan::Command(command) = session.plan else {
            unreachable!()
        };
        put(
            &mut self.entries,
            Entry::Answered {
                txn: session.txn,
                answer: told(command),
                joined: Seq::new(self.alloc),
                from: place,
                to: place,
            },
        );
        session.phase = phase_answered(command, session.automatic, session.first);
        self.owed -= ends(Phase::Working) - ends(session.phase);
        session.level = level_after(command, session.level);
        session.automatic = automatic_after(command, session.automatic);
        session.plan = Plan::Nothing;
        finished(session.phase)
    }
}
