//! The steps of a CREATE TABLE: it makes its container, makes room for each of its catalog rows and puts it, and is answered behind the last.

ghost use Rattle.std.specs.Prelude.{◌≡◌, ◌+◌};
ghost use Rattle.session_engine.specs.Stepped.{Grows, HasStopped, NotEnded, stop_after};
ghost use Rattle.session_engine.specs.Blocking.{HasWhy};
ghost use Rattle.session_engine.specs.Pacing.{Paces, next_at};
ghost use Rattle.session_engine.specs.declared.next.Next.TheVariants.{Work as ToWork};
ghost use Rattle.session_engine.specs.declared.next.Work.TheVariants.{Build as ToBuild};
ghost use Rattle.session_engine.specs.declared.next.Build.TheVariants.{Done, Lay, Spread, List as ToList, Make as ToMake};

use crate::asking::starve;
use crate::creating::{Contained, new_heap, take_unmade};
use crate::dictionary::enlist;
use crate::engine::{Engine, actor_of, finished, put};
use crate::filling::{Roomy, inserted, room_for_row, run_out};
use crate::follows::{ends, phase_done};
use crate::listing::{
    Listing, OF_COLUMNS, OF_TABLES, column_to_put, is_listed, ready, ready_to_list, table_of_next,
    table_to_put, told_done,
};
use crate::session::{Phase, Plan};
use crate::step::{Event, Step, Why};
use dby_types::state::SqlState;
use store_api::answers::StoreAnswer;
use store_api::store::RowStore;

impl<S: RowStore> Engine<S> {
    /// A CREATE TABLE makes its container, whose number is the table's. Where none is left it is refused.
    #[tactic(auto, using(crate::proofs::KeptLemmas::kept_scripts, crate::proofs::KeptLemmas::grows_none, crate::proofs::KeptLemmas::grows_halted, crate::proofs::KeptLemmas::halt_goes, crate::proofs::KeptLemmas::halts_but, crate::proofs::PaceLemmas::paces_later, crate::proofs::PaceLemmas::paces_gives, crate::proofs::PaceLemmas::paces_kept, crate::proofs::PaceLemmas::done_halted, crate::proofs::PaceLemmas::claims_halted, crate::proofs::PaceLemmas::why_done, crate::proofs::PaceLemmas::acts_same, crate::proofs::PaceLemmas::paces_on, crate::proofs::PaceLemmas::replanned))]
    pub(crate) fn make(&mut self, c: usize) -> Step
        requires here { next_at self.old.5 c ≡ ToWork (ToBuild ToMake) }
        ensures same { self.new.0 ≡ self.old.0 }
        ensures grows { Grows (c + 1) result self.old.1 self.new.1 }
        ensures stops { self.new.4 ≡ stop_after result self.old.4 }
        ensures cause { HasStopped result (S.view self.new.3) }
        ensures goes { NotEnded result }
        ensures paces { Paces c result self.old.5 self.new.5 self.old.1 self.new.1 (S.view self.old.3) (S.view self.new.3) }
        ensures why { HasWhy (c + 1) result self.new.1 self.new.2 (S.view self.old.3) }
    {
        if c >= self.sessions.len() {
            unreachable!()
        }
        self.store.law();
        let actor = actor_of(c);
        let session = &mut self.sessions[c];
        let Phase::Working = session.phase else {
            unreachable!()
        };
        let Some(mut make) = take_unmade(session) else {
            unreachable!()
        };
        match new_heap(&mut self.store, actor, session.txn, &mut make) {
            Ok(Contained::Made) => {
                session.plan = Plan::Create(make);
                Step::Went(Event::Change)
            }
            Ok(Contained::Onward) => {
                session.plan = Plan::Create(make);
                Step::Went(Event::Fix)
            }
            Ok(Contained::NoPages) => {
                drop(make);
                run_out(self.alloc, session, SqlState::PagesSpent);
                self.owed -= 1;
                Step::Went(Event::Change)
            }
            Ok(Contained::NoLog) => {
                drop(make);
                run_out(self.alloc, session, SqlState::LogSpent);
                self.owed -= 1;
                Step::Went(Event::Change)
            }
            Err(StoreAnswer::Memory) => {
                drop(make);
                starve(session);
                self.owed -= 1;
                Step::Went(Event::Change)
            }
            Err(answer) => {
                session.plan = Plan::Create(make);
                self.halt(answer)
            }
        }
    }

    /// It makes room for its next catalog row. Where no page is left it is refused.
    #[tactic(auto, using(crate::proofs::KeptLemmas::kept_scripts, crate::proofs::KeptLemmas::grows_none, crate::proofs::KeptLemmas::grows_halted, crate::proofs::KeptLemmas::halt_goes, crate::proofs::KeptLemmas::halts_but, crate::proofs::PaceLemmas::paces_kept, crate::proofs::PaceLemmas::done_halted, crate::proofs::PaceLemmas::claims_halted, crate::proofs::PaceLemmas::why_done, crate::proofs::PaceLemmas::acts_same, crate::proofs::PaceLemmas::paces_blocked, crate::proofs::PaceLemmas::acts_bare, crate::proofs::PaceLemmas::paces_refused, crate::proofs::PaceLemmas::paces_came, crate::proofs::PaceLemmas::spread_near, crate::proofs::PaceLemmas::paces_on, crate::proofs::PaceLemmas::replanned, crate::proofs::PaceLemmas::why_withheld))]
    pub(crate) fn spread(&mut self, c: usize) -> Step
        requires here { next_at self.old.5 c ≡ ToWork (ToBuild Spread) }
        ensures same { self.new.0 ≡ self.old.0 }
        ensures grows { Grows (c + 1) result self.old.1 self.new.1 }
        ensures stops { self.new.4 ≡ stop_after result self.old.4 }
        ensures cause { HasStopped result (S.view self.new.3) }
        ensures goes { NotEnded result }
        ensures paces { Paces c result self.old.5 self.new.5 self.old.1 self.new.1 (S.view self.old.3) (S.view self.new.3) }
        ensures why { HasWhy (c + 1) result self.new.1 self.new.2 (S.view self.old.3) }
    {
        if c >= self.sessions.len() {
            unreachable!()
        }
        self.store.law();
        let actor = actor_of(c);
        let session = &mut self.sessions[c];
        let Phase::Working = session.phase else {
            unreachable!()
        };
        let Plan::Create(make) = &mut session.plan else {
            unreachable!()
        };
        let true = make.made else { unreachable!() };
        let false = make.has_room else { unreachable!() };
        match room_for_row(&mut self.store, actor, session.txn, table_of_next(make)) {
            Ok(Roomy::Made) => {
                make.has_room = true;
                Step::Went(Event::Fix)
            }
            Ok(Roomy::Onward) => Step::Went(Event::Fix),
            Ok(Roomy::Held(b)) => {
                self.store.let_go(actor);
                Step::Blocked(Why::Latch(b))
            }
            Ok(Roomy::NoPages) => {
                run_out(self.alloc, session, SqlState::PagesSpent);
                self.owed -= 1;
                Step::Went(Event::Fix)
            }
            Ok(Roomy::NoLog) => {
                run_out(self.alloc, session, SqlState::LogSpent);
                self.owed -= 1;
                Step::Went(Event::Fix)
            }
            Err(StoreAnswer::Memory) => {
                starve(session);
                self.owed -= 1;
                Step::Went(Event::Fix)
            }
            Err(answer) => self.halt(answer),
        }
    }

    /// It puts the row of its next column.
    #[tactic(auto, using(crate::proofs::KeptLemmas::kept_scripts, crate::proofs::KeptLemmas::grows_one, crate::proofs::KeptLemmas::own_conn, crate::proofs::KeptLemmas::grows_nothing, crate::proofs::KeptLemmas::grows_none, crate::proofs::KeptLemmas::keeps_for, crate::proofs::KeptLemmas::goes_noted, crate::proofs::PaceLemmas::paces_put, crate::proofs::PaceLemmas::paces_gives, crate::proofs::PaceLemmas::why_done, crate::proofs::PaceLemmas::acts_none, crate::proofs::PaceLemmas::acts_frame))]
    pub(crate) fn lay(&mut self, c: usize) -> Step
        requires here { next_at self.old.5 c ≡ ToWork (ToBuild Lay) }
        ensures same { self.new.0 ≡ self.old.0 }
        ensures grows { Grows (c + 1) result self.old.1 self.new.1 }
        ensures stops { self.new.4 ≡ stop_after result self.old.4 }
        ensures cause { HasStopped result (S.view self.new.3) }
        ensures goes { NotEnded result }
        ensures paces { Paces c result self.old.5 self.new.5 self.old.1 self.new.1 (S.view self.old.3) (S.view self.new.3) }
        ensures why { HasWhy (c + 1) result self.new.1 self.new.2 (S.view self.old.3) }
    {
        if c >= self.sessions.len() {
            unreachable!()
        }
        self.store.law();
        let actor = actor_of(c);
        let did = self.entries.len() as u64;
        let session = &mut self.sessions[c];
        let Phase::Working = session.phase else {
            unreachable!()
        };
        let Some(laid) = column_to_put(self.alloc, session) else {
            unreachable!()
        };
        let Ok(row) = ready(laid, &mut self.entries, &mut session.made, self.owed) else {
            starve(session);
            self.owed -= 1;
            return Step::Went(Event::Change);
        };
        match self.store.put_row(actor, session.txn, OF_COLUMNS, &row) {
            Ok(rid) => {
                put(&mut session.made, did);
                put(
                    &mut self.entries,
                    inserted(session.txn, OF_COLUMNS, rid, row),
                );
                self.owed += 1;
                Step::Went(Event::Change)
            }
            Err(answer) => {
                drop(row);
                starve(session);
                self.owed -= 1;
                self.note_change(answer)
            }
        }
    }

    /// It puts its own row, and stands in the dictionary from now on.
    #[tactic(auto, using(crate::proofs::KeptLemmas::kept_scripts, crate::proofs::KeptLemmas::grows_one, crate::proofs::KeptLemmas::own_conn, crate::proofs::KeptLemmas::grows_nothing, crate::proofs::KeptLemmas::grows_none, crate::proofs::KeptLemmas::keeps_for, crate::proofs::KeptLemmas::goes_noted, crate::proofs::PaceLemmas::paces_put, crate::proofs::PaceLemmas::paces_gives, crate::proofs::PaceLemmas::why_done, crate::proofs::PaceLemmas::acts_none, crate::proofs::PaceLemmas::acts_frame))]
    pub(crate) fn list(&mut self, c: usize) -> Step
        requires here { next_at self.old.5 c ≡ ToWork (ToBuild ToList) }
        ensures same { self.new.0 ≡ self.old.0 }
        ensures grows { Grows (c + 1) result self.old.1 self.new.1 }
        ensures stops { self.new.4 ≡ stop_after result self.old.4 }
        ensures cause { HasStopped result (S.view self.new.3) }
        ensures goes { NotEnded result }
        ensures paces { Paces c result self.old.5 self.new.5 self.old.1 self.new.1 (S.view self.old.3) (S.view self.new.3) }
        ensures why { HasWhy (c + 1) result self.new.1 self.new.2 (S.view self.old.3) }
    {
        if c >= self.sessions.len() {
            unreachable!()
        }
        self.store.law();
        let actor = actor_of(c);
        let did = self.entries.len() as u64;
        let session = &mut self.sessions[c];
        let Phase::Working = session.phase else {
            unreachable!()
        };
        let Some(listed) = table_to_put(self.alloc, session) else {
            unreachable!()
        };
        let roomy = ready_to_list(listed, &mut self.tables);
        let Ok(listing) = ready(roomy, &mut self.entries, &mut session.made, self.owed) else {
            starve(session);
            self.owed -= 1;
            return Step::Went(Event::Change);
        };
        let Listing { row, name, defined } = listing;
        match self.store.put_row(actor, session.txn, OF_TABLES, &row) {
            Ok(rid) => {
                put(&mut session.made, did);
                put(
                    &mut self.entries,
                    inserted(session.txn, OF_TABLES, rid, row),
                );
                self.owed += 1;
                enlist(&mut self.tables, name, defined);
                Step::Went(Event::Change)
            }
            Err(answer) => {
                drop(row);
                starve(session);
                self.owed -= 1;
                self.note_change(answer)
            }
        }
    }

    /// It has put all its rows, and is answered.
    #[tactic(auto, using(crate::proofs::KeptLemmas::kept_scripts, crate::proofs::KeptLemmas::grows_finished, crate::proofs::KeptLemmas::own_conn, crate::proofs::KeptLemmas::stops_finished, crate::proofs::KeptLemmas::cause_finished, crate::proofs::KeptLemmas::goes_finished, crate::proofs::PaceLemmas::paces_put, crate::proofs::PaceLemmas::why_done, crate::proofs::PaceLemmas::acts_frame))]
    pub(crate) fn done(&mut self, c: usize) -> Step
        requires here { next_at self.old.5 c ≡ ToWork (ToBuild Done) }
        ensures same { self.new.0 ≡ self.old.0 }
        ensures grows { Grows (c + 1) result self.old.1 self.new.1 }
        ensures stops { self.new.4 ≡ stop_after result self.old.4 }
        ensures cause { HasStopped result (S.view self.new.3) }
        ensures goes { NotEnded result }
        ensures paces { Paces c result self.old.5 self.new.5 self.old.1 self.new.1 (S.view self.old.3) (S.view self.new.3) }
        ensures why { HasWhy (c + 1) result self.new.1 self.new.2 (S.view self.old.3) }
    {
        if c >= self.sessions.len() {
            unreachable!()
        }
        self.store.law();
        let actor = actor_of(c);
        let place = self.entries.len() as u64;
        let session = &mut self.sessions[c];
        let Phase::Working = session.phase else {
            unreachable!()
        };
        let Plan::Create(make) = &session.plan else {
            unreachable!()
        };
        let true = is_listed(make) else {
            unreachable!()
        };
        self.store.let_go(actor);
        session.plan = Plan::Nothing;
        put(&mut self.entries, told_done(self.alloc, session.txn, place));
        session.phase = phase_done(session.automatic);
        self.owed -= ends(Phase::Working) - ends(session.phase);
        finished(session.phase)
    }
}
