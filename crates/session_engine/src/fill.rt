//! The steps of an INSERT: it makes room for its next row, puts it, and is answered behind the last.

ghost use Rattle.std.specs.Prelude.{◌≡◌, ◌+◌};
ghost use Rattle.session_engine.specs.Stepped.{Grows, HasStopped, NotEnded, stop_after};
ghost use Rattle.session_engine.specs.Blocking.{HasWhy};
ghost use Rattle.session_engine.specs.Pacing.{Paces, next_at};
ghost use Rattle.session_engine.specs.declared.next.Next.TheVariants.{Work as ToWork};
ghost use Rattle.session_engine.specs.declared.next.Work.TheVariants.{Count, Fill as ToFill, Widen};

use crate::asking::starve;
use crate::engine::{Engine, actor_of, finished, put};
use crate::filling::{
    Roomy, inserted, next_row, room_for_row, room_to_change, run_out, told_count,
};
use crate::follows::{ends, phase_done};
use crate::session::{Phase, Plan};
use crate::step::{Event, Step, Why};
use dby_types::state::SqlState;
use store_api::answers::StoreAnswer;
use store_api::store::RowStore;

impl<S: RowStore> Engine<S> {
    /// An INSERT makes room for its next row. Where no page is left it is refused.
    #[tactic(auto, using(crate::proofs::KeptLemmas::kept_scripts, crate::proofs::KeptLemmas::grows_none, crate::proofs::KeptLemmas::grows_halted, crate::proofs::KeptLemmas::halt_goes, crate::proofs::KeptLemmas::halts_but, crate::proofs::PaceLemmas::paces_kept, crate::proofs::PaceLemmas::done_halted, crate::proofs::PaceLemmas::claims_halted, crate::proofs::PaceLemmas::why_done, crate::proofs::PaceLemmas::acts_same, crate::proofs::PaceLemmas::paces_blocked, crate::proofs::PaceLemmas::acts_bare, crate::proofs::PaceLemmas::paces_refused, crate::proofs::PaceLemmas::paces_came, crate::proofs::PaceLemmas::roomy_near, crate::proofs::PaceLemmas::paces_on, crate::proofs::PaceLemmas::replanned, crate::proofs::PaceLemmas::why_withheld))]
    pub(crate) fn widen(&mut self, c: usize) -> Step
        requires here { next_at self.old.5 c ≡ ToWork Widen }
        ensures same { self.new.0 ≡ self.old.0 }
        ensures grows { Grows (c + 1) result self.old.1 self.new.1 }
        ensures stops { self.new.4 ≡ stop_after result self.old.4 }
        ensures cause { HasStopped result (S.view self.new.3) }
        ensures goes { NotEnded result }
        ensures paces { Paces c result self.old.5 self.new.5 self.old.1 self.new.1 (S.view self.old.3) (S.view self.new.3) }
        ensures why { HasWhy (c + 1) result self.new.1 self.new.2 (S.view self.old.3) }
    {
        if c >= self.sessions.len() {
            unreachable!()
        }
        self.store.law();
        let actor = actor_of(c);
        let session = &mut self.sessions[c];
        let Phase::Working = session.phase else {
            unreachable!()
        };
        let Plan::Insert(fill) = &mut session.plan else {
            unreachable!()
        };
        let false = fill.has_room else { unreachable!() };
        match room_for_row(&mut self.store, actor, session.txn, fill.number) {
            Ok(Roomy::Made) => {
                fill.has_room = true;
                Step::Went(Event::Fix)
            }
            Ok(Roomy::Onward) => Step::Went(Event::Fix),
            Ok(Roomy::Held(b)) => {
                self.store.let_go(actor);
                Step::Blocked(Why::Latch(b))
            }
            Ok(Roomy::NoPages) => {
                run_out(self.alloc, session, SqlState::PagesSpent);
                self.owed -= 1;
                Step::Went(Event::Fix)
            }
            Ok(Roomy::NoLog) => {
                run_out(self.alloc, session, SqlState::LogSpent);
                self.owed -= 1;
                Step::Went(Event::Fix)
            }
            Err(StoreAnswer::Memory) => {
                starve(session);
                self.owed -= 1;
                Step::Went(Event::Fix)
            }
            Err(answer) => self.halt(answer),
        }
    }

    /// An INSERT puts its next row into the room that it has made.
    #[tactic(auto, using(crate::proofs::KeptLemmas::kept_scripts, crate::proofs::KeptLemmas::grows_one, crate::proofs::KeptLemmas::own_conn, crate::proofs::KeptLemmas::grows_nothing, crate::proofs::KeptLemmas::grows_none, crate::proofs::KeptLemmas::keeps_for, crate::proofs::KeptLemmas::goes_noted, crate::proofs::PaceLemmas::paces_put, crate::proofs::PaceLemmas::paces_gives, crate::proofs::PaceLemmas::why_done, crate::proofs::PaceLemmas::acts_none, crate::proofs::PaceLemmas::acts_frame))]
    pub(crate) fn fill(&mut self, c: usize) -> Step
        requires here { next_at self.old.5 c ≡ ToWork ToFill }
        ensures same { self.new.0 ≡ self.old.0 }
        ensures grows { Grows (c + 1) result self.old.1 self.new.1 }
        ensures stops { self.new.4 ≡ stop_after result self.old.4 }
        ensures cause { HasStopped result (S.view self.new.3) }
        ensures goes { NotEnded result }
        ensures paces { Paces c result self.old.5 self.new.5 self.old.1 self.new.1 (S.view self.old.3) (S.view self.new.3) }
        ensures why { HasWhy (c + 1) result self.new.1 self.new.2 (S.view self.old.3) }
    {
        if c >= self.sessions.len() {
            unreachable!()
        }
        self.store.law();
        let actor = actor_of(c);
        let did = self.entries.len() as u64;
        let session = &mut self.sessions[c];
        let Phase::Working = session.phase else {
            unreachable!()
        };
        let Some((number, row)) = next_row(session) else {
            unreachable!()
        };
        let Ok(()) = room_to_change(&mut self.entries, &mut session.made, self.owed) else {
            drop(row);
            starve(session);
            self.owed -= 1;
            return Step::Went(Event::Change);
        };
        match self.store.put_row(actor, session.txn, number, &row) {
            Ok(rid) => {
                put(&mut session.made, did);
                put(&mut self.entries, inserted(session.txn, number, rid, row));
                self.owed += 1;
                Step::Went(Event::Change)
            }
            Err(answer) => {
                drop(row);
                starve(session);
                self.owed -= 1;
                self.note_change(answer)
            }
        }
    }

    /// An INSERT has put its last row, and is answered by their number.
    #[tactic(auto, using(crate::proofs::KeptLemmas::kept_scripts, crate::proofs::KeptLemmas::grows_finished, crate::proofs::KeptLemmas::own_conn, crate::proofs::KeptLemmas::stops_finished, crate::proofs::KeptLemmas::cause_finished, crate::proofs::KeptLemmas::goes_finished, crate::proofs::PaceLemmas::paces_put, crate::proofs::PaceLemmas::why_done, crate::proofs::PaceLemmas::acts_frame))]
    pub(crate) fn count(&mut self, c: usize) -> Step
        requires here { next_at self.old.5 c ≡ ToWork Count }
        ensures same { self.new.0 ≡ self.old.0 }
        ensures grows { Grows (c + 1) result self.old.1 self.new.1 }
        ensures stops { self.new.4 ≡ stop_after result self.old.4 }
        ensures cause { HasStopped result (S.view self.new.3) }
        ensures goes { NotEnded result }
        ensures paces { Paces c result self.old.5 self.new.5 self.old.1 self.new.1 (S.view self.old.3) (S.view self.new.3) }
        ensures why { HasWhy (c + 1) result self.new.1 self.new.2 (S.view self.old.3) }
    {
        if c >= self.sessions.len() {
            unreachable!()
        }
        self.store.law();
        let actor = actor_of(c);
        let place = self.entries.len() as u64;
        let session = &mut self.sessions[c];
        let Phase::Working = session.phase else {
            unreachable!()
        };
        let Plan::Insert(fill) = &session.plan else {
            unreachable!()
        };
        let left = fill.rows.len();
        if left > 0 {
            unreachable!()
        }
        let count = fill.count;
        self.store.let_go(actor);
        session.plan = Plan::Nothing;
        put(
            &mut self.entries,
            told_count(self.alloc, session.txn, place, count),
        );
        session.phase = phase_done(session.automatic);
        self.owed -= ends(Phase::Working) - ends(session.phase);
        finished(session.phase)
    }
}
