//! The steps of a query: it comes to its next row, reads it, and is answered at the end.

ghost use Rattle.std.specs.Prelude.{◌≡◌, ◌+◌};
ghost use Rattle.session_engine.specs.Stepped.{Grows, HasStopped, NotEnded, stop_after};
ghost use Rattle.session_engine.specs.Blocking.{HasWhy};
ghost use Rattle.session_engine.specs.Pacing.{Paces, next_at};
ghost use Rattle.session_engine.specs.declared.next.Next.TheVariants.{Work as ToWork};
ghost use Rattle.session_engine.specs.declared.next.Work.TheVariants.{Answer, Read, Seek};

use crate::asking::starve;
use crate::engine::{Engine, actor_of, finished, put};
use crate::follows::{ends, phase_done};
use crate::scanning::{Saw, Sought, pass, read_row, seek_row, take, told_rows};
use crate::session::{Phase, Plan, Where};
use crate::step::{Event, Step, Why};
use dby_types::number::RowId;
use std::mem;
use store_api::answers::StoreAnswer;
use store_api::store::RowStore;

impl<S: RowStore> Engine<S> {
    /// A query comes to the first row behind the one that it has passed last, or to the end.
    #[tactic(auto, using(crate::proofs::KeptLemmas::kept_scripts, crate::proofs::KeptLemmas::grows_none, crate::proofs::KeptLemmas::grows_halted, crate::proofs::KeptLemmas::halt_goes, crate::proofs::KeptLemmas::halts_but, crate::proofs::PaceLemmas::paces_kept, crate::proofs::PaceLemmas::done_halted, crate::proofs::PaceLemmas::claims_halted, crate::proofs::PaceLemmas::why_done, crate::proofs::PaceLemmas::acts_frame, crate::proofs::PaceLemmas::paces_blocked, crate::proofs::PaceLemmas::acts_bare, crate::proofs::PaceLemmas::paces_refused, crate::proofs::PaceLemmas::paces_came, crate::proofs::PaceLemmas::came_near, crate::proofs::PaceLemmas::paces_on, crate::proofs::PaceLemmas::replanned, crate::proofs::PaceLemmas::why_withheld))]
    pub(crate) fn seek(&mut self, c: usize, after: Option<RowId>) -> Step
        requires here { next_at self.old.5 c ≡ ToWork (Seek after) }
        ensures same { self.new.0 ≡ self.old.0 }
        ensures grows { Grows (c + 1) result self.old.1 self.new.1 }
        ensures stops { self.new.4 ≡ stop_after result self.old.4 }
        ensures cause { HasStopped result (S.view self.new.3) }
        ensures goes { NotEnded result }
        ensures paces { Paces c result self.old.5 self.new.5 self.old.1 self.new.1 (S.view self.old.3) (S.view self.new.3) }
        ensures why { HasWhy (c + 1) result self.new.1 self.new.2 (S.view self.old.3) }
    {
        if c >= self.sessions.len() {
            unreachable!()
        }
        self.store.law();
        let actor = actor_of(c);
        let session = &mut self.sessions[c];
        let Phase::Working = session.phase else {
            unreachable!()
        };
        let Plan::Select(scan) = &mut session.plan else {
            unreachable!()
        };
        match seek_row(&mut self.store, actor, scan.number, after) {
            Ok(Sought::Came(at)) => {
                scan.at = at;
                Step::Went(Event::Fix)
            }
            Ok(Sought::Onward) => Step::Went(Event::Fix),
            Ok(Sought::Held(b)) => {
                self.store.let_go(actor);
                Step::Blocked(Why::Latch(b))
            }
            Err(StoreAnswer::Memory) => {
                starve(session);
                self.owed -= 1;
                Step::Went(Event::Fix)
            }
            Err(answer) => self.halt(answer),
        }
    }

    /// A query reads the row to which it has come.
    #[tactic(auto, using(crate::proofs::KeptLemmas::kept_scripts, crate::proofs::KeptLemmas::grows_none, crate::proofs::KeptLemmas::grows_halted, crate::proofs::KeptLemmas::halt_goes, crate::proofs::KeptLemmas::halts_but, crate::proofs::PaceLemmas::paces_passed, crate::proofs::PaceLemmas::paces_gives, crate::proofs::PaceLemmas::paces_kept, crate::proofs::PaceLemmas::done_halted, crate::proofs::PaceLemmas::claims_halted, crate::proofs::PaceLemmas::why_done, crate::proofs::PaceLemmas::acts_frame, crate::proofs::PaceLemmas::paces_blocked, crate::proofs::PaceLemmas::acts_bare, crate::proofs::PaceLemmas::why_withheld))]
    pub(crate) fn read(&mut self, c: usize, rid: RowId) -> Step
        requires here { next_at self.old.5 c ≡ ToWork (Read rid) }
        ensures same { self.new.0 ≡ self.old.0 }
        ensures grows { Grows (c + 1) result self.old.1 self.new.1 }
        ensures stops { self.new.4 ≡ stop_after result self.old.4 }
        ensures cause { HasStopped result (S.view self.new.3) }
        ensures goes { NotEnded result }
        ensures paces { Paces c result self.old.5 self.new.5 self.old.1 self.new.1 (S.view self.old.3) (S.view self.new.3) }
        ensures why { HasWhy (c + 1) result self.new.1 self.new.2 (S.view self.old.3) }
    {
        if c >= self.sessions.len() {
            unreachable!()
        }
        self.store.law();
        let actor = actor_of(c);
        let session = &mut self.sessions[c];
        let Phase::Working = session.phase else {
            unreachable!()
        };
        let Plan::Select(scan) = &mut session.plan else {
            unreachable!()
        };
        match read_row(&mut self.store, actor, scan.number, rid) {
            Ok(Saw::Live(row)) => {
                let Ok(()) = take(self.alloc, scan, rid, row) else {
                    starve(session);
                    self.owed -= 1;
                    return Step::Went(Event::Read);
                };
                Step::Went(Event::Read)
            }
            Ok(Saw::Passed) => {
                pass(scan, rid);
                Step::Went(Event::Read)
            }
            Ok(Saw::Held(b)) => {
                self.store.let_go(actor);
                Step::Blocked(Why::Latch(b))
            }
            Err(StoreAnswer::Memory) => {
                starve(session);
                self.owed -= 1;
                Step::Went(Event::Read)
            }
            Err(answer) => self.halt(answer),
        }
    }

    /// A query has read its whole table, and is answered.
    #[tactic(auto, using(crate::proofs::KeptLemmas::kept_scripts, crate::proofs::KeptLemmas::grows_finished, crate::proofs::KeptLemmas::own_conn, crate::proofs::KeptLemmas::stops_finished, crate::proofs::KeptLemmas::cause_finished, crate::proofs::KeptLemmas::goes_finished, crate::proofs::PaceLemmas::paces_put, crate::proofs::PaceLemmas::why_done, crate::proofs::PaceLemmas::acts_frame))]
    pub(crate) fn answer(&mut self, c: usize) -> Step
        requires here { next_at self.old.5 c ≡ ToWork Answer }
        ensures same { self.new.0 ≡ self.old.0 }
        ensures grows { Grows (c + 1) result self.old.1 self.new.1 }
        ensures stops { self.new.4 ≡ stop_after result self.old.4 }
        ensures cause { HasStopped result (S.view self.new.3) }
        ensures goes { NotEnded result }
        ensures paces { Paces c result self.old.5 self.new.5 self.old.1 self.new.1 (S.view self.old.3) (S.view self.new.3) }
        ensures why { HasWhy (c + 1) result self.new.1 self.new.2 (S.view self.old.3) }
    {
        if c >= self.sessions.len() {
            unreachable!()
        }
        self.store.law();
        let actor = actor_of(c);
        let place = self.entries.len() as u64;
        let session = &mut self.sessions[c];
        let Phase::Working = session.phase else {
            unreachable!()
        };
        let Plan::Select(scan) = &session.plan else {
            unreachable!()
        };
        let Where::Ended = scan.at else {
            unreachable!()
        };
        self.store.let_go(actor);
        let planned = mem::replace(&mut session.plan, Plan::Nothing);
        match planned {
            Plan::Select(scan) => {
                put(&mut self.entries, told_rows(session.txn, place, scan));
                session.phase = phase_done(session.automatic);
                self.owed -= ends(Phase::Working) - ends(session.phase);
                finished(session.phase)
            }
            _ => unreachable!(),
        }
    }
}
