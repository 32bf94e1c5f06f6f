//! The steps in which a statement begins.

ghost use Rattle.std.specs.Prelude.{◌≡◌, ◌+◌};
ghost use Rattle.session_engine.specs.Stepped.{Grows, HasStopped, NotEnded, stop_after};
ghost use Rattle.session_engine.specs.Blocking.{HasWhy};
ghost use Rattle.session_engine.specs.Pacing.{Paces, next_at};
ghost use Rattle.session_engine.specs.declared.next.Next.TheVariants.{Begin, Resume};

use crate::beginning::{fresh, get_ready, start, started, text_of, turn_away, turned_away};
use crate::engine::{Engine, put};
use crate::follows::ends;
use crate::session::Phase;
use crate::step::{Event, Step};
use store_api::answers::StoreAnswer;
use store_api::store::RowStore;

impl<S: RowStore> Engine<S> {
    /// The next statement begins, in a new transaction. One for whose transaction the store has no number is refused.
    #[tactic(auto, using(crate::proofs::KeptLemmas::kept_scripts, crate::proofs::KeptLemmas::grows_one, crate::proofs::KeptLemmas::grows_two, crate::proofs::KeptLemmas::grows_none, crate::proofs::KeptLemmas::grows_halted, crate::proofs::KeptLemmas::halt_goes, crate::proofs::KeptLemmas::halts_open, crate::proofs::KeptLemmas::keeps_for, crate::proofs::PaceLemmas::paces_put, crate::proofs::PaceLemmas::paces_two, crate::proofs::PaceLemmas::paces_kept, crate::proofs::PaceLemmas::done_halted, crate::proofs::PaceLemmas::claims_halted, crate::proofs::PaceLemmas::why_done, crate::proofs::PaceLemmas::acts_none, crate::proofs::PaceLemmas::acts_still))]
    pub(crate) fn begin(&mut self, c: usize) -> Step
        requires here { next_at self.old.5 c ≡ Begin }
        ensures same { self.new.0 ≡ self.old.0 }
        ensures grows { Grows (c + 1) result self.old.1 self.new.1 }
        ensures stops { self.new.4 ≡ stop_after result self.old.4 }
        ensures cause { HasStopped result (S.view self.new.3) }
        ensures goes { NotEnded result }
        ensures paces { Paces c result self.old.5 self.new.5 self.old.1 self.new.1 (S.view self.old.3) (S.view self.new.3) }
        ensures why { HasWhy (c + 1) result self.new.1 self.new.2 (S.view self.old.3) }
    {
        if c >= self.sessions.len() {
            unreachable!()
        }
        self.store.law();
        let session = &mut self.sessions[c];
        let Phase::Idle = session.phase else {
            unreachable!()
        };
        let false = session.closed else {
            unreachable!()
        };
        let Some(txn) = fresh(self.last, self.store.next_txn()) else {
            return Step::Memory;
        };
        let waiters = self.locks.waiters();
        let ready = get_ready(
            self.alloc,
            session,
            &mut self.entries,
            &mut self.events,
            self.owed,
            self.owed_events,
            waiters,
        );
        let Ok(found) = ready else {
            return Step::Memory;
        };
        let Some(asked) = found else { unreachable!() };
        match self.store.begin(txn) {
            Ok(()) => {
                put(
                    &mut self.entries,
                    started(txn, c, session.level, asked.text),
                );
                start(self.alloc, session, txn, true, 0, asked.long, asked.order);
                self.last = txn.0;
                self.owed += ends(session.phase);
                self.owed_events += 1;
                Step::Went(Event::Begin)
            }
            Err(StoreAnswer::Full(_)) => {
                put(
                    &mut self.entries,
                    started(txn, c, session.level, text_of(asked)),
                );
                put(&mut self.entries, turned_away(self.alloc, txn));
                turn_away(session, txn);
                self.last = txn.0;
                self.owed += 1;
                self.owed_events += 1;
                Step::Went(Event::Begin)
            }
            Err(StoreAnswer::Memory) => {
                drop(asked);
                Step::Memory
            }
            Err(answer) => {
                drop(asked);
                self.halt(answer)
            }
        }
    }

    /// The next statement begins, in the transaction that is open.
    #[tactic(auto, using(crate::proofs::KeptLemmas::kept_scripts, crate::proofs::KeptLemmas::grows_one, crate::proofs::KeptLemmas::grows_none, crate::proofs::KeptLemmas::own_conn, crate::proofs::PaceLemmas::paces_put, crate::proofs::PaceLemmas::paces_kept, crate::proofs::PaceLemmas::why_done, crate::proofs::PaceLemmas::acts_none))]
    pub(crate) fn resume(&mut self, c: usize) -> Step
        requires here { next_at self.old.5 c ≡ Resume }
        ensures same { self.new.0 ≡ self.old.0 }
        ensures grows { Grows (c + 1) result self.old.1 self.new.1 }
        ensures stops { self.new.4 ≡ stop_after result self.old.4 }
        ensures cause { HasStopped result (S.view self.new.3) }
        ensures goes { NotEnded result }
        ensures paces { Paces c result self.old.5 self.new.5 self.old.1 self.new.1 (S.view self.old.3) (S.view self.new.3) }
        ensures why { HasWhy (c + 1) result self.new.1 self.new.2 (S.view self.old.3) }
    {
        if c >= self.sessions.len() {
            unreachable!()
        }
        self.store.law();
        let session = &mut self.sessions[c];
        let Phase::Resting = session.phase else {
            unreachable!()
        };
        let false = session.closed else {
            unreachable!()
        };
        let waiters = self.locks.waiters();
        let ready = get_ready(
            self.alloc,
            session,
            &mut self.entries,
            &mut self.events,
            self.owed,
            self.owed_events,
            waiters,
        );
        let Ok(found) = ready else {
            return Step::Memory;
        };
        let Some(asked) = found else { unreachable!() };
        let txn = session.txn;
        let mark = self.store.place(txn);
        put(
            &mut self.entries,
            started(txn, c, session.level, asked.text),
        );
        start(
            self.alloc,
            session,
            txn,
            false,
            mark,
            asked.long,
            asked.order,
        );
        self.owed += ends(session.phase) - 1;
        Step::Went(Event::Begin)
    }
}
