//! The step in which a statement asks for a lock.

ghost use Rattle.std.specs.Prelude.{◌≡◌, ◌+◌, true};
ghost use Rattle.session_engine.specs.Stepped.{Grows, HasStopped, NotEnded, stop_after};
ghost use Rattle.session_engine.specs.Blocking.{HasWhy};
ghost use Rattle.session_engine.specs.Pacing.{Paces, asks, next_at};

use crate::asking::{behind, room_to_ask, starve, wanted};
use crate::engine::{Engine, actor_of, put};
use crate::step::{Event, Step, Why};
use lock_manager::tried::Tried;
use lock_modes::event::LockEvent;
use session_model::journal::Locked;
use store_api::store::RowStore;

impl<S: RowStore> Engine<S> {
    /// The lock that the statement needs next is granted at once, or its request is queued, or was granted since.
    #[tactic(auto, using(crate::proofs::KeptLemmas::kept_scripts, crate::proofs::KeptLemmas::grows_none, crate::proofs::PaceLemmas::paces_gives, crate::proofs::PaceLemmas::paces_woken, crate::proofs::PaceLemmas::why_done, crate::proofs::PaceLemmas::acts_none, crate::proofs::PaceLemmas::paces_granted, crate::proofs::PaceLemmas::paces_blocked, crate::proofs::PaceLemmas::acts_frame, crate::proofs::PaceLemmas::paces_waits, crate::proofs::WantLemmas::why_queued))]
    pub(crate) fn ask(&mut self, c: usize) -> Step
        requires here { asks (next_at self.old.5 c) ≡ true }
        ensures same { self.new.0 ≡ self.old.0 }
        ensures grows { Grows (c + 1) result self.old.1 self.new.1 }
        ensures stops { self.new.4 ≡ stop_after result self.old.4 }
        ensures cause { HasStopped result (S.view self.new.3) }
        ensures goes { NotEnded result }
        ensures paces { Paces c result self.old.5 self.new.5 self.old.1 self.new.1 (S.view self.old.3) (S.view self.new.3) }
        ensures why { HasWhy (c + 1) result self.new.1 self.new.2 (S.view self.old.3) }
    {
        if c >= self.sessions.len() {
            unreachable!()
        }
        self.store.law();
        self.locks.laws();
        let session = &mut self.sessions[c];
        let Some((name, mode)) = wanted(session) else {
            unreachable!()
        };
        let txn = session.txn;
        if session.queued {
            if let Some(edge) = self.locks.blocker(txn, None) {
                return Step::Blocked(Why::Lock(edge.holder));
            }
            session.queued = false;
            session.phase = behind(session.phase);
            return Step::Went(Event::Woken);
        }
        let waiters = self.locks.waiters();
        let place = self.entries.len() as u64;
        let room = room_to_ask(
            &mut self.events,
            &mut self.locks,
            self.owed_events,
            waiters,
            txn,
        );
        let Ok(()) = room else {
            starve(session);
            self.owed -= 1;
            return Step::Went(Event::Prepare);
        };
        match self.locks.try_lock(txn, name, mode) {
            Tried::Granted => {
                put(
                    &mut self.events,
                    Locked {
                        place,
                        event: LockEvent::Granted(txn, name, mode),
                    },
                );
                session.phase = behind(session.phase);
                Step::Went(Event::Lock)
            }
            Tried::Conflict(_) => {
                self.store.let_go(actor_of(c));
                self.locks.enqueue(txn, name, mode);
                put(
                    &mut self.events,
                    Locked {
                        place,
                        event: LockEvent::Queued(txn, name, mode),
                    },
                );
                session.queued = true;
                Step::Went(Event::Enqueue)
            }
        }
    }
}
