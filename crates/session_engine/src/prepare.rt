//! The step in which a statement is bound.

ghost use Rattle.std.specs.Prelude.{◌≡◌, ◌+◌};
ghost use Rattle.session_engine.specs.Stepped.{Grows, HasStopped, NotEnded, stop_after};
ghost use Rattle.session_engine.specs.Blocking.{HasWhy};
ghost use Rattle.session_engine.specs.Pacing.{Paces, next_at};
ghost use Rattle.session_engine.specs.declared.next.Next.TheVariants.{Prepare};

use crate::binding::{bind, bound_phase};
use crate::engine::Engine;
use crate::follows::ends;
use crate::session::Phase;
use crate::step::{Event, Step};
use std::mem;
use store_api::store::RowStore;

impl<S: RowStore> Engine<S> {
    /// A statement is bound over the dictionary, which its transaction shares.
    #[tactic(auto, using(crate::proofs::KeptLemmas::kept_scripts, crate::proofs::KeptLemmas::grows_none, crate::proofs::PaceLemmas::paces_bound, crate::proofs::PaceLemmas::why_done, crate::proofs::PaceLemmas::acts_none))]
    pub(crate) fn prepare(&mut self, c: usize) -> Step
        requires here { next_at self.old.5 c ≡ Prepare }
        ensures same { self.new.0 ≡ self.old.0 }
        ensures grows { Grows (c + 1) result self.old.1 self.new.1 }
        ensures stops { self.new.4 ≡ stop_after result self.old.4 }
        ensures cause { HasStopped result (S.view self.new.3) }
        ensures goes { NotEnded result }
        ensures paces { Paces c result self.old.5 self.new.5 self.old.1 self.new.1 (S.view self.old.3) (S.view self.new.3) }
        ensures why { HasWhy (c + 1) result self.new.1 self.new.2 (S.view self.old.3) }
    {
        if c >= self.sessions.len() {
            unreachable!()
        }
        let session = &mut self.sessions[c];
        let Phase::Preparing = session.phase else {
            unreachable!()
        };
        let order = mem::replace(&mut session.order, None);
        session.plan = bind(self.alloc, &self.tables, order);
        session.phase = bound_phase(&session.plan);
        self.owed -= ends(Phase::Preparing) - ends(session.phase);
        Step::Went(Event::Prepare)
    }
}
