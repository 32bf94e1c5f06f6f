//! The public steps: one of a connection, and the daemon's.

ghost use Rattle.std.specs.Prelude.{◌≡◌, ℕ, ◌<◌, ◌≤◌, ◌+◌, Some, None, length};
ghost use Rattle.session_engine.specs.Stepped.{Grows, HasEnded, HasStopped, NotEnded, stop_after};
ghost use Rattle.session_engine.specs.declared.step.Stop.{Stop};
ghost use Rattle.session_engine.specs.Leaving.{IsLeft};
ghost use Rattle.session_engine.specs.Blocking.{HasWhy};
ghost use Rattle.session_engine.specs.Pacing.{Paces, next_at, nexts_of};
ghost use Rattle.session_engine.specs.State.{scripts_of};

use crate::engine::Engine;
use crate::next::{Build, Close, Next, Work, next_step};
use crate::parts::Parts;
use crate::step::Step;
use dby_types::number::ConnNo;
use journal_model::journal::Entry;
use store_api::store::RowStore;

impl<S: RowStore + Drop> Engine<S> {
    /// The next step of a connection, from 1. Once it has answered Stopped, each further step answers the same and changes nothing.
    #[tactic(auto, using(crate::proofs::RunLemmas::within, crate::proofs::KeptLemmas::grows_none))]
    pub fn step(&mut self, c: ConnNo) -> Step
        requires known { (1 ≤ c.0) × (c.0 ≤ length self.old.0) }
        ensures same { self.new.0 ≡ self.old.0 }
        ensures grows { Grows c.0 result self.old.1 self.new.1 }
        ensures ended { result ≡ Step.Ended → HasEnded self.new.0 self.new.1 c.0 }
        ensures stops { self.new.4 ≡ stop_after result self.old.4 }
        ensures cause { self.old.4 ≡ None → HasStopped result (S.view self.new.3) }
        ensures paces { self.old.4 ≡ None → (k : ℕ) → k + 1 ≡ c.0 → Paces k result self.old.5 self.new.5 self.old.1 self.new.1 (S.view self.old.3) (S.view self.new.3) }
        ensures why { self.old.4 ≡ None → HasWhy c.0 result self.new.1 self.new.2 (S.view self.old.3) }
        ensures still { (s : Stop) → self.old.4 ≡ Some s → (result ≡ Step.Stopped s) × (self.new ≡ self.old) }
    {
        match self.stop {
            Some(stop) => Step::Stopped(stop),
            None => self.go(c.0 as usize - 1),
        }
    }

    /// The daemon's step: there is nothing for it to do yet.
    pub fn daemon(&mut self) -> Step
        ensures same { self.new ≡ self.old }
        ensures ended { result ≡ Step.Ended }
    {
        Step::Ended
    }

    /// The journal's entries so far.
    pub fn journal(&self) -> &[Entry]
        ensures { result.now ≡ self.now.1 }
    {
        self.entries.as_slice()
    }

    /// The engine's parts, for the one who closes it.
    pub fn into_parts(self) -> Parts<S>
        ensures shows { (scripts_of result.sessions.items, result.entries.items, result.events.items, result.store, result.stop, nexts_of result.sessions.items) ≡ self }
        ensures left { IsLeft result.entries result.events result.sessions.items (S.view result.store) }
    {
        let _ = self.sessions.is_empty();
        Parts {
            store: self.store,
            entries: self.entries,
            events: self.events,
            sessions: self.sessions,
            stop: self.stop,
        }
    }

    /// What a bound statement does next.
    #[tactic(auto, using(crate::proofs::RunLemmas::within, crate::proofs::KeptLemmas::grows_none))]
    fn work(&mut self, c: usize, work: Work) -> Step
        requires here { next_at self.old.5 c ≡ Next.Work work }
        ensures same { self.new.0 ≡ self.old.0 }
        ensures grows { Grows (c + 1) result self.old.1 self.new.1 }
        ensures stops { self.new.4 ≡ stop_after result self.old.4 }
        ensures cause { HasStopped result (S.view self.new.3) }
        ensures goes { NotEnded result }
        ensures paces { Paces c result self.old.5 self.new.5 self.old.1 self.new.1 (S.view self.old.3) (S.view self.new.3) }
        ensures why { HasWhy (c + 1) result self.new.1 self.new.2 (S.view self.old.3) }
    {
        match work {
            Work::Seek(after) => self.seek(c, after),
            Work::Read(rid) => self.read(c, rid),
            Work::Answer => self.answer(c),
            Work::Widen => self.widen(c),
            Work::Fill => self.fill(c),
            Work::Count => self.count(c),
            Work::Build(build) => self.build(c, build),
            Work::Command => self.command(c),
        }
    }

    /// What a CREATE TABLE does next.
    #[tactic(auto, using(crate::proofs::RunLemmas::within, crate::proofs::KeptLemmas::grows_none))]
    fn build(&mut self, c: usize, build: Build) -> Step
        requires here { next_at self.old.5 c ≡ Next.Work (Work.Build build) }
        ensures same { self.new.0 ≡ self.old.0 }
        ensures grows { Grows (c + 1) result self.old.1 self.new.1 }
        ensures stops { self.new.4 ≡ stop_after result self.old.4 }
        ensures cause { HasStopped result (S.view self.new.3) }
        ensures goes { NotEnded result }
        ensures paces { Paces c result self.old.5 self.new.5 self.old.1 self.new.1 (S.view self.old.3) (S.view self.new.3) }
        ensures why { HasWhy (c + 1) result self.new.1 self.new.2 (S.view self.old.3) }
    {
        match build {
            Build::Make => self.make(c),
            Build::Spread => self.spread(c),
            Build::Lay => self.lay(c),
            Build::List => self.list(c),
            Build::Done => self.done(c),
        }
    }

    /// What comes behind a statement.
    #[tactic(auto, using(crate::proofs::RunLemmas::within, crate::proofs::KeptLemmas::grows_none, crate::proofs::PaceLemmas::paces_gave_up))]
    fn close(&mut self, c: usize, close: Close) -> Step
        requires here { next_at self.old.5 c ≡ Next.Close close }
        ensures same { self.new.0 ≡ self.old.0 }
        ensures grows { Grows (c + 1) result self.old.1 self.new.1 }
        ensures stops { self.new.4 ≡ stop_after result self.old.4 }
        ensures cause { HasStopped result (S.view self.new.3) }
        ensures goes { NotEnded result }
        ensures paces { Paces c result self.old.5 self.new.5 self.old.1 self.new.1 (S.view self.old.3) (S.view self.new.3) }
        ensures why { HasWhy (c + 1) result self.new.1 self.new.2 (S.view self.old.3) }
    {
        match close {
            Close::Append => self.append(c),
            Close::Force => self.force(c),
            Close::Acknowledge => self.acknowledge(c),
            Close::GiveUp => {
                self.give_up(c);
                self.leave(c)
            }
            Close::Vanish => self.vanish(c),
            Close::Leave => self.leave(c),
        }
    }

    /// The step that a connection, from 0, makes next.
    #[tactic(auto, using(crate::proofs::RunLemmas::within, crate::proofs::RunLemmas::never_ended, crate::proofs::KeptLemmas::grows_none, crate::proofs::PaceLemmas::next_here, crate::proofs::PaceLemmas::paces_kept, crate::proofs::PaceLemmas::acts_none))]
    fn go(&mut self, c: usize) -> Step
        requires known { c < length self.old.0 }
        ensures same { self.new.0 ≡ self.old.0 }
        ensures grows { Grows (c + 1) result self.old.1 self.new.1 }
        ensures ended { result ≡ Step.Ended → HasEnded self.new.0 self.new.1 (c + 1) }
        ensures stops { self.new.4 ≡ stop_after result self.old.4 }
        ensures cause { HasStopped result (S.view self.new.3) }
        ensures paces { Paces c result self.old.5 self.new.5 self.old.1 self.new.1 (S.view self.old.3) (S.view self.new.3) }
        ensures why { HasWhy (c + 1) result self.new.1 self.new.2 (S.view self.old.3) }
    {
        match next_step(&self.sessions[c]) {
            Next::End => Step::Ended,
            Next::Begin => self.begin(c),
            Next::Resume => self.resume(c),
            Next::Ask | Next::Claim => self.ask(c),
            Next::Prepare => self.prepare(c),
            Next::Work(work) => self.work(c, work),
            Next::Refuse => self.refuse(c),
            Next::Close(close) => self.close(c, close),
        }
    }
}
