//! Lines are walked, one after another.

ghost use Rattle.std.specs.Prelude.{◌≡◌, ℕ, ◌≤◌, ◌<◌, ◌^◌, IfSome, None, length};
ghost use Rattle.session_engine.specs.Stepped.{HasStopped, stop_after};
ghost use Rattle.plan_walk.specs.Walk.{AreFew, HasCause, IsLine, IsStep, IsWalk, Leaves, halt_of, pauses, seen, stop_behind, stop_left};

use dby_types::number::ConnNo;
use session_engine::engine::Engine;
use session_engine::step::{Step, Stop};
use step_plan::plan::{Plan, StepLine};
use store_api::store::RowStore;

/// How a walk ended.
#[derive(Clone, Copy, Debug, PartialEq, Eq)]
pub enum Walked {
    /// Every line was walked.
    Whole,
    /// The store failed in a step.
    Stopped(Stop),
    /// There was no memory to begin a statement.
    Memory,
}

/// Whether a line ends with this answer.
fn pauses(step: Step) -> bool
    ensures { result ≡ pauses step }
{
    !matches!(step, Step::Went(_))
}

/// One step of a connection, or of the daemon, which is 0.
fn make<S: RowStore + Drop>(engine: &mut Engine<S>, connection: usize) -> Step
    requires known { connection ≤ length engine.old.0 }
    requires small { length engine.old.0 < 2 ^ 32 }
    ensures same { engine.new.0 ≡ engine.old.0 }
    ensures step { (ways : ℕ → ℕ) → AreFew ways engine.old.5 (S.view engine.old.3) → Leaves (λ new. IsStep engine.old.0 connection (seen engine.old.1 engine.old.5 (S.view engine.old.3) ways) new result) engine.new.1 engine.new.5 (S.view engine.new.3) }
    ensures stops { engine.new.4 ≡ stop_after result engine.old.4 }
    ensures cause { engine.old.4 ≡ None → HasStopped result (S.view engine.new.3) }
{
    engine.law();
    if connection == 0 {
        engine.daemon()
    } else {
        let step = engine.step(ConnNo(connection as u32));
        engine.law();
        step
    }
}

/// Walks a line; the answer with which it paused, None where all its steps went.
fn walk_line<S: RowStore + Drop>(engine: &mut Engine<S>, line: StepLine) -> Option<Step>
    requires known { line.connection ≤ length engine.old.0 }
    requires small { length engine.old.0 < 2 ^ 32 }
    ensures same { engine.new.0 ≡ engine.old.0 }
    ensures line { (ways : ℕ → ℕ) → AreFew ways engine.old.5 (S.view engine.old.3) → Leaves (λ new. IsLine engine.old.0 line (seen engine.old.1 engine.old.5 (S.view engine.old.3) ways) new result) engine.new.1 engine.new.5 (S.view engine.new.3) }
    ensures stops { engine.new.4 ≡ stop_behind result engine.old.4 }
    ensures cause { engine.old.4 ≡ None → IfSome result (λ answer. HasStopped answer (S.view engine.new.3)) }
{
    for _ in 0..line.steps {
        let step = make(engine, line.connection);
        if pauses(step) {
            return Some(step);
        }
    }
    None
}

/// How the walk ends where a line has ended so; None where it goes on.
fn halt(last: Option<Step>) -> Option<Walked>
    ensures { result ≡ halt_of last }
{
    match last {
        Some(Step::Stopped(stop)) => Some(Walked::Stopped(stop)),
        Some(Step::Memory) => Some(Walked::Memory),
        _ => None,
    }
}

/// Walks an engine by a plan for its scripts.
pub fn walk<S: RowStore + Drop>(engine: &mut Engine<S>, plan: &Plan) -> Walked
    requires known { plan.now.scripts ≡ length engine.old.0 }
    requires small { length engine.old.0 < 2 ^ 32 }
    ensures same { engine.new.0 ≡ engine.old.0 }
    ensures walk { (ways : ℕ → ℕ) → AreFew ways engine.old.5 (S.view engine.old.3) → Leaves (λ new. IsWalk engine.old.0 plan.now.lines (seen engine.old.1 engine.old.5 (S.view engine.old.3) ways) new result) engine.new.1 engine.new.5 (S.view engine.new.3) }
    ensures stops { engine.new.4 ≡ stop_left result engine.old.4 }
    ensures cause { engine.old.4 ≡ None → HasCause result (S.view engine.new.3) }
{
    for line in plan.lines() {
        let last = walk_line(engine, *line);
        if let Some(how) = halt(last) {
            return how;
        }
    }
    Walked::Whole
}
