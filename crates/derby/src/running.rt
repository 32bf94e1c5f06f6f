//! A run: connections over an empty store, walked by the plan.

ghost use Rattle.std.specs.Prelude.{◌≡◌, None};
ghost use Rattle.derby.specs.Inputs.{AreReady};
ghost use Rattle.derby.specs.Running.{EndsBy, NotStopped, RunIf};

use crate::ending::{Ending, InputError};
use crate::inputs::Inputs;
use engine_close::close::close;
use list_store::lists::ListStore;
use plan_walk::walk::{Walked, walk};
use session_engine::engine::Engine;
use session_model::journal::Journal;
use std::alloc::Global;
use std::collections::VecDeque;

/// How a run ended, and its journal where the engine was opened.
#[derive(Drop)]
pub struct Went {
    pub ending: Ending,
    pub journal: Option<Journal>,
}

/// A run that didn't begin.
pub(crate) fn unready(error: InputError) -> Went
    ensures ending { result.ending ≡ Ending.Unready error }
    ensures journal { result.journal ≡ None }
{
    Went {
        ending: Ending::Unready(error),
        journal: None,
    }
}

/// How a run ends by its walk. A store in memory doesn't fail.
fn ending(walked: Walked) -> Ending
    requires { NotStopped walked }
    ensures { EndsBy walked result }
{
    match walked {
        Walked::Whole => Ending::Ran,
        Walked::Memory => Ending::Cut,
        Walked::Stopped(_stop) => unreachable!(),
    }
}

/// Opens a connection for each script, walks them by the plan, and closes the engine.
pub(crate) fn run(alloc: Global, inputs: Inputs) -> Went
    requires { AreReady inputs }
    ensures { RunIf result.ending inputs.scripts inputs.plan.lines result.journal }
{
    let Inputs { plan, scripts } = inputs;
    let mut scripts = VecDeque::from(scripts.into_vec());
    let Ok(mut engine) = Engine::open(alloc, ListStore::new(alloc), &mut scripts) else {
        return unready(InputError::Starved);
    };
    let walked = walk(&mut engine, &plan);
    let closed = close(engine);
    Went {
        ending: ending(walked),
        journal: Some(closed.journal),
    }
}
