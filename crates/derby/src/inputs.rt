//! What a run is given is read: its plan, and then its scripts.

ghost use Rattle.std.specs.Prelude.{map, string_bytes};
ghost use Rattle.run_sources.specs.Files.{Opens};
ghost use Rattle.derby.specs.Inputs.{ReadsInputs, ReadsLines, ReadsScripts, failure_of};

use crate::ending::InputError;
use dby_types::seq::Seq;
use dby_types::value::Txt;
use device::Host;
use program_words::words::StepWords;
use run_sources::files::{read_file, read_files};
use std::alloc::Global;
use step_plan::plan::{Plan, PlanError, read_plan};

/// The most connections.
pub const MOST: usize = 64;

/// What a run is given: a plan for its scripts, and these, in order.
#[derive(Drop)]
pub struct Inputs {
    pub plan: Plan,
    pub scripts: Seq<Txt>,
}

/// Reads the plan for so many scripts.
fn read_lines<H: Host>(
    alloc: Global,
    host: &mut H,
    name: &str,
    scripts: usize,
    sources: &mut Vec<H::Script>,
) -> Result<Plan, InputError>
    ensures reads { ReadsLines ((H.seen host.old).scripts name.now) scripts result }
    ensures opens { Opens (failure_of result) (H.seen host.old) (H.seen host.new) (map H.Script.seen sources.old.items) (map H.Script.seen sources.new.items) }
{
    match read_file(alloc, host, name, sources) {
        Err(why) => Err(InputError::Plan(why)),
        Ok(text) => match read_plan(alloc, text.as_slice(), scripts) {
            Err(PlanError::Malformed { line }) => Err(InputError::Malformed(line)),
            Err(PlanError::Memory) => Err(InputError::Starved),
            Ok(plan) => Ok(plan),
        },
    }
}

/// Reads the scripts, of which there are at most 64.
fn read_scripts<H: Host>(
    alloc: Global,
    host: &mut H,
    names: &[String],
    sources: &mut Vec<H::Script>,
) -> Result<Seq<Txt>, InputError>
    ensures reads { ReadsScripts (H.seen host.old).scripts (map string_bytes names.now) result }
    ensures opens { Opens (failure_of result) (H.seen host.old) (H.seen host.new) (map H.Script.seen sources.old.items) (map H.Script.seen sources.new.items) }
{
    match read_files(alloc, host, names, sources) {
        Err(error) => Err(InputError::Script(error)),
        Ok(texts) => {
            if names.len() > MOST {
                Err(InputError::Crowded(names.len()))
            } else {
                Ok(texts)
            }
        }
    }
}

/// Reads what the words name: the plan is judged before a script is opened. The sources that were opened stand at the end of the list.
pub(crate) fn read_inputs<H: Host>(
    alloc: Global,
    host: &mut H,
    words: StepWords<'_>,
    sources: &mut Vec<H::Script>,
) -> Result<Inputs, InputError>
    ensures reads { ReadsInputs (H.seen host.old).scripts words.entry.plan.now (map string_bytes words.entry.scripts.now) result }
    ensures opens { Opens (failure_of result) (H.seen host.old) (H.seen host.new) (map H.Script.seen sources.old.items) (map H.Script.seen sources.new.items) }
{
    match read_lines(alloc, host, words.plan, words.scripts.len(), sources) {
        Err(error) => Err(error),
        Ok(plan) => match read_scripts(alloc, host, words.scripts, sources) {
            Err(error) => Err(error),
            Ok(scripts) => Ok(Inputs { plan, scripts }),
        },
    }
}
