//! The top call: from words and files to the printed text.

ghost use Rattle.std.specs.Prelude.{◌≡◌, None, IfSome, map, string_bytes};
ghost use Rattle.derby.specs.Running.{IsRunOf, how_of};
ghost use Rattle.derby.specs.Step.{Goes, Owes, plan_in, scripts_in};

use crate::ending::Ending;
use crate::inputs::read_inputs;
use crate::printing::print_run;
use crate::running::{Went, run, unready};
use dby_types::number::Damage;
use dby_types::seq::Seq;
use device::{Host, Sink};
use program_words::words::{StepWords, read_words};
use session_model::journal::Journal;
use std::alloc::Global;

/// What a run leaves: its status, the files' sources, the journal where the engine was opened, and where a database was opened, its disk, and what stopped it.
#[derive(Drop)]
pub struct Run<D, P> {
    pub status: u8,
    pub sources: Seq<P>,
    pub journal: Option<Journal>,
    pub disk: Option<D>,
    pub stopped: Option<u64>,
    pub damage: Option<Damage>,
}

/// Reads what the words name, and runs it.
fn go<H: Host>(
    alloc: Global,
    host: &mut H,
    words: StepWords<'_>,
    sources: &mut Vec<H::Script>,
) -> Went
    ensures { Goes words.entry.plan.now (map string_bytes words.entry.scripts.now) (H.seen host.old) (H.seen host.new) (map H.Script.seen sources.old.items) (map H.Script.seen sources.new.items) result }
{
    match read_inputs(alloc, host, words, sources) {
        Err(error) => unready(error),
        Ok(inputs) => run(alloc, inputs),
    }
}

/// Reads a plan and scripts, makes the steps that the plan says, and prints the text of the journal and the last line.
pub fn derby_step<H: Host, K: Sink>(
    alloc: Global,
    words: &[String],
    host: &mut H,
    sink: &mut K,
) -> Run<H::Disk, H::Script>
    // The run ended so for a cause, the sink took what that ending owes, and the status is that of both.
    ensures owes { Owes (map string_bytes words.now) (H.seen host.old) (H.seen host.new) (map H.Script.seen result.sources) (K.seen sink.old) (K.seen sink.new) result.status result.journal }
    // The journal is legal for the scripts that were read, and what a walk by the plan that was read leaves.
    ensures legal { IfSome result.journal (IsRunOf (H.seen host.old).scripts (plan_in (map string_bytes words.now)) (scripts_in (map string_bytes words.now)) (how_of result.status)) }
    // No database is opened.
    ensures none { (result.disk ≡ None) × (result.stopped ≡ None) × (result.damage ≡ None) }
{
    let Some(named) = read_words(words) else {
        let status = print_run(sink, Ending::Usage, &None, "", &[]);
        return Run {
            status,
            sources: Seq::new(alloc),
            journal: None,
            disk: None,
            stopped: None,
            damage: None,
        };
    };
    let mut sources = Vec::new(alloc);
    let Went { ending, journal } = go(alloc, host, named, &mut sources);
    let status = print_run(sink, ending, &journal, named.plan, named.scripts);
    Run {
        status,
        sources: Seq::from_vec(sources),
        journal,
        disk: None,
        stopped: None,
        damage: None,
    }
}
