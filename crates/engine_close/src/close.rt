//! The call that closes an engine.

ghost use Rattle.std.specs.Prelude.{◌≡◌, Some, None, IfErr, IfSome, OnOk, length};
ghost use Rattle.table_model.specs.Tables.{no_tables};
ghost use Rattle.session_model.specs.Legal.{IsLegal};
ghost use Rattle.session_engine.specs.Leaving.{IsLeft};
ghost use Rattle.session_engine.specs.State.{scripts_of};
ghost use Rattle.session_engine.specs.Stepped.{Shows};
ghost use Rattle.session_engine.specs.declared.step.Stop.{Stop};
ghost use Rattle.engine_close.specs.Closing.{AllAtRest, Closing, Ends, Fails};

use crate::ending::end_one;
use dby_types::seq::Seq;
use session_engine::engine::{Engine, actor_of};
use session_engine::parts::Parts;
use session_engine::step::Stop;
use session_model::journal::Journal;
use store_api::answers::StoreAnswer;
use store_api::store::RowStore;

/// What a closed engine leaves: its store, its journal, and why it has stopped, where it has.
#[derive(Drop)]
pub struct Closed<S: RowStore> {
    pub store: S,
    pub journal: Journal,
    pub stop: Option<Stop>,
}

/// The stop for an answer that the store keeps.
fn stop_of<S: RowStore>(store: &S, answer: StoreAnswer) -> Stop
    requires { Fails (S.view store.now) answer }
    ensures { Shows result (S.view store.now) }
{
    match answer {
        StoreAnswer::Failed => Stop::Fault(store.faults()),
        StoreAnswer::Damaged(damage) => Stop::Damage(damage),
        _ => unreachable!(),
    }
}

/// Every connection lets go of all pages.
fn let_all_go<S: RowStore>(parts: &mut Parts<S>)
    requires { IsLeft parts.old.entries parts.old.events parts.old.sessions.items (S.view parts.old.store) }
    ensures closing { Closing parts.new.entries parts.new.events parts.new.sessions.items (S.view parts.new.store) 0 }
    ensures entries { parts.new.entries ≡ parts.old.entries }
    ensures events { parts.new.events ≡ parts.old.events }
    ensures same { parts.new.sessions ≡ parts.old.sessions }
{
    for c in 0..parts.sessions.len() {
        parts.store.law();
        parts.store.let_go(actor_of(c));
    }
}

/// Ends each open transaction, connection by connection, and forces the log.
fn end_all<S: RowStore>(parts: &mut Parts<S>) -> Result<(), StoreAnswer>
    requires { Closing parts.old.entries parts.old.events parts.old.sessions.items (S.view parts.old.store) 0 }
    ensures ok { OnOk result (AllAtRest (length parts.new.sessions.items) parts.new.entries.items) }
    ensures err { IfErr result (Fails (S.view parts.new.store)) }
    ensures legal { IsLegal no_tables (scripts_of parts.new.sessions.items) parts.new.entries.items parts.new.events.items }
    ensures ends { Ends parts.old.entries.items parts.new.entries.items }
    ensures same { parts.new.sessions ≡ parts.old.sessions }
{
    for c in 0..parts.sessions.len() {
        end_one(parts, c)?;
    }
    parts.store.force()
}

/// Ends what is open, unless the engine has stopped: why it has, where it has or does so now.
fn end_what_is_open<S: RowStore>(parts: &mut Parts<S>) -> Option<Stop>
    requires { IsLeft parts.old.entries parts.old.events parts.old.sessions.items (S.view parts.old.store) }
    ensures rest { result ≡ None → AllAtRest (length parts.new.sessions.items) parts.new.entries.items }
    ensures stopped { (s : Stop) → parts.old.stop ≡ Some s → (result ≡ Some s) × (parts.new ≡ parts.old) }
    ensures cause { parts.old.stop ≡ None → IfSome result (λ s. Shows s (S.view parts.new.store)) }
    ensures legal { IsLegal no_tables (scripts_of parts.new.sessions.items) parts.new.entries.items parts.new.events.items }
    ensures ends { Ends parts.old.entries.items parts.new.entries.items }
    ensures same { parts.new.sessions ≡ parts.old.sessions }
{
    if let Some(stop) = parts.stop {
        return Some(stop);
    }
    let_all_go(parts);
    match end_all(parts) {
        Ok(()) => None,
        Err(answer) => Some(stop_of(&parts.store, answer)),
    }
}

/// Closes an engine: each open transaction is rolled back, and the log is forced, unless the store has failed. It takes no memory.
pub fn close<S: RowStore + Drop>(engine: Engine<S>) -> Closed<S>
    // The journal goes on with changes taken back and transactions rolled back, and stays legal.
    ensures ends { Ends engine.1 result.journal.entries }
    ensures legal { IsLegal no_tables engine.0 result.journal.entries result.journal.locks }
    // No transaction of a connection is open, unless the store has failed, and then so is the answer.
    ensures rest { result.stop ≡ None → AllAtRest (length engine.0) result.journal.entries }
    ensures cause { engine.4 ≡ None → IfSome result.stop (λ s. Shows s (S.view result.store)) }
    ensures stopped { (s : Stop) → engine.4 ≡ Some s → (result.stop ≡ Some s) × (result.journal.entries ≡ engine.1) × (result.journal.locks ≡ engine.2) }
{
    let mut parts = engine.into_parts();
    let stop = end_what_is_open(&mut parts);
    let Parts {
        store,
        entries,
        events,
        sessions: _sessions,
        stop: _stop,
    } = parts;
    Closed {
        store,
        journal: Journal {
            entries: Seq::from_vec(entries),
            locks: Seq::from_vec(events),
        },
        stop,
    }
}
