//! One transaction ends.

ghost use Rattle.std.specs.Prelude.{◌≡◌, ◌<◌, ◌≤◌, ◌++◌, ◌+◌, [], ◌∷◌, length, IfErr, OnOk, vec_len, vec_capacity};
ghost use Rattle.table_model.specs.Tables.{no_tables};
ghost use Rattle.lock_modes.specs.declared.event.LockEvent.TheVariants.{ReleasedAll};
ghost use Rattle.journal_model.specs.declared.journal.Entry.TheVariants as entry;
ghost use Rattle.session_model.specs.Legal.{IsLegal};
ghost use Rattle.session_engine.specs.State.{scripts_of};
ghost use Rattle.engine_close.specs.Closing.{Closing, Ends, Fails, IsOwn, is_open};

use crate::undoing::undo_all;
use dby_types::number::TxnNo;
use journal_model::journal::Entry;
use lock_modes::event::LockEvent;
use session_engine::engine::{actor_of, put};
use session_engine::parts::Parts;
use session_engine::session::Phase;
use session_model::journal::Locked;
use store_api::answers::StoreAnswer;
use store_api::store::RowStore;

/// Whether a connection's transaction is open: it has neither ended nor is its commit in the log.
fn is_open(phase: Phase) -> bool
    ensures { result ≡ is_open phase }
{
    !matches!(phase, Phase::Idle | Phase::Forcing | Phase::Acknowledging)
}

/// Puts the end of a transaction, and gives back its locks. Nobody is granted any: each who waits is rolled back too.
fn note_end(entries: &mut Vec<Entry>, events: &mut Vec<Locked>, txn: TxnNo)
    requires room { vec_len entries.old < vec_capacity entries.old }
    requires room_events { vec_len events.old < vec_capacity events.old }
    ensures entries { entries.new.items ≡ entries.old.items ++ entry.RolledBack txn ∷ [] }
    ensures events { events.new.items ≡ events.old.items ++ record { place = length entries.new.items; event = ReleasedAll txn } ∷ [] }
    ensures len { vec_len entries.new ≡ vec_len entries.old + 1 }
    ensures len_events { vec_len events.new ≡ vec_len events.old + 1 }
    ensures capacity { vec_capacity entries.old ≤ vec_capacity entries.new }
    ensures capacity_events { vec_capacity events.old ≤ vec_capacity events.new }
{
    put(entries, Entry::RolledBack(txn));
    let place = entries.len() as u64;
    put(
        events,
        Locked {
            place,
            event: LockEvent::ReleasedAll(txn),
        },
    );
}

/// Ends a transaction that the store has: its changes are taken back first.
fn roll_back<S: RowStore>(parts: &mut Parts<S>, c: usize, txn: TxnNo) -> Result<(), StoreAnswer>
    requires closing { Closing parts.old.entries parts.old.events parts.old.sessions.items (S.view parts.old.store) c }
    requires own { IsOwn parts.old.sessions.items c txn }
    ensures ok { OnOk result (Closing parts.new.entries parts.new.events parts.new.sessions.items (S.view parts.new.store) (c + 1)) }
    ensures err { IfErr result (Fails (S.view parts.new.store)) }
    ensures legal { IsLegal no_tables (scripts_of parts.new.sessions.items) parts.new.entries.items parts.new.events.items }
    ensures ends { Ends parts.old.entries.items parts.new.entries.items }
    ensures same { parts.new.sessions ≡ parts.old.sessions }
{
    let made = parts.sessions[c].made.len();
    undo_all(parts, c, txn, made)?;
    let answer = parts.store.rolled_back(txn);
    note_end(&mut parts.entries, &mut parts.events, txn);
    parts.store.law();
    parts.store.let_go(actor_of(c));
    answer
}

/// Ends the transaction of a connection, where one is open.
pub(crate) fn end_one<S: RowStore>(parts: &mut Parts<S>, c: usize) -> Result<(), StoreAnswer>
    requires closing { Closing parts.old.entries parts.old.events parts.old.sessions.items (S.view parts.old.store) c }
    requires within { c < length parts.old.sessions.items }
    ensures ok { OnOk result (Closing parts.new.entries parts.new.events parts.new.sessions.items (S.view parts.new.store) (c + 1)) }
    ensures err { IfErr result (Fails (S.view parts.new.store)) }
    ensures legal { IsLegal no_tables (scripts_of parts.new.sessions.items) parts.new.entries.items parts.new.events.items }
    ensures ends { Ends parts.old.entries.items parts.new.entries.items }
    ensures same { parts.new.sessions ≡ parts.old.sessions }
{
    let session = &parts.sessions[c];
    if !is_open(session.phase) {
        return Ok(());
    }
    let txn = session.txn;
    if session.opened {
        return roll_back(parts, c, txn);
    }
    note_end(&mut parts.entries, &mut parts.events, txn);
    Ok(())
}
