//! The changes of one transaction are taken back.

ghost use Rattle.std.specs.Prelude.{◌≡◌, [], Some, None, ℕ, IfOk, IfErr, OnOk, slice_index_or};
ghost use Rattle.table_model.specs.Tables.{no_tables};
ghost use Rattle.session_model.specs.Legal.{IsLegal};
ghost use Rattle.session_engine.specs.State.{scripts_of};
ghost use Rattle.session_engine.specs.declared.session.Session.{Session};
ghost use Rattle.engine_close.specs.Closing.{Ends, Fails, Undoing, Undone};

use dby_types::number::TxnNo;
use journal_model::journal::Entry;
use session_engine::engine::{actor_of, put};
use session_engine::parts::Parts;
use store_api::answers::{StoreAnswer, Undo};
use store_api::store::RowStore;

/// Takes back the newest item of a connection's transaction, of whose changes so many are left: how many are left now, None where no
/// item stands.
fn undo_next<S: RowStore>(
    parts: &mut Parts<S>,
    c: usize,
    txn: TxnNo,
    left: usize,
) -> Result<Option<usize>, StoreAnswer>
    requires undoing { Undoing parts.old.entries parts.old.events parts.old.sessions.items (S.view parts.old.store) c left }
    requires own { (d : Session) → (slice_index_or parts.old.sessions.items c d).txn ≡ txn }
    ensures ok { IfOk result (Undone parts.new.entries parts.new.events parts.new.sessions.items (S.view parts.old.store) (S.view parts.new.store) c txn.0 left) }
    ensures err { IfErr result (Fails (S.view parts.new.store)) }
    ensures legal { IsLegal no_tables (scripts_of parts.new.sessions.items) parts.new.entries.items parts.new.events.items }
    ensures ends { Ends parts.old.entries.items parts.new.entries.items }
    ensures same { parts.new.sessions ≡ parts.old.sessions }
    ensures events { parts.new.events ≡ parts.old.events }
{
    parts.store.law();
    let a = actor_of(c);
    match parts.store.undo_one(a, txn, 0) {
        Ok(
            Undo::Undid {
                table: _table,
                rid: _rid,
            },
        ) => {
            let fewer = left - 1;
            let did = parts.sessions[c].made[fewer];
            put(&mut parts.entries, Entry::Undone { txn, did });
            Ok(Some(fewer))
        }
        Ok(Undo::UndidContainer) => Ok(Some(left)),
        Ok(Undo::Onward) => {
            parts.store.law();
            Ok(Some(left))
        }
        Ok(Undo::Held(_b)) => unreachable!(),
        Ok(Undo::Done) => Ok(None),
        Err(answer) => Err(answer),
    }
}

/// Takes back every change of a connection's transaction, the newest first.
pub(crate) fn undo_all<S: RowStore>(
    parts: &mut Parts<S>,
    c: usize,
    txn: TxnNo,
    made: usize,
) -> Result<(), StoreAnswer>
    requires undoing { Undoing parts.old.entries parts.old.events parts.old.sessions.items (S.view parts.old.store) c made }
    requires own { (d : Session) → (slice_index_or parts.old.sessions.items c d).txn ≡ txn }
    ensures ok { OnOk result ((left : ℕ) × Undone parts.new.entries parts.new.events parts.new.sessions.items (S.view parts.old.store) (S.view parts.new.store) c txn.0 left None) }
    ensures err { IfErr result (Fails (S.view parts.new.store)) }
    ensures legal { IsLegal no_tables (scripts_of parts.new.sessions.items) parts.new.entries.items parts.new.events.items }
    ensures ends { Ends parts.old.entries.items parts.new.entries.items }
    ensures same { parts.new.sessions ≡ parts.old.sessions }
    ensures events { parts.new.events ≡ parts.old.events }
{
    let mut left = made;
    'undoes: while let Some(fewer) = undo_next(parts, c, txn, left)? {
        left = fewer;
    }
    Ok(())
}
