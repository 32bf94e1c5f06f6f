//! An engine is opened: a connection for each script.

ghost use Rattle.std.specs.Prelude.{◌≡◌, ◌^◌, ◌<◌, length, IfOk};
ghost use Rattle.table_model.specs.Tables.{Each};
ghost use Rattle.session_engine.specs.Opening.{IsNew};
ghost use Rattle.session_engine.specs.State.{scripts_of};

use crate::session::{Phase, Plan, Session};
use dby_types::number::{Level, TxnNo};
use dby_types::value::Txt;
use sql_lexer::splitting::split_bytes;
use std::alloc::{AllocError, Global};
use std::collections::VecDeque;

/// A connection that has begun no statement of its script.
fn connection(alloc: Global, script: Txt) -> Result<Session, AllocError>
    requires { length script < 2 ^ 32 }
    ensures { IfOk result (λ s. (s.script ≡ script) × IsNew s) }
{
    let spans = split_bytes(alloc, script.as_slice())?;
    Ok(Session {
        script,
        spans,
        begun: 0,
        level: Level::Cs,
        automatic: true,
        closed: false,
        phase: Phase::Idle,
        txn: TxnNo(0),
        opened: false,
        first: false,
        queued: false,
        made: Vec::new(alloc),
        mark: 0,
        order: None,
        plan: Plan::Nothing,
    })
}

/// A connection for each script, in this order.
pub(crate) fn connections(
    alloc: Global,
    scripts: &mut VecDeque<Txt>,
) -> Result<Vec<Session>, AllocError>
    requires { Each (λ s. length s < 2 ^ 32) scripts.old.items }
    ensures { IfOk result (λ ss. (scripts_of ss.items ≡ scripts.old.items) × Each IsNew ss.items) }
{
    let mut sessions = Vec::new(alloc);
    'opens: while let Some(script) = scripts.pop_front() {
        sessions.push(connection(alloc, script)?)?;
    }
    Ok(sessions)
}
