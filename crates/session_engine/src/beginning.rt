//! A statement begins: its text is read, and room is taken for what must not fail.

ghost use Rattle.std.specs.Prelude.{◌≡◌, ◌+◌, ◌<◌, ◌≤◌, ◌^◌, [], IfOk, OnOk, OnErr, IfSome, vec_len, vec_capacity};
ghost use Rattle.journal_model.specs.Meaning.{is_long};
ghost use Rattle.sql_lexer.specs.Splitting.{spans_of};
ghost use Rattle.session_engine.specs.Beginning.{IsNext, IsRead, HasBoth, begun, away, started, turned_away};

use crate::session::{Phase, Plan, Session};
use crate::text::{order, statement};
use dby_types::number::{ConnNo, Level, TxnNo};
use dby_types::seq::Seq;
use dby_types::state::SqlState;
use dby_types::value::Txt;
use journal_model::journal::{Entry, Refusal};
use session_model::journal::Locked;
use session_model::order::Order;
use sql_ast::statement::Statement;
use std::alloc::{AllocError, Global};

/// The most bytes that a statement may have.
pub const LONGEST_STATEMENT: usize = 65_536;

/// A statement that is to begin. One that is too long isn't read.
#[derive(Drop)]
pub(crate) struct Asked {
    pub text: Txt,
    pub long: bool,
    pub order: Option<Order>,
}

fn is_too_long(text: &Txt) -> bool
    ensures { result ≡ is_long text.now }
{
    text.len() > LONGEST_STATEMENT
}

/// A text, and what it asks for.
fn read(alloc: Global, text: Txt) -> Result<Asked, AllocError>
    ensures { IfOk result (λ a. (a.text ≡ text) × IsRead a) }
{
    let long = is_too_long(&text);
    if long {
        return Ok(Asked {
            text,
            long,
            order: None,
        });
    }
    let order = order(alloc, text.as_slice())?;
    Ok(Asked { text, long, order })
}

/// The next statement of a connection's script, or none behind the last.
fn next(alloc: Global, session: &Session) -> Result<Option<Asked>, AllocError>
    requires { session.now.spans ≡ spans_of session.now.script }
    ensures { IfOk result (IsNext session.now) }
{
    match statement(alloc, &session.script, &session.spans, session.begun)? {
        Some(text) => Ok(Some(read(alloc, text)?)),
        None => Ok(None),
    }
}

/// A number for a new transaction: above all that were given, and free in the store. None behind the last of 64 bits.
pub(crate) fn fresh(last: u64, free: u64) -> Option<TxnNo>
    ensures { IfSome result (λ t. (last < t.0) × (free ≤ t.0)) }
{
    let next = last.checked_add(1)?;
    Some(TxnNo(next.max(free)))
}

/// Room for four entries and an event, beside those that are owed already and the grants of those who wait.
fn make_room(
    entries: &mut Vec<Entry>,
    events: &mut Vec<Locked>,
    owed: usize,
    owed_events: usize,
    waiters: usize,
) -> Result<(), AllocError>
    ensures entries { entries.new.items ≡ entries.old.items }
    ensures events { events.new.items ≡ events.old.items }
    ensures room { OnOk result (HasBoth entries.new events.new (owed + 4) (owed_events + waiters + 1)) }
    ensures kept { OnErr result ((vec_capacity entries.old ≤ vec_capacity entries.new) × (vec_capacity events.old ≤ vec_capacity events.new)) }
{
    entries.reserve(owed.checked_add(4).ok_or(AllocError)?)?;
    let given = owed_events.checked_add(waiters).ok_or(AllocError)?;
    events.reserve(given.checked_add(1).ok_or(AllocError)?)
}

/// The next statement, for which room is taken, or none behind the last.
pub(crate) fn get_ready(
    alloc: Global,
    session: &Session,
    entries: &mut Vec<Entry>,
    events: &mut Vec<Locked>,
    owed: usize,
    owed_events: usize,
    waiters: usize,
) -> Result<Option<Asked>, AllocError>
    requires { session.now.spans ≡ spans_of session.now.script }
    ensures next { IfOk result (IsNext session.now) }
    ensures entries { entries.new.items ≡ entries.old.items }
    ensures events { events.new.items ≡ events.old.items }
    ensures room { OnOk result (HasBoth entries.new events.new (owed + 4) (owed_events + waiters + 1)) }
    ensures kept { OnErr result ((vec_capacity entries.old ≤ vec_capacity entries.new) × (vec_capacity events.old ≤ vec_capacity events.new)) }
{
    let found = next(alloc, session)?;
    make_room(entries, events, owed, owed_events, waiters)?;
    Ok(found)
}

/// Its text alone.
pub(crate) fn text_of(asked: Asked) -> Txt
    ensures { result ≡ asked.text }
{
    asked.text
}

/// The entry of a statement that begins.
pub(crate) fn started(txn: TxnNo, c: usize, level: Level, text: Txt) -> Entry
    requires { c + 1 < 2 ^ 32 }
    ensures { result ≡ started txn c level text }
{
    Entry::Started {
        txn,
        conn: ConnNo(c as u32 + 1),
        level,
        statement: Statement::Unread(text),
    }
}

/// The entry of a statement for whose transaction there is no number.
pub(crate) fn turned_away(alloc: Global, txn: TxnNo) -> Entry
    ensures { result ≡ turned_away txn }
{
    Entry::Refused {
        txn,
        why: Refusal::Sql {
            state: SqlState::LogSpent,
            rows: Seq::new(alloc),
        },
    }
}

fn not_built(alloc: Global) -> Plan
    ensures { result ≡ Plan.Refuse (Refusal.Sql SqlState.NotBuilt []) }
{
    Plan::Refuse(Refusal::Sql {
        state: SqlState::NotBuilt,
        rows: Seq::new(alloc),
    })
}

/// A statement has begun in this transaction. It is to be refused where it is too long.
pub(crate) fn start(
    alloc: Global,
    session: &mut Session,
    txn: TxnNo,
    first: bool,
    mark: u64,
    long: bool,
    order: Option<Order>,
)
    requires { session.old.begun + 1 < 2 ^ 64 }
    ensures { session.new ≡ begun session.old txn first mark long order }
{
    session.begun += 1;
    session.txn = txn;
    session.opened = true;
    session.first = first;
    session.queued = false;
    session.mark = mark;
    session.order = order;
    if long {
        session.phase = Phase::Refusing;
        session.plan = not_built(alloc);
    } else {
        session.phase = Phase::Asking;
        session.plan = Plan::Nothing;
    }
}

/// A statement was refused as it began: its transaction, which the store doesn't have, is to be taken back.
pub(crate) fn turn_away(session: &mut Session, txn: TxnNo)
    requires { session.old.begun + 1 < 2 ^ 64 }
    ensures { session.new ≡ away session.old txn }
{
    session.begun += 1;
    session.txn = txn;
    session.first = true;
    session.phase = Phase::Leaving;
}
