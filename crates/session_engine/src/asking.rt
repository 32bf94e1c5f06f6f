//! What a connection asks for, and the room that asking takes.

ghost use Rattle.std.specs.Prelude.{◌≡◌, ◌+◌, ◌<◌, ◌≤◌, [], OnOk, OnErr, Some, vec_len, vec_capacity};
ghost use Rattle.lock_manager.specs.Table.{lock, spare_of, woken_of};
ghost use Rattle.session_model.specs.Legal.{dictionary_mode};
ghost use Rattle.session_engine.specs.Asking.{wanted, behind, in_want};

use crate::session::{Phase, Plan, Session};
use dby_types::number::TxnNo;
use journal_model::journal::Refusal;
use lock_manager::table::LockTable;
use lock_modes::mode::Mode;
use lock_modes::name::LockName;
use session_model::journal::Locked;
use session_model::order::Order;
use sql_forms::form::Form;
use std::alloc::AllocError;

/// CREATE TABLE has the dictionary alone; any other statement shares it.
fn dictionary_mode(order: &Option<Order>) -> Mode
    ensures { result ≡ dictionary_mode order.now }
{
    match order {
        Some(
            Order::Form(
                Form::CreateTable {
                    name: _name,
                    columns: _columns,
                },
            ),
        ) => Mode::TX,
        _ => Mode::TS,
    }
}

/// The lock that a connection asks for now: the dictionary, or the table of its query or INSERT.
pub(crate) fn wanted(session: &Session) -> Option<(LockName, Mode)>
    ensures { result ≡ wanted session.now.phase session.now.order session.now.plan }
{
    match session.phase {
        Phase::Asking => Some((LockName::Dictionary, dictionary_mode(&session.order))),
        Phase::Claiming => match &session.plan {
            Plan::Select(scan) => Some((LockName::Table(scan.number), Mode::TS)),
            Plan::Insert(fill) => Some((LockName::Table(fill.number), Mode::TX)),
            _ => None,
        },
        _ => None,
    }
}

/// What follows the lock.
pub(crate) fn behind(phase: Phase) -> Phase
    ensures { result ≡ behind phase }
{
    match phase {
        Phase::Asking => Phase::Preparing,
        _ => Phase::Working,
    }
}

/// Room for a request and its grant, beside what is owed already, and for a name of the transaction.
pub(crate) fn room_to_ask(
    events: &mut Vec<Locked>,
    locks: &mut LockTable,
    owed_events: usize,
    waiters: usize,
    txn: TxnNo,
) -> Result<(), AllocError>
    ensures events { events.new.items ≡ events.old.items }
    ensures same { lock locks.new ≡ lock locks.old }
    ensures woken { woken_of locks.new ≡ woken_of locks.old }
    ensures kept { (vec_len events.new ≡ vec_len events.old) × (vec_capacity events.old ≤ vec_capacity events.new) }
    ensures room { OnOk result ((vec_len events.new + (owed_events + waiters + 2) ≤ vec_capacity events.new) × (0 < spare_of locks.new txn)) }
{
    let given = owed_events.checked_add(waiters).ok_or(AllocError)?;
    events.reserve(given.checked_add(2).ok_or(AllocError)?)?;
    locks.reserve(txn, 1)
}

/// There is no memory for what the statement needs: it is to be refused.
pub(crate) fn starve(session: &mut Session)
    ensures { session.new ≡ in_want session.old }
{
    session.phase = Phase::Refusing;
    session.plan = Plan::Refuse(Refusal::Memory);
}
