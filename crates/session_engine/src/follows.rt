//! What a connection does once its statement is told.

ghost use Rattle.std.specs.Prelude.{◌≡◌, ◌≤◌, Some};
ghost use Rattle.session_model.specs.declared.order.Order.TheVariants as ordered;
ghost use Rattle.session_model.specs.Orders.{told_of};
ghost use Rattle.session_model.specs.World.{after_answered, after_refused, ends_if, wants_log};
ghost use Rattle.session_engine.specs.Follows.{Follows, level_set, automatic_set};
ghost use Rattle.session_engine.specs.State.{ends_in};

use crate::session::Phase;
use dby_types::answer::Answer;
use dby_types::number::Level;
use dby_types::state::SqlState;
use journal_model::journal::Refusal;
use sql_commands::command::Command;

/// What a command is told.
pub(crate) fn told(command: Command) -> Answer
    ensures { result ≡ told_of command }
{
    match command {
        Command::Commit => Answer::Committed,
        Command::Rollback => Answer::RolledBack,
        Command::Autocommit(_) => Answer::Done,
        Command::SetIsolation(_) => Answer::Done,
    }
}

/// A command commits or rolls back; `AUTOCOMMIT OFF` keeps open what it has not begun itself.
pub(crate) fn phase_answered(command: Command, automatic: bool, first: bool) -> Phase
    ensures { Follows result (after_answered (Some (ordered.Command command)) automatic first) }
{
    match command {
        Command::Commit => Phase::Committing,
        Command::Rollback => Phase::Leaving,
        Command::SetIsolation(_) => Phase::Committing,
        Command::Autocommit(on) => if on || (automatic || first) {
            Phase::Committing
        } else {
            Phase::Resting
        },
    }
}

/// With autocommit a statement commits.
pub(crate) fn phase_done(automatic: bool) -> Phase
    ensures { Follows result (ends_if automatic) }
{
    if automatic {
        Phase::Committing
    } else {
        Phase::Resting
    }
}

fn wants_log(why: &Refusal) -> bool
    ensures { result ≡ wants_log why.now }
{
    match why {
        Refusal::Sql { state, rows: _ } => matches!(state, SqlState::LogSpent),
        Refusal::Memory => false,
    }
}

/// With autocommit a refusal rolls back, and so does one for want of log room of a transaction's first statement.
pub(crate) fn phase_refused(why: &Refusal, automatic: bool, first: bool) -> Phase
    ensures { Follows result (after_refused why.now automatic first) }
{
    if automatic || (wants_log(why) && first) {
        Phase::Leaving
    } else {
        Phase::Resting
    }
}

/// How many entries a connection may still have to put, besides those of its changes.
pub(crate) fn ends(phase: Phase) -> usize
    ensures exact { result ≡ ends_in phase }
    ensures few { result ≤ 3 }
{
    match phase {
        Phase::Idle => 0,
        Phase::Asking | Phase::Preparing | Phase::Claiming | Phase::Working => 3,
        Phase::Refusing | Phase::Committing => 2,
        Phase::Resting | Phase::Forcing | Phase::Acknowledging | Phase::Leaving => 1,
    }
}

/// The level that a command leaves.
pub(crate) fn level_after(command: Command, level: Level) -> Level
    ensures { result ≡ level_set command level }
{
    match command {
        Command::SetIsolation(set) => set,
        _ => level,
    }
}

/// The autocommit that a command leaves.
pub(crate) fn automatic_after(command: Command, automatic: bool) -> bool
    ensures { result ≡ automatic_set command automatic }
{
    match command {
        Command::Autocommit(on) => on,
        _ => automatic,
    }
}
