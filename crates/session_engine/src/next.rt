//! Which step a connection makes next.

ghost use Rattle.std.specs.Prelude.{◌≡◌, nat_le, length};
ghost use Rattle.session_engine.specs.Pacing.{next_of, next_of_fill, next_of_make, next_of_plan, next_of_scan};

use crate::session::{Fill, Make, Phase, Plan, Scan, Session, Where};
use dby_types::number::RowId;

/// What a bound statement does next: a query's steps, an INSERT's, one of a CREATE's, and that of a command.
#[derive(Clone, Copy, Debug, PartialEq, Eq)]
pub enum Work {
    /// It looks for the first row behind the one that it has passed last.
    Seek(Option<RowId>),
    Read(RowId),
    Answer,
    Widen,
    Fill,
    Count,
    Build(Build),
    Command,
}

/// What a CREATE TABLE does next.
#[derive(Clone, Copy, Debug, PartialEq, Eq)]
pub enum Build {
    Make,
    Spread,
    Lay,
    List,
    Done,
}

/// What comes behind a statement: the commit, or the way back.
#[derive(Clone, Copy, Debug, PartialEq, Eq)]
pub enum Close {
    Append,
    Force,
    Acknowledge,
    /// The script has no further statement, and a transaction is open.
    GiveUp,
    Leave,
    Vanish,
}

/// The step that a connection makes next.
#[derive(Clone, Copy, Debug, PartialEq, Eq)]
pub enum Next {
    /// The script has no further statement, and no transaction is open.
    End,
    Begin,
    Resume,
    /// It asks for the dictionary.
    Ask,
    Prepare,
    /// It asks for its table.
    Claim,
    Work(Work),
    Refuse,
    Close(Close),
}

/// Whether all statements of its script have begun.
fn is_through(session: &Session) -> bool
    ensures { result ≡ nat_le (length session.now.spans) session.now.begun }
{
    session.begun >= session.spans.len()
}

/// A query comes to a row, reads it, and so on to the end.
fn next_of_scan(scan: &Scan) -> Work
    ensures { result ≡ next_of_scan scan.now.at scan.now.after }
{
    match scan.at {
        Where::Lost => Work::Seek(scan.after),
        Where::At(rid) => Work::Read(rid),
        Where::Ended => Work::Answer,
    }
}

/// An INSERT makes room for a row, puts it, and so on behind the last.
fn next_of_fill(fill: &Fill) -> Work
    ensures { result ≡ next_of_fill fill.now.rows.items fill.now.has_room }
{
    if fill.rows.is_empty() {
        Work::Count
    } else if fill.has_room {
        Work::Fill
    } else {
        Work::Widen
    }
}

/// A CREATE TABLE makes its container, makes room for a catalog row and puts it, and so on behind the last.
fn next_of_make(make: &Make) -> Build
    ensures { result ≡ next_of_make make.now }
{
    let columns = make.def.columns.len();
    if !make.made {
        Build::Make
    } else if make.done > columns {
        Build::Done
    } else if !make.has_room {
        Build::Spread
    } else if make.done < columns {
        Build::Lay
    } else {
        Build::List
    }
}

/// What a bound statement does next.
fn next_of_plan(plan: &Plan) -> Work
    ensures { result ≡ next_of_plan plan.now }
{
    match plan {
        Plan::Select(scan) => next_of_scan(scan),
        Plan::Insert(fill) => next_of_fill(fill),
        Plan::Create(make) => Work::Build(next_of_make(make)),
        _ => Work::Command,
    }
}

/// What a connection does next. It ends only where no transaction is open and its script is through.
pub(crate) fn next_step(session: &Session) -> Next
    ensures { result ≡ next_of session.now }
{
    match session.phase {
        Phase::Idle => if is_through(session) {
            Next::End
        } else {
            Next::Begin
        },
        Phase::Resting => if is_through(session) {
            Next::Close(Close::GiveUp)
        } else {
            Next::Resume
        },
        Phase::Asking => Next::Ask,
        Phase::Preparing => Next::Prepare,
        Phase::Claiming => Next::Claim,
        Phase::Working => Next::Work(next_of_plan(&session.plan)),
        Phase::Refusing => Next::Refuse,
        Phase::Committing => Next::Close(Close::Append),
        Phase::Forcing => Next::Close(Close::Force),
        Phase::Acknowledging => Next::Close(Close::Acknowledge),
        Phase::Leaving => if session.opened {
            Next::Close(Close::Leave)
        } else {
            Next::Close(Close::Vanish)
        },
    }
}
