//! What a connection waits for, entry by entry.

ghost use Rattle.std.specs.Prelude.{◌≡◌, ◌==◌, ℕ, None};
ghost use Rattle.sql_forms.specs.declared.form.Form.{Form};
ghost use Rattle.journal_model.specs.World.{text_in};
ghost use Rattle.sql_commands.specs.Commands.{command_of};
ghost use Rattle.session_model.specs.Orders.{order_of, order_from};
ghost use Rattle.session_model.specs.World.{after_answered, after_refused, ends_if, wants_log, is_none};
ghost use Rattle.session_text.specs.Hearing.{stage_of, told_of, waiting_of, txn_of, hearing_of};
ghost use Rattle.session_text.specs.Text.{is_txn, waits_for, when_answered, switched_by, switched, when_refused, when_acknowledged, when_rolled_back, own_after, is_own, txn_at, hearing_after};

use command_reader::reader::command_of_text;
use dby_types::answer;
use dby_types::number::TxnNo;
use dby_types::state::SqlState;
use journal_model::journal;
use journal_model::journal::Entry;
use sql_ast::statement::Statement;
use sql_commands::command::Command;

/// Where a statement is told.
#[derive(Clone, Copy)]
pub enum End {
    /// At its answer or refusal.
    Here,
    /// Where its transaction's commit is acknowledged.
    Commit,
    /// Where its transaction is rolled back.
    Rollback,
}

/// What a statement is told.
#[derive(Clone, Copy)]
pub enum Told<'a> {
    Answer(&'a answer::Answer),
    Refusal(&'a journal::Refusal),
}

/// What a connection waits for.
#[derive(Clone, Copy)]
pub enum Waiting<'a> {
    Idle,
    /// Its statement of this text, which began its transaction or didn't.
    Asked(&'a [u8], bool),
    /// The end of its transaction, upon which it is told.
    Due(End, Told<'a>),
}

/// A connection as it is heard: its autocommit, its open transaction, and what it waits for.
#[derive(Clone, Copy)]
pub struct Hearing<'a> {
    pub automatic: bool,
    pub txn: Option<TxnNo>,
    pub waiting: Waiting<'a>,
}

/// Whether an open transaction is this one.
pub(crate) fn is_open(kept: Option<TxnNo>, txn: TxnNo) -> bool
    ensures { result ≡ is_txn txn.0 (txn_of kept) }
{
    match kept {
        None => false,
        Some(t) => t.0 == txn.0,
    }
}

fn is_free(kept: Option<TxnNo>) -> bool
    ensures { result ≡ is_none (txn_of kept) }
{
    match kept {
        None => true,
        Some(_txn) => false,
    }
}

/// Where an order ends that commits with autocommit.
fn end_if(commits: bool) -> End
    ensures { stage_of result ≡ ends_if commits }
{
    if commits { End::Commit } else { End::Here }
}

/// Where the answer of a statement is told.
fn end_of_command(command: Option<Command>, automatic: bool, first: bool) -> End
    ensures { stage_of result ≡ after_answered (order_from command None) automatic first }
{
    match command {
        Some(Command::Commit) => End::Commit,
        Some(Command::Rollback) => End::Rollback,
        Some(Command::SetIsolation(_level)) => End::Commit,
        Some(Command::Autocommit(on)) => end_if(on || (automatic || first)),
        None => end_if(automatic),
    }
}

/// Where the answer of this text is told.
pub(crate) fn end_of(text: &[u8], automatic: bool, first: bool) -> End
    ensures { stage_of result ≡ after_answered (order_of text.now) automatic first }
{
    end_of_command(command_of_text(text), automatic, first)
}

fn wants_log(why: &journal::Refusal) -> bool
    ensures { result ≡ wants_log why.now }
{
    match why {
        journal::Refusal::Sql { state, rows: _ } => match state {
            SqlState::LogSpent => true,
            _ => false,
        },
        journal::Refusal::Memory => false,
    }
}

/// Where a refusal is told.
pub(crate) fn end_of_refusal(why: &journal::Refusal, automatic: bool, first: bool) -> End
    ensures { stage_of result ≡ after_refused why.now automatic first }
{
    if automatic || (wants_log(why) && first) {
        End::Rollback
    } else {
        End::Here
    }
}

fn wait(end: End, told: Told) -> Waiting
    ensures { waiting_of result ≡ waits_for (stage_of end) (told_of told.entry) }
{
    match end {
        End::Here => Waiting::Idle,
        _ => Waiting::Due(end, told),
    }
}

/// Behind an answer.
fn answered<'a>(automatic: bool, waiting: Waiting<'a>, answer: &'a answer::Answer) -> Waiting<'a>
    ensures { waiting_of result ≡ when_answered automatic (waiting_of waiting.entry) answer.now }
{
    match waiting {
        Waiting::Asked(text, first) => wait(end_of(text, automatic, first), Told::Answer(answer)),
        _ => waiting,
    }
}

fn switched_by(command: Option<Command>, automatic: bool) -> bool
    ensures { result ≡ switched_by command automatic }
{
    match command {
        Some(Command::Autocommit(on)) => on,
        _ => automatic,
    }
}

/// Autocommit behind an answer.
fn switched(automatic: bool, waiting: Waiting) -> bool
    ensures { result ≡ switched automatic (waiting_of waiting.entry) }
{
    match waiting {
        Waiting::Asked(text, _first) => switched_by(command_of_text(text), automatic),
        _ => automatic,
    }
}

/// Behind a refusal.
fn refused<'a>(automatic: bool, waiting: Waiting<'a>, why: &'a journal::Refusal) -> Waiting<'a>
    ensures { waiting_of result ≡ when_refused automatic (waiting_of waiting.entry) why.now }
{
    match waiting {
        Waiting::Asked(_text, first) => wait(
            end_of_refusal(why, automatic, first),
            Told::Refusal(why),
        ),
        _ => waiting,
    }
}

/// Behind the acknowledgement of its transaction.
fn acknowledged(waiting: Waiting) -> Waiting
    ensures { waiting_of result ≡ when_acknowledged (waiting_of waiting.entry) }
{
    match waiting {
        Waiting::Due(End::Commit, _told) => Waiting::Idle,
        _ => waiting,
    }
}

/// Behind the rollback of its transaction.
fn rolled_back(waiting: Waiting) -> Waiting
    ensures { waiting_of result ≡ when_rolled_back (waiting_of waiting.entry) }
{
    match waiting {
        Waiting::Due(End::Rollback, _told) => Waiting::Idle,
        _ => waiting,
    }
}

fn text_of(statement: &Statement) -> &[u8]
    ensures { result.now ≡ text_in statement.now }
{
    match statement {
        Statement::Unread(text) => text.as_slice(),
        _ => &[],
    }
}

/// What is heard behind an entry of the connection's own transaction.
fn after_own<'a>(hearing: Hearing<'a>, entry: &'a Entry) -> Hearing<'a>
    ensures { hearing_of result ≡ own_after (hearing_of hearing.entry) entry.now }
{
    match entry {
        Entry::Answered { answer, .. } => Hearing {
            automatic: switched(hearing.automatic, hearing.waiting),
            txn: hearing.txn,
            waiting: answered(hearing.automatic, hearing.waiting, answer),
        },
        Entry::Refused { why, .. } => Hearing {
            automatic: hearing.automatic,
            txn: hearing.txn,
            waiting: refused(hearing.automatic, hearing.waiting, why),
        },
        Entry::Acknowledged(_txn) => Hearing {
            automatic: hearing.automatic,
            txn: None,
            waiting: acknowledged(hearing.waiting),
        },
        Entry::RolledBack(_txn) => Hearing {
            automatic: hearing.automatic,
            txn: None,
            waiting: rolled_back(hearing.waiting),
        },
        _ => hearing,
    }
}

/// The transaction whose answer, refusal or end an entry is.
fn txn_of(entry: &Entry) -> Option<TxnNo>
    ensures { txn_of result ≡ txn_at entry.now }
{
    match entry {
        Entry::Answered { txn, .. } => Some(*txn),
        Entry::Refused { txn, .. } => Some(*txn),
        Entry::Acknowledged(txn) => Some(*txn),
        Entry::RolledBack(txn) => Some(*txn),
        _ => None,
    }
}

/// Whether an entry is the answer, the refusal or the end of the connection's open transaction.
pub(crate) fn is_own(hearing: Hearing, entry: &Entry) -> bool
    ensures { result ≡ is_own (hearing_of hearing.entry) (txn_at entry.now) }
{
    match txn_of(entry) {
        Some(txn) => is_open(hearing.txn, txn),
        None => false,
    }
}

/// What is heard behind an entry.
pub(crate) fn after<'a>(conn: u32, hearing: Hearing<'a>, entry: &'a Entry) -> Hearing<'a>
    ensures { hearing_of result ≡ hearing_after conn (hearing_of hearing.entry) entry.now }
{
    match entry {
        Entry::Started {
            txn,
            conn: of,
            statement,
            ..
        } => {
            if of.0 == conn {
                Hearing {
                    automatic: hearing.automatic,
                    txn: Some(*txn),
                    waiting: Waiting::Asked(text_of(statement), is_free(hearing.txn)),
                }
            } else {
                hearing
            }
        }
        _ => if is_own(hearing, entry) {
            after_own(hearing, entry)
        } else {
            hearing
        },
    }
}
