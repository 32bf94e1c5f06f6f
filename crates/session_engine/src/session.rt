//! What a connection is doing.

use dby_types::answer::Component;
use dby_types::definition::TableDef;
use dby_types::number::{Level, RowId, TxnNo};
use dby_types::seq::Seq;
use dby_types::value::{Names, Row, Txt};
use journal_model::journal::Refusal;
use session_model::order::Order;
use sql_commands::command::Command;
use sql_lexer::token::Spans;

/// Where a connection is between two steps.
#[derive(Clone, Copy, Debug, PartialEq, Eq)]
pub enum Phase {
    /// No transaction is open.
    Idle,
    /// The transaction is open, and no statement runs.
    Resting,
    /// The statement asks for the dictionary.
    Asking,
    /// It has the dictionary, and is to be bound.
    Preparing,
    /// It asks for its table.
    Claiming,
    /// It does what it was bound to do.
    Working,
    /// It is refused: what it changed is taken back first.
    Refusing,
    /// Its transaction is to be committed.
    Committing,
    /// The commit record stands, and is to be made durable.
    Forcing,
    /// The commit is durable, and is to be told.
    Acknowledging,
    /// Its transaction is taken back.
    Leaving,
}

/// Where a query is in its table.
#[derive(Clone, Copy, Debug, PartialEq, Eq)]
pub enum Where {
    /// It is to look for the first row behind the one that it has passed last.
    Lost,
    /// That row is here, live or marked.
    At(RowId),
    /// There is none.
    Ended,
}

/// A query's rows so far, and the last row id that it has passed.
#[derive(Debug, Drop)]
pub struct Scan {
    pub number: u32,
    pub names: Names,
    pub at: Where,
    pub after: Option<RowId>,
    pub tuples: Vec<Seq<Component>>,
    pub rows: Vec<Row>,
}

/// An INSERT: its table, the rows that are still to be put, the last one first, and how many there are in all.
#[derive(Debug, Drop)]
pub struct Fill {
    pub number: u32,
    pub rows: Vec<Row>,
    pub count: u64,
    pub has_room: bool,
}

/// A CREATE TABLE: the table, whose number counts once its container stands, and how many of its catalog rows are put.
#[derive(Debug, Drop)]
pub struct Make {
    pub def: TableDef,
    pub made: bool,
    pub done: usize,
    pub has_room: bool,
}

/// What a statement was bound to do.
#[derive(Debug, Drop)]
pub enum Plan {
    Nothing,
    Command(Command),
    Select(Scan),
    Insert(Fill),
    Create(Make),
    Refuse(Refusal),
}

/// A connection, its script, and its transaction.
#[derive(Debug, Drop)]
pub struct Session {
    pub script: Txt,
    pub spans: Spans,
    /// How many statements have begun.
    pub begun: usize,
    pub level: Level,
    pub automatic: bool,
    /// Its transaction was rolled back without a cause: it begins no statement more.
    pub closed: bool,
    pub phase: Phase,
    pub txn: TxnNo,
    /// Its transaction is open in the store.
    pub opened: bool,
    /// The running statement began its transaction.
    pub first: bool,
    /// The running statement's request was queued, and nobody has seen it granted yet.
    pub queued: bool,
    /// The numbers of the changes that stand, the oldest first.
    pub made: Vec<u64>,
    /// How many items stood in the store as the running statement began.
    pub mark: u64,
    /// What the running statement asks for.
    pub order: Option<Order>,
    pub plan: Plan,
}
