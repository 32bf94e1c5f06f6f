//! The types of the journal.

use dby_types::answer::{Answer, Rids, Tuples};
use dby_types::number::{ConnNo, Level, RowId, TxnNo};
use dby_types::seq::Seq;
use dby_types::state::SqlState;
use dby_types::value::Row;
use sql_ast::statement::Statement;

/// Why a statement is refused.
#[derive(Debug, Drop)]
pub enum Refusal {
    /// An SQLSTATE, and the rows that show it.
    Sql { state: SqlState, rows: Rids },
    /// Want of memory.
    Memory,
}

/// What happened. Entries are numbered from 0.
#[derive(Debug, Drop)]
pub enum Entry {
    /// A statement of a connection began, in a transaction. It carries its text as the script has it.
    Started {
        txn: TxnNo,
        conn: ConnNo,
        level: Level,
        statement: Statement,
    },
    /// The running statement put, changed or took away a row.
    Did {
        txn: TxnNo,
        table: u32,
        rid: RowId,
        old: Option<Row>,
        new: Option<Row>,
    },
    /// The transaction's latest standing change was taken back: the Did with this number.
    Undone {
        txn: TxnNo,
        did: u64,
    },
    /// The running statement has its answer. The tuples were read between these two places.
    Answered {
        txn: TxnNo,
        answer: Answer,
        joined: Tuples,
        from: u64,
        to: u64,
    },
    /// The running statement is refused.
    Refused {
        txn: TxnNo,
        why: Refusal,
    },
    Committed(TxnNo),
    /// The commit is durable, and its connection may be told.
    Acknowledged(TxnNo),
    RolledBack(TxnNo),
}

pub type Entries = Seq<Entry>;

/// The actual history of an engine, kept whole while the engine lives.
#[derive(Debug, Drop)]
pub struct Journal {
    pub entries: Entries,
}
