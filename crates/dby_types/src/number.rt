//! Numbers and places: of transactions, connections, rows, pages and log records.

use crate::seq::Seq;

/// The number of a transaction, from 1.
#[derive(Clone, Copy, Debug, PartialEq, Eq, Hash)]
pub struct TxnNo(pub u64);

/// The number of a connection, from 1.
#[derive(Clone, Copy, Debug, PartialEq, Eq, Hash)]
pub struct ConnNo(pub u32);

/// Where a row stands in its table's container: the page, and the slot in it.
#[derive(Clone, Copy, Debug, PartialEq, Eq, Hash)]
pub struct RowId {
    pub page: u32,
    pub slot: u16,
}

/// A page of a container.
#[derive(Clone, Copy, Debug, PartialEq, Eq, Hash)]
pub struct PageId {
    pub container: u32,
    pub page: u32,
}

/// The place of a log record: its segment, and the byte in it.
#[derive(Clone, Copy, Debug, PartialEq, Eq)]
pub struct Lsn {
    pub segment: u32,
    pub offset: u32,
}

/// The isolation level of a transaction: read uncommitted, read committed, repeatable read, serializable.
#[derive(Clone, Copy, Debug, PartialEq, Eq)]
pub enum Level {
    Ur,
    Cs,
    Rs,
    Rr,
}

/// A transaction without an end in the log: its first and its last record.
#[derive(Clone, Copy, Debug, PartialEq, Eq)]
pub struct OpenTxn {
    pub txn: TxnNo,
    pub first: Lsn,
    pub last: Lsn,
}

/// The open transactions, at most 64.
pub type OpenTable = Seq<OpenTxn>;

/// What is wrong with bytes that were read from the disk.
#[derive(Clone, Copy, Debug, PartialEq, Eq)]
pub enum Damage {
    /// The page's stored sum isn't the sum of its bytes.
    Sum {
        page: PageId,
        stored: u64,
        computed: u64,
    },
    /// The field of the page at this byte breaks the format.
    Field {
        page: PageId,
        offset: u32,
    },
    /// No whole record stands at this place of the log.
    Log {
        at: Lsn,
    },
}
