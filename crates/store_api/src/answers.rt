//! What the calls of a store answer.

use crate::places::Actor;
use dby_types::number::{Damage, RowId};
use dby_types::state::SqlState;
use dby_types::value::Row;

/// Why a call did nothing.
#[derive(Clone, Copy, Debug, PartialEq, Eq)]
pub enum StoreAnswer {
    /// The disk failed in this call, or the store keeps that it did.
    Failed,
    /// Bytes that were read fail their sum or their format, or the store keeps that some did.
    Damaged(Damage),
    /// No further page or container (`PagesSpent`), or no further log room or transaction number (`LogSpent`).
    Full(SqlState),
    /// Want of memory.
    Memory,
}

/// How a call that looks for a page ended.
#[derive(Clone, Copy, Debug, PartialEq, Eq)]
pub enum Moved {
    Reached,
    /// One more page was fixed, and the call is to be made again.
    Onward,
    /// This actor holds the page that is wanted, and nothing changed.
    Held(Actor),
}

/// A row as it was read.
#[derive(Debug, Drop)]
pub enum RowRead {
    Row { row: Row, marked: bool },
    /// Nothing stands there.
    Absent,
    /// This actor holds the page that is wanted, and nothing changed.
    Held(Actor),
}

/// How the making of a container ended.
#[derive(Clone, Copy, Debug, PartialEq, Eq)]
pub enum Made {
    /// It stands, with this number, which no container had before.
    Number(u32),
    /// One more page was fixed, and the call is to be made again.
    Onward,
}

/// How an undo ended.
#[derive(Clone, Copy, Debug, PartialEq, Eq)]
pub enum Undo {
    /// A row is as it stood before the transaction's newest change. A row that was put stays as a marked one.
    Undid { table: u32, rid: RowId },
    /// A container that was made is gone, or one that was to be dropped stays.
    UndidContainer,
    /// One more page was fixed, and the call is to be made again.
    Onward,
    /// This actor holds the page that is wanted, and nothing changed.
    Held(Actor),
    /// No more changes stand than were asked for.
    Done,
}
