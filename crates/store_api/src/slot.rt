//! Rows of heaps, and changes that stand.

use dby_types::number::RowId;
use dby_types::value::Row;

/// A row of a heap, live or marked as deleted.
#[derive(Debug, Drop)]
pub struct Slot {
    pub row: Row,
    pub marked: bool,
}

/// A change that stands, with what its undo puts back.
#[derive(Debug, Drop)]
pub enum Item {
    /// A row was put, set or marked. Before it this stood there, or nothing.
    Changed {
        table: u32,
        rid: RowId,
        before: Option<Slot>,
    },
    /// A container was made.
    Created(u32),
    /// A container is to be dropped once its transaction is committed.
    Discarded(u32),
}
