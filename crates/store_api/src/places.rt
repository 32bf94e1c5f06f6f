//! Who holds places of a store, and where they are.

use dby_types::number::RowId;
use dby_types::value::Key;

/// Who holds pages: 0 is the daemon, and c is connection c.
pub type Actor = u32;

/// A place in a heap: at a row, or behind the last one.
#[derive(Clone, Copy, Debug, PartialEq, Eq)]
pub struct Place {
    pub table: u32,
    pub at: Option<RowId>,
}

/// A place in a tree: the greatest entry strictly below a key, or the greatest one not above it.
#[derive(Debug, Drop)]
pub enum Bound {
    Below(Key),
    UpTo(Key),
}

/// What is looked for: the first row of a heap behind a row id, or the first of all; or an entry of a tree. No store has trees yet.
#[derive(Debug, Drop)]
pub enum Target {
    Heap { table: u32, after: Option<RowId> },
    Tree { index: u32, bound: Bound },
}

/// What stands at the place that an actor holds: a row, live or marked as deleted, or nothing, behind the last row.
#[derive(Clone, Copy, Debug, PartialEq, Eq)]
pub enum At {
    Row { rid: RowId, marked: bool },
    End,
}

/// What room is made for: a row that is to be put, or an entry of a tree. No store has trees yet.
#[derive(Debug, Drop)]
pub enum Room {
    Heap { table: u32 },
    Entry { index: u32, key: Key },
}
