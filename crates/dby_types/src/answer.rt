//! What a statement is answered, and which rows stood behind it.

use crate::number::RowId;
use crate::seq::Seq;
use crate::value::{Names, Row, Rows};

/// The answer to a statement.
#[derive(Debug, Drop)]
pub enum Answer {
    /// A query's columns and rows.
    Rows { columns: Names, rows: Rows },
    /// The number of rows that were changed.
    Changed(u64),
    Done,
    Committed,
    RolledBack,
}

/// A row as it was read, with the place where it stood.
#[derive(Debug, Drop)]
pub struct Component {
    pub rid: RowId,
    pub row: Row,
}

/// A joined tuple: for each table of FROM, in order, the row that was read.
pub type Tuple = Seq<Component>;

pub type Tuples = Seq<Tuple>;

/// The rows of joined tuples, each put together in FROM order.
pub type Joined = Seq<Row>;

/// A row, by its table and its place.
#[derive(Clone, Copy, Debug, PartialEq, Eq)]
pub struct Rid {
    pub table: u32,
    pub rid: RowId,
}

pub type Rids = Seq<Rid>;
