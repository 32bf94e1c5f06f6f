//! Values and rows.

use crate::number::RowId;
use crate::seq::Seq;

/// A text, as its bytes, which are UTF-8.
pub type Txt = Seq<u8>;

/// The name of a table, a column or an index, as it is kept: folded, or as it stood within quotes.
pub type Name = Txt;

pub type Names = Seq<Name>;

/// The type of a column or an expression.
#[derive(Clone, Copy, Debug, PartialEq, Eq)]
pub enum Ty {
    /// SMALLINT, 16 bits.
    Small,
    /// INTEGER, 32 bits.
    Int,
    /// BIGINT, 64 bits.
    Big,
    Bool,
    /// VARCHAR of at most this many bytes.
    Text(u16),
}

/// A value of SQL.
#[derive(Debug, Drop, PartialEq, Eq, Hash)]
pub enum Value {
    Null,
    Num(i64),
    Bool(bool),
    Text(Txt),
}

pub type Row = Seq<Value>;

pub type Rows = Seq<Row>;

/// The key of an entry of an index. The full key has the row id where it doesn't stand by its values alone.
#[derive(Debug, Drop)]
pub struct Key {
    pub values: Row,
    pub rid: Option<RowId>,
}
