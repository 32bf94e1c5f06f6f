//! Statements as a text spells them: a variant for each form of the grammar, a field for each part, in order.

use crate::expression::Expression;
use dby_types::number::Level;
use dby_types::seq::Seq;
use dby_types::value::{Name, Names, Txt, Ty};

/// What follows a column's type.
#[derive(Clone, Copy, Debug, PartialEq, Eq)]
pub enum ColumnMark {
    NotNull,
    PrimaryKey,
    Unique,
}

/// A column of CREATE TABLE.
#[derive(Debug, Drop)]
pub struct ColumnText {
    pub name: Name,
    pub ty: Ty,
    pub marks: Seq<ColumnMark>,
}

/// What stands in the brackets of CREATE TABLE.
#[derive(Debug, Drop)]
pub enum TablePart {
    Column(ColumnText),
    PrimaryKey(Names),
    Unique(Names),
}

/// What DROP takes away.
#[derive(Clone, Copy, Debug, PartialEq, Eq)]
pub enum Dropped {
    Table,
    Index,
}

/// A value of a tuple or of SET.
#[derive(Debug, Drop)]
pub enum Item {
    Null,
    Value(Expression),
}

pub type Items = Seq<Item>;

/// `name = item` of SET.
#[derive(Debug, Drop)]
pub struct SetText {
    pub column: Name,
    pub item: Item,
}

/// An item of SELECT, with the name that it is given.
#[derive(Debug, Drop)]
pub struct OutText {
    pub expression: Expression,
    pub name: Option<Name>,
}

/// What SELECT shows: all columns, or these.
#[derive(Debug, Drop)]
pub enum Shown {
    All,
    These(Seq<OutText>),
}

/// A table of FROM, with its alias.
#[derive(Debug, Drop)]
pub struct TableText {
    pub name: Name,
    pub alias: Option<Name>,
}

/// `JOIN tab ON expr`.
#[derive(Debug, Drop)]
pub struct JoinText {
    pub table: TableText,
    pub condition: Expression,
}

/// An item of FROM: a table, and what is joined to it.
#[derive(Debug, Drop)]
pub struct FromText {
    pub table: TableText,
    pub joins: Seq<JoinText>,
}

/// A column of GROUP BY, with its qualifier.
#[derive(Debug, Drop)]
pub struct GroupText {
    pub table: Option<Name>,
    pub column: Name,
}

/// What ORDER BY names.
#[derive(Debug, Drop)]
pub enum OrderBy {
    Name(Name),
    Position(u64),
}

/// A key of ORDER BY.
#[derive(Debug, Drop)]
pub struct OrderText {
    pub by: OrderBy,
    pub descends: bool,
}

/// A query.
#[derive(Debug, Drop)]
pub struct SelectText {
    pub distinct: bool,
    pub shown: Shown,
    pub from: Seq<FromText>,
    pub condition: Option<Expression>,
    pub group: Seq<GroupText>,
    pub order: Seq<OrderText>,
}

/// The mode of LOCK TABLE.
#[derive(Clone, Copy, Debug, PartialEq, Eq)]
pub enum TableMode {
    Share,
    Exclusive,
}

/// A statement.
#[derive(Debug, Drop)]
pub enum Statement {
    /// The text, as the script has it: what the journal carries. The parser never gives this form.
    Unread(Txt),
    CreateTable {
        name: Name,
        parts: Seq<TablePart>,
    },
    CreateIndex {
        unique: bool,
        name: Name,
        table: Name,
        columns: Names,
    },
    Drop {
        what: Dropped,
        name: Name,
    },
    Insert {
        table: Name,
        columns: Option<Names>,
        tuples: Seq<Items>,
    },
    Update {
        table: Name,
        sets: Seq<SetText>,
        condition: Option<Box<Expression>>,
    },
    Delete {
        table: Name,
        condition: Option<Box<Expression>>,
    },
    Select(Box<SelectText>),
    LockTable {
        table: Name,
        mode: TableMode,
    },
    SetIsolation(Level),
    Autocommit(bool),
    Commit,
    Rollback,
}
