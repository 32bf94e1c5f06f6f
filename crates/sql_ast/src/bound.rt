//! Statements bound to a dictionary: tables by number, columns by place, each expression with its type.

use crate::expression::{Aggregate, Comparison};
use crate::statement::{Dropped, TableMode};
use dby_types::definition::{Columns, Places};
use dby_types::number::Level;
use dby_types::seq::Seq;
use dby_types::value::{Name, Ty, Value};

/// What two operands of numbers are put together by.
#[derive(Clone, Copy, Debug, PartialEq, Eq)]
pub enum Arithmetic {
    Add,
    Subtract,
    Multiply,
    Divide,
}

/// A bound expression without its type. Columns stand by their place in the joined row; brackets leave no node.
#[derive(Debug, Drop)]
#[cycle(bound)]
pub enum Node {
    Column(u32),
    Literal(Value),
    Arithmetic(Arithmetic, Box<Expr>, Box<Expr>),
    Negated(Box<Expr>),
    Compare(Comparison, Box<Expr>, Box<Expr>),
    IsNull(bool, Box<Expr>),
    Between(bool, Box<Expr>, Box<Expr>, Box<Expr>),
    In(bool, Box<Expr>, Vec<Expr>),
    And(Box<Expr>, Box<Expr>),
    Or(Box<Expr>, Box<Expr>),
    Not(Box<Expr>),
}

/// A bound expression: its node, and the type of its value.
#[derive(Debug, Drop)]
#[cycle(bound)]
pub struct Expr {
    pub node: Node,
    pub ty: Ty,
}

pub type Exprs = Seq<Expr>;

/// An aggregate of a query: over all tuples, or over an expression's values.
#[derive(Debug, Drop)]
pub enum Total {
    CountAll,
    Over(Aggregate, Expr),
}

/// A column of a query's answer: its name, and the expression over the joined row, or over a group's keys and then its totals.
#[derive(Debug, Drop)]
pub struct Out {
    pub name: Name,
    pub expression: Expr,
}

/// How the joined tuples are grouped: by these places of the joined row, or all as one group where there is no GROUP BY.
#[derive(Debug, Drop)]
pub struct Grouping {
    pub whole: bool,
    pub keys: Places,
    pub totals: Seq<Total>,
}

/// A key of ORDER BY: the place of a column of the answer.
#[derive(Clone, Copy, Debug, PartialEq, Eq)]
pub struct OrderKey {
    pub place: u32,
    pub descends: bool,
}

/// A bound query. The conjuncts are those of ON and then of WHERE, in text order.
#[derive(Debug, Drop)]
pub struct BoundSelect {
    pub distinct: bool,
    pub outs: Seq<Out>,
    pub tables: Seq<u32>,
    pub conjuncts: Exprs,
    pub grouping: Option<Grouping>,
    pub order: Seq<OrderKey>,
}

/// A column that SET changes, and its new value over the old row.
#[derive(Debug, Drop)]
pub struct BoundSet {
    pub column: u32,
    pub value: Expr,
}

/// A key rule of CREATE TABLE.
#[derive(Debug, Drop)]
pub struct BoundKey {
    pub columns: Places,
    pub primary: bool,
}

/// A statement bound to a dictionary.
#[derive(Debug, Drop)]
pub enum BoundStatement {
    CreateTable {
        name: Name,
        columns: Columns,
        keys: Seq<BoundKey>,
    },
    CreateIndex {
        unique: bool,
        name: Name,
        table: u32,
        columns: Places,
    },
    Drop {
        what: Dropped,
        number: u32,
    },
    /// The tuples have a value for each column of the table, in its order.
    Insert {
        table: u32,
        tuples: Seq<Exprs>,
    },
    Update {
        table: u32,
        sets: Seq<BoundSet>,
        conjuncts: Exprs,
    },
    Delete {
        table: u32,
        conjuncts: Exprs,
    },
    Select(Box<BoundSelect>),
    LockTable {
        table: u32,
        mode: TableMode,
    },
    SetIsolation(Level),
    Autocommit(bool),
    Commit,
    Rollback,
}
