//! Expressions as a text spells them. Brackets are kept, since they count for depth.

use dby_types::value::{Name, Txt};

#[derive(Clone, Copy, Debug, PartialEq, Eq)]
pub enum Comparison {
    Equal,
    NotEqual,
    Less,
    LessEqual,
    Greater,
    GreaterEqual,
}

/// `+` or `-`.
#[derive(Clone, Copy, Debug, PartialEq, Eq)]
pub enum Sum {
    Plus,
    Minus,
}

/// `*` or `/`.
#[derive(Clone, Copy, Debug, PartialEq, Eq)]
pub enum Product {
    Times,
    Over,
}

/// An aggregate over the values of an expression.
#[derive(Clone, Copy, Debug, PartialEq, Eq)]
pub enum Aggregate {
    Count,
    Sum,
    Min,
    Max,
}

/// An expression. The flag of a test says that it stands behind NOT.
#[derive(Debug, Drop)]
pub enum Expression {
    Or(Box<Expression>, Box<Expression>),
    And(Box<Expression>, Box<Expression>),
    Not(Box<Expression>),
    Compare(Comparison, Box<Expression>, Box<Expression>),
    IsNull(bool, Box<Expression>),
    Between(bool, Box<Expression>, Box<Expression>, Box<Expression>),
    In(bool, Box<Expression>, Vec<Expression>),
    Add(Sum, Box<Expression>, Box<Expression>),
    Multiply(Product, Box<Expression>, Box<Expression>),
    Sign(Sum, Box<Expression>),
    /// A literal with its sign; 2^63 stands behind a minus alone.
    Number(Sum, u64),
    Text(Txt),
    Truth(bool),
    Column(Name),
    /// A column of a table: the table's name, and the column's.
    ColumnOf(Name, Name),
    Brackets(Box<Expression>),
    /// COUNT(*).
    CountAll,
    Call(Aggregate, Box<Expression>),
}
