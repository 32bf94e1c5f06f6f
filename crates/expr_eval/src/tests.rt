//! Expressions and aggregates, worked by hand.

use crate::evaluation::eval;
use crate::operator::{arithmetic, comparison, negated};
use crate::totals::aggregate;
use dby_types::copies::copy_text;
use dby_types::seq::Seq;
use dby_types::state::SqlState;
use dby_types::value::{Row, Ty, Value};
use expr_model::evaluated::Evaluated;
use sql_ast::bound::{Arithmetic, Expr, Node};
use sql_ast::expression::{Aggregate, Comparison};
use std::alloc::{AllocError, Global};
use std::test::Fail;

#[test]
fn keeps_numbers_in_their_types(rt: HostRuntime) {
    let (least, most) = (i64::MIN, i64::MAX);
    let cases = [
        (Arithmetic::Add, Ty::Int, 2147483646, 1, Some(2147483647)),
        (Arithmetic::Add, Ty::Int, 2147483647, 1, None),
        (Arithmetic::Add, Ty::Int, -2147483648, -1, None),
        (Arithmetic::Add, Ty::Big, most, 0, Some(most)),
        (Arithmetic::Add, Ty::Big, most, 1, None),
        (Arithmetic::Subtract, Ty::Big, least, 1, None),
        (Arithmetic::Subtract, Ty::Int, -2147483648, 1, None),
        (
            Arithmetic::Multiply,
            Ty::Int,
            46340,
            46340,
            Some(2147395600),
        ),
        (Arithmetic::Multiply, Ty::Int, 65536, 32768, None),
        (Arithmetic::Multiply, Ty::Big, least, 1, Some(least)),
        (Arithmetic::Multiply, Ty::Big, least, -1, None),
        (Arithmetic::Divide, Ty::Int, -7, 2, Some(-3)),
        (Arithmetic::Divide, Ty::Int, 7, -2, Some(-3)),
        (Arithmetic::Divide, Ty::Int, -2147483648, -1, None),
        (Arithmetic::Divide, Ty::Big, least, -1, None),
    ];
    for (op, ty, a, b, want) in cases {
        let found = arithmetic(op, ty, &Value::Num(a), &Value::Num(b));
        let wanted = match want {
            Some(n) => Evaluated::Value(Value::Num(n)),
            None => Evaluated::Sql(SqlState::OutOfRange),
        };
        assert_eq!(rt; found, wanted, "{a} {b}");
    }
    let by_zero = arithmetic(Arithmetic::Divide, Ty::Int, &Value::Num(1), &Value::Num(0));
    assert_eq!(rt; by_zero, Evaluated::Sql(SqlState::DivisionByZero));
    let null_by_zero = arithmetic(Arithmetic::Divide, Ty::Int, &Value::Null, &Value::Num(0));
    assert_eq!(rt; null_by_zero, Evaluated::Value(Value::Null));
    assert_eq!(rt;
        negated(Ty::Int, &Value::Num(5)),
        Evaluated::Value(Value::Num(-5))
    );
    let too_great = Evaluated::Sql(SqlState::OutOfRange);
    assert_eq!(rt; negated(Ty::Int, &Value::Num(-2147483648)), too_great);
    assert_eq!(rt; negated(Ty::Big, &Value::Num(least)), too_great);
}

/// Each comparison of 1 with 2, of 1 with 1, of 2 with 1; and with NULL, which is unknown, as NULL = NULL is.
#[test]
fn compares_values(rt: HostRuntime) {
    let (one, two, null) = (Value::Num(1), Value::Num(2), Value::Null);
    let cases = [
        (Comparison::Equal, false, true, false),
        (Comparison::NotEqual, true, false, true),
        (Comparison::Less, true, false, false),
        (Comparison::LessEqual, true, true, false),
        (Comparison::Greater, false, false, true),
        (Comparison::GreaterEqual, false, true, true),
    ];
    for (op, below, same, above) in cases {
        assert_eq!(rt; comparison(op, &one, &two), Value::Bool(below));
        assert_eq!(rt; comparison(op, &one, &one), Value::Bool(same));
        assert_eq!(rt; comparison(op, &two, &one), Value::Bool(above));
        assert_eq!(rt; comparison(op, &one, &null), Value::Null);
        assert_eq!(rt; comparison(op, &null, &null), Value::Null);
    }
}

fn number(n: i64) -> Expr {
    Expr {
        node: Node::Literal(Value::Num(n)),
        ty: Ty::Int,
    }
}

/// The column at place 0.
fn column() -> Expr {
    Expr {
        node: Node::Column(0),
        ty: Ty::Int,
    }
}

fn truth(node: Node) -> Expr {
    Expr { node, ty: Ty::Bool }
}

/// `1 = 1 / 0`.
fn refused(alloc: Global) -> Result<Expr, AllocError> {
    let quotient = Node::Arithmetic(
        Arithmetic::Divide,
        Box::new(alloc, number(1))?,
        Box::new(alloc, number(0))?,
    );
    let right = Expr {
        node: quotient,
        ty: Ty::Int,
    };
    Ok(truth(Node::Compare(
        Comparison::Equal,
        Box::new(alloc, number(1))?,
        Box::new(alloc, right)?,
    )))
}

/// A row of one value.
fn row_of(alloc: Global, value: Value) -> Result<Row, AllocError> {
    let mut row = Seq::new(alloc);
    row.push(value)?;
    Ok(row)
}

/// A column and 1, added 200 times: one level each.
#[test]
fn evaluates_deep_expressions(rt: HostRuntime) -> Result<(), Fail> {
    let alloc = rt.alloc();
    let row = row_of(alloc, Value::Num(5))?;
    let mut deep = column();
    for _ in 0..200 {
        let a = Box::new(alloc, deep)?;
        let b = Box::new(alloc, number(1))?;
        deep = Expr {
            node: Node::Arithmetic(Arithmetic::Add, a, b),
            ty: Ty::Int,
        };
    }
    let found = eval(alloc, &deep, &row)?;
    assert_eq!(rt; found, Evaluated::Value(Value::Num(205)));
    Ok(())
}

#[test]
fn stops_where_it_says(rt: HostRuntime) -> Result<(), Fail> {
    let alloc = rt.alloc();
    let row = row_of(alloc, Value::Null)?;
    for (or, first, want) in [
        (true, true, Some(true)),
        (true, false, None),
        (false, false, Some(false)),
        (false, true, None),
    ] {
        let a = Box::new(alloc, truth(Node::Literal(Value::Bool(first))))?;
        let b = Box::new(alloc, refused(alloc)?)?;
        let node = if or { Node::Or(a, b) } else { Node::And(a, b) };
        let wanted = match want {
            Some(b) => Evaluated::Value(Value::Bool(b)),
            None => Evaluated::Sql(SqlState::DivisionByZero),
        };
        assert_eq!(rt; eval(alloc, &truth(node), &row)?, wanted, "{or} {first}");
    }
    Ok(())
}

#[test]
fn finds_members(rt: HostRuntime) -> Result<(), Fail> {
    let alloc = rt.alloc();
    let cases = [
        (Some(2), false, Some(true)),
        (Some(2), true, Some(false)),
        (Some(3), false, None),
        (Some(3), true, None),
        (None, false, None),
    ];
    for (value, deny, want) in cases {
        let row = row_of(alloc, Value::Null)?;
        let left = match value {
            Some(n) => number(n),
            None => column(),
        };
        let mut members = Vec::new(alloc);
        members.push(number(1))?;
        members.push(number(2))?;
        members.push(column())?;
        let node = Node::In(deny, Box::new(alloc, left)?, members);
        let wanted = match want {
            Some(b) => Value::Bool(b),
            None => Value::Null,
        };
        assert_eq!(rt;
            eval(alloc, &truth(node), &row)?,
            Evaluated::Value(wanted),
            "{deny}"
        );
    }
    Ok(())
}

#[test]
fn adds_up_values(rt: HostRuntime) -> Result<(), Fail> {
    let alloc = rt.alloc();
    let most = i64::MAX;
    let whole = [Value::Num(most), Value::Num(1), Value::Null, Value::Num(-1)];
    let all = whole.as_slice();
    let sum = aggregate(alloc, Aggregate::Sum, Ty::Big, all)?;
    assert_eq!(rt; sum, Evaluated::Value(Value::Num(most)));
    let part = aggregate(alloc, Aggregate::Sum, Ty::Big, &all[..2])?;
    assert_eq!(rt; part, Evaluated::Sql(SqlState::OutOfRange));
    let none = aggregate(alloc, Aggregate::Sum, Ty::Big, &all[2..3])?;
    assert_eq!(rt; none, Evaluated::Value(Value::Null));
    let count = aggregate(alloc, Aggregate::Count, Ty::Big, all)?;
    assert_eq!(rt; count, Evaluated::Value(Value::Num(3)));
    let texts = [
        Value::Text(copy_text(alloc, "b ".as_bytes())?),
        Value::Null,
        Value::Text(copy_text(alloc, "a  ".as_bytes())?),
    ];
    let least = aggregate(alloc, Aggregate::Min, Ty::Text(9), &texts)?;
    assert_eq!(rt;
        least,
        Evaluated::Value(Value::Text(copy_text(alloc, "a".as_bytes())?))
    );
    let greatest = aggregate(alloc, Aggregate::Max, Ty::Text(9), &texts)?;
    assert_eq!(rt;
        greatest,
        Evaluated::Value(Value::Text(copy_text(alloc, "b".as_bytes())?))
    );
    Ok(())
}
