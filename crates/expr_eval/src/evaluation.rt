//! The value of an expression over a row.

ghost use Rattle.std.specs.Prelude.{◌≡◌, ℕ, IfOk, false};
ghost use Rattle.expr_model.specs.Expression.{any_equal_in, columns_from, value_of};

use crate::operator::{arithmetic, comparison, denied, negated};
use dby_types::copies::copy_value;
use dby_types::value::{Row, Value};
use expr_model::evaluated::Evaluated;
use sql_ast::bound::{Expr, Node};
use sql_ast::expression::Comparison;
use std::alloc::{AllocError, Global};
use value_compare::logic::{and, is_null, is_true, not, or};

/// The value that was evaluated; what refuses it is the whole answer.
macro_rules! value_or_return {
    ($evaluated:expr) => {
        match $evaluated {
            Evaluated::Value(value) => value,
            Evaluated::Sql(why) => return Ok(Evaluated::Sql(why)),
        }
    };
}

/// The value of a column; NULL past the row's end.
fn column(alloc: Global, place: usize, at: usize, row: &[Value]) -> Result<Evaluated, AllocError>
    ensures { IfOk result (λ v. v ≡ Evaluated.Value (columns_from at row.now place)) }
{
    match row.get(place.saturating_sub(at)) {
        Some(value) => {
            let copy = copy_value(alloc, value)?;
            Ok(Evaluated::Value(copy))
        }
        None => Ok(Evaluated::Value(Value::Null)),
    }
}

/// The value of an expression over a row whose first column has the place `at`: operands are evaluated from left to right, once each, and
/// those that can't change the answer not at all.
#[cycle(eval)]
pub fn eval_at(alloc: Global, e: &Expr, at: usize, row: &[Value]) -> Result<Evaluated, AllocError>
    ensures { IfOk result (λ v. v ≡ value_of e.now (columns_from at row.now)) }
{
    match &e.node {
        Node::Column(place) => column(alloc, *place as usize, at, row),
        Node::Literal(value) => {
            let copy = copy_value(alloc, value)?;
            Ok(Evaluated::Value(copy))
        }
        Node::Arithmetic(op, a, b) => {
            let x = value_or_return!(eval_at(alloc, a, at, row)?);
            let y = value_or_return!(eval_at(alloc, b, at, row)?);
            Ok(arithmetic(*op, e.ty, &x, &y))
        }
        Node::Negated(a) => {
            let x = value_or_return!(eval_at(alloc, a, at, row)?);
            Ok(negated(e.ty, &x))
        }
        Node::Compare(op, a, b) => {
            let x = value_or_return!(eval_at(alloc, a, at, row)?);
            let y = value_or_return!(eval_at(alloc, b, at, row)?);
            Ok(Evaluated::Value(comparison(*op, &x, &y)))
        }
        Node::IsNull(deny, a) => {
            let x = value_or_return!(eval_at(alloc, a, at, row)?);
            Ok(Evaluated::Value(denied(*deny, Value::Bool(is_null(&x)))))
        }
        Node::Between(deny, a, b, c) => {
            let x = value_or_return!(eval_at(alloc, a, at, row)?);
            let y = value_or_return!(eval_at(alloc, b, at, row)?);
            let low = comparison(Comparison::GreaterEqual, &x, &y);
            match &low {
                Value::Bool(false) => Ok(Evaluated::Value(denied(*deny, Value::Bool(false)))),
                _ => {
                    let z = value_or_return!(eval_at(alloc, c, at, row)?);
                    let high = comparison(Comparison::LessEqual, &x, &z);
                    Ok(Evaluated::Value(denied(*deny, and(&low, &high))))
                }
            }
        }
        Node::In(deny, a, members) => {
            let x = value_or_return!(eval_at(alloc, a, at, row)?);
            let found = value_or_return!(eval_members(alloc, &x, members.as_slice(), at, row)?);
            Ok(Evaluated::Value(denied(*deny, found)))
        }
        Node::And(a, b) => {
            let x = value_or_return!(eval_at(alloc, a, at, row)?);
            match &x {
                Value::Bool(false) => Ok(Evaluated::Value(Value::Bool(false))),
                _ => {
                    let y = value_or_return!(eval_at(alloc, b, at, row)?);
                    Ok(Evaluated::Value(and(&x, &y)))
                }
            }
        }
        Node::Or(a, b) => {
            let x = value_or_return!(eval_at(alloc, a, at, row)?);
            match &x {
                Value::Bool(true) => Ok(Evaluated::Value(Value::Bool(true))),
                _ => {
                    let y = value_or_return!(eval_at(alloc, b, at, row)?);
                    Ok(Evaluated::Value(or(&x, &y)))
                }
            }
        }
        Node::Not(a) => {
            let x = value_or_return!(eval_at(alloc, a, at, row)?);
            Ok(Evaluated::Value(not(&x)))
        }
    }
}

/// Whether a value equals one of the members, which are evaluated up to the first that it equals.
#[cycle(eval)]
fn eval_members(
    alloc: Global,
    x: &Value,
    members: &[Expr],
    at: usize,
    row: &[Value],
) -> Result<Evaluated, AllocError>
    ensures { IfOk result (λ v. v ≡ any_equal_in (Evaluated.Value (Value.Bool false)) x.now members.now (columns_from at row.now)) }
{
    let mut found = Value::Bool(false);
    for member in members {
        let y = value_or_return!(eval_at(alloc, member, at, row)?);
        found = or(&found, &comparison(Comparison::Equal, x, &y));
        if is_true(&found) {
            return Ok(Evaluated::Value(found));
        }
    }
    Ok(Evaluated::Value(found))
}

/// The value of an expression over a joined row.
pub fn eval(alloc: Global, e: &Expr, row: &Row) -> Result<Evaluated, AllocError>
    ensures { IfOk result (λ v. v ≡ value_of e.now (columns_from 0 row.now)) }
{
    eval_at(alloc, e, 0, row.as_slice())
}
