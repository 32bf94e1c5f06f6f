//! What operators give of values.

ghost use Rattle.std.specs.Prelude.{◌≡◌, ℤ, Option};
ghost use Rattle.expr_model.specs.Arithmetic as meaning;

use dby_types::state::SqlState;
use dby_types::value::{Ty, Value};
use expr_model::evaluated::Evaluated;
use sql_ast::bound::Arithmetic;
use sql_ast::expression::Comparison;
use std::cmp::Ordering;
use value_compare::logic::not;
use value_compare::order::compared;
use value_compare::storing::is_number_of;

/// A number of this type, or 22003.
pub fn in_range(ty: Ty, n: i64) -> Evaluated
    ensures { result ≡ meaning.in_range ty n }
{
    if is_number_of(ty, n) {
        Evaluated::Value(Value::Num(n))
    } else {
        Evaluated::Sql(SqlState::OutOfRange)
    }
}

fn sum(ty: Ty, a: i64, b: i64) -> Evaluated
    ensures { result ≡ meaning.computed Arithmetic.Add ty a b }
{
    match a.checked_add(b) {
        Some(n) => in_range(ty, n),
        None => Evaluated::Sql(SqlState::OutOfRange),
    }
}

fn difference(ty: Ty, a: i64, b: i64) -> Evaluated
    ensures { result ≡ meaning.computed Arithmetic.Subtract ty a b }
{
    match a.checked_sub(b) {
        Some(n) => in_range(ty, n),
        None => Evaluated::Sql(SqlState::OutOfRange),
    }
}

fn product(ty: Ty, a: i64, b: i64) -> Evaluated
    ensures { result ≡ meaning.computed Arithmetic.Multiply ty a b }
{
    match a.checked_mul(b) {
        Some(n) => in_range(ty, n),
        None => Evaluated::Sql(SqlState::OutOfRange),
    }
}

/// A quotient toward zero, or 22012.
fn quotient(ty: Ty, a: i64, b: i64) -> Evaluated
    ensures { result ≡ meaning.computed Arithmetic.Divide ty a b }
{
    if b == 0 {
        return Evaluated::Sql(SqlState::DivisionByZero);
    }
    match a.checked_div(b) {
        Some(n) => in_range(ty, n),
        None => Evaluated::Sql(SqlState::OutOfRange),
    }
}

/// Two numbers put together in a type.
fn computed(op: Arithmetic, ty: Ty, a: i64, b: i64) -> Evaluated
    ensures { result ≡ meaning.computed op ty a b }
{
    match op {
        Arithmetic::Add => sum(ty, a, b),
        Arithmetic::Subtract => difference(ty, a, b),
        Arithmetic::Multiply => product(ty, a, b),
        Arithmetic::Divide => quotient(ty, a, b),
    }
}

/// Two values put together in a type: NULL where one is NULL.
pub fn arithmetic(op: Arithmetic, ty: Ty, a: &Value, b: &Value) -> Evaluated
    ensures { result ≡ meaning.arithmetic op ty a.now b.now }
{
    match (a, b) {
        (Value::Num(a), Value::Num(b)) => computed(op, ty, *a, *b),
        _ => Evaluated::Value(Value::Null),
    }
}

/// A value with the other sign.
pub fn negated(ty: Ty, a: &Value) -> Evaluated
    ensures { result ≡ meaning.negated ty a.now }
{
    match a {
        Value::Num(a) => match a.checked_neg() {
            Some(n) => in_range(ty, n),
            None => Evaluated::Sql(SqlState::OutOfRange),
        },
        _ => Evaluated::Value(Value::Null),
    }
}

/// The test that a comparison makes of an order.
fn passes(op: Comparison, order: Ordering) -> bool
    ensures { result ≡ meaning.passes op order }
{
    match op {
        Comparison::Equal => order.is_eq(),
        Comparison::NotEqual => order.is_ne(),
        Comparison::Less => order.is_lt(),
        Comparison::LessEqual => order.is_le(),
        Comparison::Greater => order.is_gt(),
        Comparison::GreaterEqual => order.is_ge(),
    }
}

/// A comparison of two values: unknown where one is NULL.
pub fn comparison(op: Comparison, a: &Value, b: &Value) -> Value
    ensures { result ≡ meaning.comparison op a.now b.now }
{
    match compared(a, b) {
        Some(order) => Value::Bool(passes(op, order)),
        None => Value::Null,
    }
}

/// A test behind NOT, or as it stands.
pub fn denied(deny: bool, tested: Value) -> Value
    ensures { result ≡ meaning.denied deny tested }
{
    if deny { not(&tested) } else { tested }
}
