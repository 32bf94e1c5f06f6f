//! What an aggregate gives of the values of a group.

ghost use Rattle.std.specs.Prelude.{◌≡◌, ◌+◌, ◌*◌, ◌<◌, ◌≤◌, ◌^◌, ℕ, ℤ, pos, neg_ℤ, ◌+ℤ◌, ◌≤ℤ◌, List, length, IfOk};
ghost use Rattle.expr_eval.specs.Totals.{IsWithin};
ghost use Rattle.expr_model.specs.Arithmetic.{in_range as in_range_of};
ghost use Rattle.expr_model.specs.Totals as meaning;

use crate::operator::in_range;
use dby_types::state::SqlState;
use dby_types::value::{Ty, Value};
use expr_model::evaluated::Evaluated;
use sql_ast::expression::Aggregate;
use std::alloc::{AllocError, Global};
use value_compare::logic::is_null;
use value_compare::order::{compare, copy_trimmed};

/// How many values are none of NULL.
fn count(values: &[Value]) -> usize
    ensures within { result ≤ length values.now }
    ensures exact { result ≡ length (meaning.known values.now) }
{
    values.iter().filter(|v| !is_null(*v)).count()
}

/// The number that a value is, and 0 for what is none.
fn number(value: &Value) -> i64
    ensures { result ≡ meaning.number_in value.now }
{
    match value {
        Value::Num(n) => *n,
        _ => 0,
    }
}

/// A total and one value more.
fn plus(sum: i128, value: &Value) -> i128
    requires room { IsWithin (2 ^ 63) sum }
    ensures exact { result ≡ sum +ℤ meaning.number_in value.now }
    ensures within { (k : ℕ) → IsWithin k sum → IsWithin (k + 1) result }
{
    sum + i128::from(number(value))
}

/// The whole total of the numbers.
fn total(values: &[Value]) -> i128
    requires { length values.now < 2 ^ 63 }
    ensures { result ≡ meaning.total_from (pos 0) values.now }
{
    let mut sum = 0;
    for value in values {
        sum = plus(sum, value);
    }
    sum
}

/// A number of this type, or 22003.
fn wide_in_range(ty: Ty, n: i128) -> Evaluated
    ensures { result ≡ in_range_of ty n }
{
    match i64::try_from(n) {
        Ok(n) => in_range(ty, n),
        Err(_) => Evaluated::Sql(SqlState::OutOfRange),
    }
}

/// The sum of the numbers in a type, or 22003 exactly where the whole total is none of it; NULL of no number.
fn sum(ty: Ty, values: &[Value]) -> Evaluated
    requires { length values.now < 2 ^ 63 }
    ensures { result ≡ meaning.sum_of ty (meaning.known values.now) }
{
    if count(values) == 0 {
        Evaluated::Value(Value::Null)
    } else {
        wide_in_range(ty, total(values))
    }
}

/// The lesser of two values.
fn lesser<'a>(a: &'a Value, b: &'a Value) -> &'a Value
    ensures { result.now ≡ meaning.lesser a.now b.now }
{
    if compare(b, a).is_lt() { b } else { a }
}

/// The greater of two values, NULL passed over.
fn greater<'a>(a: &'a Value, b: &'a Value) -> &'a Value
    ensures { result.now ≡ meaning.greater a.now b.now }
{
    if is_null(b) {
        a
    } else if is_null(a) || compare(b, a).is_gt() {
        b
    } else {
        a
    }
}

/// The least value without trailing blanks; NULL of no value.
fn least(alloc: Global, values: &[Value]) -> Result<Value, AllocError>
    ensures { IfOk result (λ v. v ≡ meaning.least values.now) }
{
    let null = Value::Null;
    let mut best = &null;
    for value in values {
        best = lesser(best, value);
    }
    copy_trimmed(alloc, best)
}

/// The greatest value without trailing blanks; NULL of no value.
fn greatest(alloc: Global, values: &[Value]) -> Result<Value, AllocError>
    ensures { IfOk result (λ v. v ≡ meaning.greatest values.now) }
{
    let null = Value::Null;
    let mut best = &null;
    for value in values {
        best = greater(best, value);
    }
    copy_trimmed(alloc, best)
}

/// An aggregate over the values of a group, in the type of its answer. NULLs are passed over.
pub fn aggregate(
    alloc: Global,
    what: Aggregate,
    ty: Ty,
    values: &[Value],
) -> Result<Evaluated, AllocError>
    requires { length values.now < 2 ^ 63 }
    ensures { IfOk result (λ v. v ≡ meaning.aggregate_of what ty values.now) }
{
    match what {
        Aggregate::Count => Ok(Evaluated::Value(Value::Num(count(values) as i64))),
        Aggregate::Sum => Ok(sum(ty, values)),
        Aggregate::Min => {
            let value = least(alloc, values)?;
            Ok(Evaluated::Value(value))
        }
        Aggregate::Max => {
            let value = greatest(alloc, values)?;
            Ok(Evaluated::Value(value))
        }
    }
}
