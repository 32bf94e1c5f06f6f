//! The order of values, and which of them are one.

ghost use Rattle.std.specs.Prelude.{◌≡◌, ℕ, IfOk, Option, Some, None};
ghost use Rattle.value_compare.specs.Order as meaning;

use crate::text::{compare_texts, trim};
use dby_types::copies::{copy_text, copy_value};
use dby_types::value::Value;
use std::alloc::{AllocError, Global};
use std::cmp::Ordering;

/// The rank of a value's kind: NULL is above all.
fn rank(value: &Value) -> u8
    ensures { result ≡ meaning.rank value.now }
{
    match value {
        Value::Num(_) => 0,
        Value::Bool(_) => 1,
        Value::Text(_) => 2,
        Value::Null => 3,
    }
}

/// The order of two values, NULL above all: a total order.
pub fn compare(a: &Value, b: &Value) -> Ordering
    ensures { result ≡ meaning.value_cmp a.now b.now }
{
    match (a, b) {
        (Value::Num(a), Value::Num(b)) => a.cmp(b),
        (Value::Bool(a), Value::Bool(b)) => a.cmp(b),
        (Value::Text(a), Value::Text(b)) => compare_texts(a.as_slice(), b.as_slice()),
        _ => rank(a).cmp(&rank(b)),
    }
}

/// Whether two values stand for one group: NULL and NULL do.
pub fn is_same(a: &Value, b: &Value) -> bool
    ensures { result ≡ meaning.same_value a.now b.now }
{
    compare(a, b).is_eq()
}

/// How two values compare in SQL: not at all where one is NULL.
pub fn compared(a: &Value, b: &Value) -> Option<Ordering>
    ensures { result ≡ meaning.compared a.now b.now }
{
    match (a, b) {
        (Value::Num(a), Value::Num(b)) => Some(a.cmp(b)),
        (Value::Bool(a), Value::Bool(b)) => Some(a.cmp(b)),
        (Value::Text(a), Value::Text(b)) => Some(compare_texts(a.as_slice(), b.as_slice())),
        _ => None,
    }
}

/// A copy of a value, a text without its trailing blanks.
pub fn copy_trimmed(alloc: Global, value: &Value) -> Result<Value, AllocError>
    ensures { IfOk result (λ v. v ≡ meaning.trimmed value.now) }
{
    match value {
        Value::Text(text) => Ok(Value::Text(copy_text(alloc, trim(text.as_slice()))?)),
        _ => copy_value(alloc, value),
    }
}
