//! Second values like given ones.

ghost use Rattle.std.specs.Prelude.{◌≡◌, ◌++◌, IfOk, OnOk};

use crate::seq::Seq;
use crate::value::{Row, Txt, Value};
use std::alloc::{AllocError, Global};

/// A second text like this one.
pub fn copy_text(alloc: Global, text: &[u8]) -> Result<Txt, AllocError>
    ensures { IfOk result (λ t. t ≡ text.now) }
{
    Ok(Seq::from_vec(Vec::from_slice(alloc, text)?))
}

/// A second value like this one.
pub fn copy_value(alloc: Global, value: &Value) -> Result<Value, AllocError>
    ensures { IfOk result (λ v. v ≡ value.now) }
{
    match value {
        Value::Null => Ok(Value::Null),
        Value::Num(n) => Ok(Value::Num(*n)),
        Value::Bool(b) => Ok(Value::Bool(*b)),
        Value::Text(text) => Ok(Value::Text(copy_text(alloc, text.as_slice())?)),
    }
}

/// A second row like this one.
pub fn copy_row(alloc: Global, row: &[Value]) -> Result<Row, AllocError>
    ensures { IfOk result (λ r. r ≡ row.now) }
{
    let mut copy = Vec::with_capacity(alloc, row.len())?;
    for value in row {
        copy.push(copy_value(alloc, value)?)?;
    }
    Ok(Seq::from_vec(copy))
}
