//! What a column keeps of a value.

ghost use Rattle.std.specs.Prelude.{◌≡◌, ◌≤◌, ◌<◌, ℕ, ℤ, length, Result, Ok, Err};
ghost use Rattle.value_compare.specs.Storing as meaning;

use crate::text::trim;
use dby_types::seq::Seq;
use dby_types::state::SqlState;
use dby_types::value::{Txt, Ty, Value};

/// A number from `low` to `high`.
fn is_between(low: i64, high: i64, n: i64) -> bool
    ensures { result ≡ meaning.is_between low high n }
{
    !(n < low) && !(high < n)
}

/// Whether a number is of this type.
pub fn is_number_of(ty: Ty, n: i64) -> bool
    ensures { result ≡ meaning.is_number_of ty n }
{
    match ty {
        Ty::Small => is_between(-32768, 32767, n),
        Ty::Int => is_between(-2147483648, 2147483647, n),
        Ty::Big => is_between(-9223372036854775808, 9223372036854775807, n),
        Ty::Bool => false,
        Ty::Text(_) => false,
    }
}

/// Whether a type is one of numbers.
pub fn is_number_type(ty: Ty) -> bool
    ensures { result ≡ meaning.is_number_type ty }
{
    match ty {
        Ty::Small => true,
        Ty::Int => true,
        Ty::Big => true,
        Ty::Bool => false,
        Ty::Text(_) => false,
    }
}

/// A number that a column of this type keeps.
fn store_number(ty: Ty, n: i64) -> Result<Value, SqlState>
    ensures { result ≡ meaning.stored_number ty n }
{
    if is_number_of(ty, n) {
        Ok(Value::Num(n))
    } else if is_number_type(ty) {
        Err(SqlState::OutOfRange)
    } else {
        Err(SqlState::NotStorable)
    }
}

/// A text in at most `limit` bytes, without the blanks past them.
fn store_text(limit: u16, text: Txt) -> Result<Value, SqlState>
    ensures { result ≡ meaning.stored_text limit text }
{
    let most = limit as usize;
    if text.len() <= most {
        return Ok(Value::Text(text));
    }
    if trim(text.as_slice()).len() <= most {
        let mut bytes = text.into_vec();
        bytes.truncate(most);
        Ok(Value::Text(Seq::from_vec(bytes)))
    } else {
        Err(SqlState::TextTooLong)
    }
}

/// What a column of this type keeps of a value, or why it refuses it: 22003, 22001 or 42821. No memory is taken.
pub fn store(ty: Ty, value: Value) -> Result<Value, SqlState>
    ensures { result ≡ meaning.stored ty value }
{
    match value {
        Value::Null => Ok(Value::Null),
        Value::Num(n) => store_number(ty, n),
        Value::Bool(b) => match ty {
            Ty::Bool => Ok(Value::Bool(b)),
            _ => Err(SqlState::NotStorable),
        },
        Value::Text(text) => match ty {
            Ty::Text(limit) => store_text(limit, text),
            _ => Err(SqlState::NotStorable),
        },
    }
}

/// Whether a column of this type keeps a value as it is. NULL counts as kept.
pub fn is_storable(ty: Ty, value: &Value) -> bool
    ensures { result ≡ meaning.is_storable ty value.now }
{
    match value {
        Value::Null => true,
        Value::Num(n) => is_number_of(ty, *n),
        Value::Bool(_) => match ty {
            Ty::Bool => true,
            _ => false,
        },
        Value::Text(text) => match ty {
            Ty::Text(limit) => text.len() <= limit as usize,
            _ => false,
        },
    }
}
