//! Three-valued logic over values; NULL is unknown.

ghost use Rattle.std.specs.Prelude.{◌≡◌};
ghost use Rattle.value_compare.specs.Logic as meaning;

use dby_types::value::Value;

/// AND: false where one side is false, true where both are true.
pub fn and(a: &Value, b: &Value) -> Value
    ensures { result ≡ meaning.and_of a.now b.now }
{
    match (a, b) {
        (Value::Bool(false), _) => Value::Bool(false),
        (_, Value::Bool(false)) => Value::Bool(false),
        (Value::Bool(true), Value::Bool(true)) => Value::Bool(true),
        _ => Value::Null,
    }
}

/// OR: true where one side is true, false where both are false.
pub fn or(a: &Value, b: &Value) -> Value
    ensures { result ≡ meaning.or_of a.now b.now }
{
    match (a, b) {
        (Value::Bool(true), _) => Value::Bool(true),
        (_, Value::Bool(true)) => Value::Bool(true),
        (Value::Bool(false), Value::Bool(false)) => Value::Bool(false),
        _ => Value::Null,
    }
}

/// NOT, which leaves what is unknown unknown.
pub fn not(a: &Value) -> Value
    ensures { result ≡ meaning.not_of a.now }
{
    match a {
        Value::Bool(a) => Value::Bool(!*a),
        _ => Value::Null,
    }
}

/// Whether a value is NULL.
pub fn is_null(value: &Value) -> bool
    ensures { result ≡ meaning.is_null value.now }
{
    match value {
        Value::Null => true,
        _ => false,
    }
}

/// Whether a condition's value is true: neither false nor unknown.
pub fn is_true(value: &Value) -> bool
    ensures { result ≡ meaning.is_true value.now }
{
    match value {
        Value::Bool(a) => *a,
        _ => false,
    }
}
