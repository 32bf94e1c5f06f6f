//! Values against each other, worked by hand.

use crate::logic::{and, is_null, is_true, not, or};
use crate::order::{compare, compared, copy_trimmed, is_same};
use crate::storing::store;
use dby_types::copies::copy_text;
use dby_types::state::SqlState;
use dby_types::value::{Ty, Value};
use std::alloc::{AllocError, Global};
use std::cmp::Ordering;
use std::test::Fail;

fn text(alloc: Global, spelled: &str) -> Result<Value, AllocError> {
    Ok(Value::Text(copy_text(alloc, spelled.as_bytes())?))
}

#[test]
fn orders_values(rt: HostRuntime) -> Result<(), Fail> {
    let alloc = rt.alloc();
    let mut rising = Vec::new(alloc);
    for n in [i64::MIN, -1, 0, i64::MAX] {
        rising.push(Value::Num(n))?;
    }
    rising.push(Value::Bool(false))?;
    rising.push(Value::Bool(true))?;
    for spelled in [
        "", "a\u{0}b", "a\n", "a", "a b", "a!", "b", "z", "é", "€", "😀",
    ] {
        rising.push(text(alloc, spelled)?)?;
    }
    rising.push(Value::Null)?;
    for (i, a) in rising.iter().enumerate() {
        for (j, b) in rising.iter().enumerate() {
            assert_eq!(rt; compare(a, b), i.cmp(&j), "{i} {j}");
        }
    }
    assert_eq!(rt;
        copy_trimmed(alloc, &text(alloc, " a  ")?)?,
        text(alloc, " a")?
    );
    Ok(())
}

/// Texts against each other where blanks don't count, among bytes below the blank and characters of several bytes.
#[test]
fn pads_texts(rt: HostRuntime) -> Result<(), Fail> {
    let alloc = rt.alloc();
    let cases = [
        ("", "   ", Ordering::Equal),
        ("a", "a  ", Ordering::Equal),
        ("é", "é ", Ordering::Equal),
        ("a\n", "a\n ", Ordering::Equal),
        ("a \n", "a", Ordering::Less),
        ("\u{1f}", "", Ordering::Less),
        ("€\t", "€ ", Ordering::Less),
        ("aé", "a", Ordering::Greater),
        ("a  !", "a", Ordering::Greater),
    ];
    for (a, b, want) in cases {
        let (x, y) = (text(alloc, a)?, text(alloc, b)?);
        assert_eq!(rt; compare(&x, &y), want, "{a} {b}");
        assert_eq!(rt; compared(&x, &y), Some(want), "{a} {b}");
        assert_eq!(rt; is_same(&x, &y), want.is_eq(), "{a} {b}");
        assert_eq!(rt; compared(&x, &Value::Null), None, "{a}");
    }
    assert!(rt; is_same(&Value::Null, &Value::Null));
    assert_eq!(rt; compared(&Value::Null, &Value::Null), None);
    Ok(())
}

#[test]
fn knows_what_is_unknown(rt: HostRuntime) {
    let cases = [
        (Some(true), Some(true), Some(true), Some(true)),
        (Some(true), Some(false), Some(false), Some(true)),
        (Some(true), None, None, Some(true)),
        (Some(false), Some(false), Some(false), Some(false)),
        (Some(false), None, Some(false), None),
        (None, None, None, None),
    ];
    for (a, b, both, one) in cases {
        let (a, b) = (truth(a), truth(b));
        assert_eq!(rt; and(&a, &b), truth(both));
        assert_eq!(rt; and(&b, &a), truth(both));
        assert_eq!(rt; or(&a, &b), truth(one));
        assert_eq!(rt; or(&b, &a), truth(one));
    }
    assert_eq!(rt; not(&Value::Null), Value::Null);
    assert_eq!(rt; not(&Value::Bool(true)), Value::Bool(false));
    assert_eq!(rt; not(&Value::Bool(false)), Value::Bool(true));
    for (value, null, holds) in [
        (Some(true), false, true),
        (Some(false), false, false),
        (None, true, false),
    ] {
        assert_eq!(rt; is_null(&truth(value)), null);
        assert_eq!(rt; is_true(&truth(value)), holds);
    }
}

fn truth(value: Option<bool>) -> Value {
    match value {
        Some(b) => Value::Bool(b),
        None => Value::Null,
    }
}

#[test]
fn stores_values(rt: HostRuntime) -> Result<(), Fail> {
    let alloc = rt.alloc();
    assert_eq!(rt;
        store(Ty::Text(2), text(alloc, "a   ")?),
        Ok(text(alloc, "a ")?)
    );
    assert_eq!(rt;
        store(Ty::Text(3), text(alloc, "aé")?),
        Ok(text(alloc, "aé")?)
    );
    assert_eq!(rt;
        store(Ty::Text(2), text(alloc, "aé")?),
        Err(SqlState::TextTooLong)
    );
    assert_eq!(rt;
        store(Ty::Small, Value::Num(-32768)),
        Ok(Value::Num(-32768))
    );
    assert_eq!(rt;
        store(Ty::Small, Value::Num(32768)),
        Err(SqlState::OutOfRange)
    );
    assert_eq!(rt;
        store(Ty::Int, Value::Num(2147483648)),
        Err(SqlState::OutOfRange)
    );
    assert_eq!(rt;
        store(Ty::Int, Value::Num(3000000000)),
        Err(SqlState::OutOfRange)
    );
    assert_eq!(rt;
        store(Ty::Int, text(alloc, "x")?),
        Err(SqlState::NotStorable)
    );
    assert_eq!(rt;
        store(Ty::Big, Value::Bool(true)),
        Err(SqlState::NotStorable)
    );
    Ok(())
}
