//! What holds of all values. Each law is the contract of a call that does nothing.

ghost use Rattle.std.specs.Prelude.{◌≡◌, ◌≢◌, Result, Ok};
ghost use Rattle.std.specs.Bool.{Decides};
ghost use Rattle.std.specs.Cmp.{IsTotalOrder};
ghost use Rattle.std.specs.declared.cmp.Ordering.{Ordering};
ghost use Rattle.value_compare.specs.Order.{same_value, trimmed, value_cmp};
ghost use Rattle.value_compare.specs.Storing.{is_storable, stored};

use dby_types::value::{Ty, Value};

/// The order of values is total: each two have their place, and what is equal stands in one place.
pub fn order_is_total()
    ensures { IsTotalOrder value_cmp }
{}

/// Every other value is below NULL.
pub fn null_is_above_all(value: &Value)
    ensures { value.now ≢ Value.Null → value_cmp value.now Value.Null ≡ Ordering.Less }
{}

/// Two values stand for one group exactly where they are one without trailing blanks.
pub fn same_values_are_trimmed_alike(a: &Value, b: &Value)
    ensures { Decides (same_value a.now b.now) (trimmed a.now ≡ trimmed b.now) }
{}

/// A value can be stored as it is exactly where storing it gives the value itself.
pub fn storable_values_are_kept(ty: Ty, value: &Value)
    ensures { Decides (is_storable ty value.now) (stored ty value.now ≡ Ok value.now) }
{}
