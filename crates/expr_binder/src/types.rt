//! The types of expressions.

ghost use Rattle.std.specs.Prelude.{◌≡◌};
ghost use Rattle.sql_binding.specs.Types as meaning;

use dby_types::value::Ty;
use sql_ast::bound::Arithmetic;
use sql_ast::expression::{Aggregate, Product, Sum};

/// What values of a type are: numbers, truth values or texts.
fn kind_of(ty: Ty) -> u8
    ensures { result ≡ meaning.kind_of ty }
{
    match ty {
        Ty::Small | Ty::Int | Ty::Big => 0,
        Ty::Bool => 1,
        Ty::Text(_) => 2,
    }
}

/// Whether values of both types may be compared with each other, and stored as each other.
pub fn same_kind(a: Ty, b: Ty) -> bool
    ensures { result ≡ meaning.same_kind a b }
{
    kind_of(a) == kind_of(b)
}

fn is_big(ty: Ty) -> bool
    ensures { result ≡ meaning.is_big ty }
{
    match ty {
        Ty::Big => true,
        _ => false,
    }
}

/// The type in which two numbers are put together.
pub fn wider(a: Ty, b: Ty) -> Ty
    ensures { result ≡ meaning.wider a b }
{
    if is_big(a) || is_big(b) {
        Ty::Big
    } else {
        Ty::Int
    }
}

/// The type of an aggregate over values of a type.
pub fn total_type(f: Aggregate, ty: Ty) -> Ty
    ensures { result ≡ meaning.total_type f ty }
{
    match f {
        Aggregate::Count => Ty::Big,
        Aggregate::Sum | Aggregate::Min | Aggregate::Max => ty,
    }
}

/// A number with its sign; the nearest of 64 bits where it is none.
pub fn signed(op: Sum, n: u64) -> i64
    ensures { result ≡ meaning.signed op n }
{
    match op {
        Sum::Plus => match i64::try_from(n) {
            Ok(m) => m,
            Err(_) => i64::MAX,
        },
        Sum::Minus => match i64::try_from(n) {
            Ok(m) => -m,
            Err(_) => i64::MIN,
        },
    }
}

pub fn sum_op(op: Sum) -> Arithmetic
    ensures { result ≡ meaning.sum_op op }
{
    match op {
        Sum::Plus => Arithmetic::Add,
        Sum::Minus => Arithmetic::Subtract,
    }
}

pub fn product_op(op: Product) -> Arithmetic
    ensures { result ≡ meaning.product_op op }
{
    match op {
        Product::Times => Arithmetic::Multiply,
        Product::Over => Arithmetic::Divide,
    }
}
