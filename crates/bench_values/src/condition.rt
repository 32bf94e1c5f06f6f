//! `a + 1 < b` over rows of two INTs.

use dby_types::value::{Ty, Value};
use expr_eval::evaluation::eval_at;
use expr_model::evaluated::Evaluated;
use sql_ast::bound::{Arithmetic, Expr, Node};
use sql_ast::expression::Comparison;
use std::alloc::{AllocError, Global};
use value_compare::logic::is_true;

fn int(node: Node) -> Expr {
    Expr { node, ty: Ty::Int }
}

/// `a + 1`.
fn sum(alloc: Global) -> Result<Expr, AllocError> {
    let a = Box::new(alloc, int(Node::Column(0)))?;
    let one = Box::new(alloc, int(Node::Literal(Value::Num(1))))?;
    Ok(int(Node::Arithmetic(Arithmetic::Add, a, one)))
}

/// `a + 1 < b`.
fn condition(alloc: Global) -> Result<Expr, AllocError> {
    let sum = Box::new(alloc, sum(alloc)?)?;
    let b = Box::new(alloc, int(Node::Column(1)))?;
    Ok(Expr {
        node: Node::Compare(Comparison::Less, sum, b),
        ty: Ty::Bool,
    })
}

/// Whether a row meets a condition.
fn holds(alloc: Global, e: &Expr, row: &[Value]) -> Result<bool, AllocError> {
    match &eval_at(alloc, e, 0, row)? {
        Evaluated::Value(value) => Ok(is_true(value)),
        Evaluated::Sql(_) => Ok(false),
    }
}

/// How many of so many rows meet the condition: `a` counts them from 0, and `b` is half their number.
pub fn count_rows(alloc: Global, rows: u32) -> Result<u64, AllocError> {
    let condition = condition(alloc)?;
    let half = i64::from(rows / 2);
    let mut found = 0_u64;
    for a in 0..rows {
        let row = [Value::Num(i64::from(a)), Value::Num(half)];
        if holds(alloc, &condition, &row)? {
            found = found.wrapping_add(1);
        }
    }
    Ok(found)
}
