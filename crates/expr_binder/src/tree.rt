//! Bound trees, put together.

ghost use Rattle.std.specs.Prelude.{◌≡◌, IfOk, List};
ghost use Rattle.dby_types.specs.declared.value.Ty.TheVariants.{Bool as Truths};
ghost use Rattle.expr_binder.specs.Listing.{before};
ghost use Rattle.sql_binding.specs.Trees as t;
ghost use Rattle.sql_binding.specs.Trees.{none, tree_of, ty_of, typed};
ghost use Rattle.sql_binding.specs.Types.{arithmetic_tree, sign_tree};

use crate::types::wider;
use dby_types::value::{Ty, Value};
use sql_ast::bound::{Arithmetic, Expr, Node};
use sql_ast::expression::{Comparison, Sum};
use std::alloc::{AllocError, Global};

/// The type of a bound tree.
pub fn ty_of(x: &Expr) -> Ty
    ensures { result ≡ ty_of (tree_of x.now) }
{
    x.ty
}

pub fn or(alloc: Global, a: Expr, b: Expr) -> Result<Expr, AllocError>
    ensures { IfOk result (λ x. tree_of x ≡ typed (t.or (tree_of a) (tree_of b)) Truths) }
{
    let node = Node::Or(Box::new(alloc, a)?, Box::new(alloc, b)?);
    Ok(Expr { node, ty: Ty::Bool })
}

pub fn and(alloc: Global, a: Expr, b: Expr) -> Result<Expr, AllocError>
    ensures { IfOk result (λ x. tree_of x ≡ typed (t.and (tree_of a) (tree_of b)) Truths) }
{
    let node = Node::And(Box::new(alloc, a)?, Box::new(alloc, b)?);
    Ok(Expr { node, ty: Ty::Bool })
}

pub fn not(alloc: Global, a: Expr) -> Result<Expr, AllocError>
    ensures { IfOk result (λ x. tree_of x ≡ typed (t.not (tree_of a)) Truths) }
{
    let node = Node::Not(Box::new(alloc, a)?);
    Ok(Expr { node, ty: Ty::Bool })
}

pub fn compare(alloc: Global, op: Comparison, a: Expr, b: Expr) -> Result<Expr, AllocError>
    ensures { IfOk result (λ x. tree_of x ≡ typed (t.compare op (tree_of a) (tree_of b)) Truths) }
{
    let node = Node::Compare(op, Box::new(alloc, a)?, Box::new(alloc, b)?);
    Ok(Expr { node, ty: Ty::Bool })
}

pub fn is_null(alloc: Global, deny: bool, a: Expr) -> Result<Expr, AllocError>
    ensures { IfOk result (λ x. tree_of x ≡ typed (t.is_null deny (tree_of a)) Truths) }
{
    let node = Node::IsNull(deny, Box::new(alloc, a)?);
    Ok(Expr { node, ty: Ty::Bool })
}

pub fn between(alloc: Global, deny: bool, a: Expr, b: Expr, c: Expr) -> Result<Expr, AllocError>
    ensures { IfOk result (λ x. tree_of x ≡ typed (t.between deny (tree_of a) (tree_of b) (tree_of c)) Truths) }
{
    let node = Node::Between(
        deny,
        Box::new(alloc, a)?,
        Box::new(alloc, b)?,
        Box::new(alloc, c)?,
    );
    Ok(Expr { node, ty: Ty::Bool })
}

#[tactic(auto, using(crate::proofs::Rows::trees_row))]
pub fn is_in(alloc: Global, deny: bool, a: Expr, members: Vec<Expr>) -> Result<Expr, AllocError>
    ensures { IfOk result (λ x. tree_of x ≡ typed (t.in_ deny (tree_of a) (before members.items none)) Truths) }
{
    let node = Node::In(deny, Box::new(alloc, a)?, members);
    Ok(Expr { node, ty: Ty::Bool })
}

/// Two numbers put together in the wider of their types.
pub fn arithmetic(alloc: Global, op: Arithmetic, a: Expr, b: Expr) -> Result<Expr, AllocError>
    ensures { IfOk result (λ x. tree_of x ≡ arithmetic_tree op (tree_of a) (tree_of b)) }
{
    let ty = wider(ty_of(&a), ty_of(&b));
    let node = Node::Arithmetic(op, Box::new(alloc, a)?, Box::new(alloc, b)?);
    Ok(Expr { node, ty })
}

/// A sign before what is no literal: a plus is a sum with 0.
pub fn sign(alloc: Global, op: Sum, a: Expr) -> Result<Expr, AllocError>
    ensures { IfOk result (λ x. tree_of x ≡ sign_tree op (tree_of a)) }
{
    match op {
        Sum::Plus => {
            let zero = Expr {
                node: Node::Literal(Value::Num(0)),
                ty: Ty::Int,
            };
            arithmetic(alloc, Arithmetic::Add, zero, a)
        }
        Sum::Minus => {
            let ty = wider(Ty::Int, ty_of(&a));
            let node = Node::Negated(Box::new(alloc, a)?);
            Ok(Expr { node, ty })
        }
    }
}
