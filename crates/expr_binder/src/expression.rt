//! An expression bound.

ghost use Rattle.std.specs.Prelude.{◌≡◌, ◌<◌, ◌^◌, ◌∷◌, ◌++◌, [], IfOk, List, None};
ghost use Rattle.dby_types.specs.declared.state.SqlState.{SqlState};
ghost use Rattle.dby_types.specs.declared.state.SqlState.TheVariants.{NotComparable};
ghost use Rattle.dby_types.specs.declared.value.Ty.TheVariants.{Big};
ghost use Rattle.expr_binder.specs.Listing.{before, bound_all, calls_all, faults_all, sums_all};
ghost use Rattle.expr_binder.specs.Seen.{scope_in, sources_in};
ghost use Rattle.expr_binder.specs.Walking.{Binds, Walked, kept};
ghost use Rattle.sql_binding.specs.Bound.{all_rows, sum_of};
ghost use Rattle.sql_binding.specs.Faults.{operand_faults, total_faults, unless};
ghost use Rattle.sql_binding.specs.Names.{width_of};
ghost use Rattle.sql_binding.specs.Trees as t;
ghost use Rattle.sql_binding.specs.Trees.{none, tree_of, ty_of as type_of, typed};
ghost use Rattle.sql_binding.specs.Types.{same_kind as is_same_kind, total_type as total_of};

use crate::leaf::{bare, expect_groups, number, of_table, text, truth};
use crate::names::Source;
use crate::tree;
use crate::tree::ty_of;
use crate::types::{product_op, same_kind, sum_op, total_type};
use crate::walk::{Walk, begin, expect, total};
use dby_types::definition::Places;
use dby_types::state::SqlState;
use dby_types::value::Ty;
use sql_ast::bound::{Expr, Node, Total};
use sql_ast::expression::{Aggregate, Expression};
use std::alloc::{AllocError, Global};

/// An operand has to be of a type's kind.
pub fn expect_kind(walk: &mut Walk, kind: Ty, x: &Expr)
    ensures { Walked walk.old walk.new (operand_faults kind (tree_of x.now)) 0 [] }
{
    expect(walk, same_kind(kind, ty_of(x)), SqlState::WrongOperand);
}

/// An operand has to be comparable with one of this type.
fn expect_beside(walk: &mut Walk, left: Ty, x: &Expr)
    ensures { Walked walk.old walk.new (unless (is_same_kind left (type_of (tree_of x.now))) NotComparable) 0 [] }
{
    expect(walk, same_kind(left, ty_of(x)), SqlState::NotComparable);
}

/// SUM is of numbers.
fn expect_summable(walk: &mut Walk, f: Aggregate, x: &Expr)
    ensures { Walked walk.old walk.new (total_faults f (tree_of x.now)) 0 [] }
{
    match f {
        Aggregate::Sum => expect_kind(walk, Ty::Int, x),
        Aggregate::Count | Aggregate::Min | Aggregate::Max => {}
    }
}

/// COUNT(*) of a group: a column of its row.
fn counted(walk: &mut Walk) -> Result<Expr, AllocError>
    ensures { IfOk result (λ x. (tree_of x ≡ typed (t.column walk.old.next) Big) × Walked walk.old walk.new [] 1 (all_rows ∷ [])) }
{
    let place = total(walk, Total::CountAll)?;
    Ok(Expr {
        node: Node::Column(place),
        ty: Ty::Big,
    })
}

/// A walk over an aggregate's operand: it goes on from the fault that is told.
fn within(alloc: Global, walk: &Walk) -> Walk
    ensures { result ≡ record { fault = walk.now.fault; next = 0; totals = [] } }
{
    let mut inner = begin(alloc, 0);
    inner.fault = walk.fault;
    inner
}

/// An aggregate over the values of an operand, which the inner walk was over: a column of a group's row.
fn called(walk: &mut Walk, f: Aggregate, x: Expr, inner: Walk) -> Result<Expr, AllocError>
    ensures { (fs : List SqlState) → inner.fault ≡ kept walk.old.fault fs →
        IfOk result (λ y. (tree_of y ≡ typed (t.column walk.old.next) (total_of f (type_of (tree_of x))))
        × Walked walk.old walk.new (fs ++ total_faults f (tree_of x)) 1 (sum_of f (tree_of x) ∷ [])) }
{
    walk.fault = inner.fault;
    expect_summable(walk, f, &x);
    let ty = total_type(f, ty_of(&x));
    let place = total(walk, Total::Over(f, x))?;
    Ok(Expr {
        node: Node::Column(place),
        ty,
    })
}

/// An expression, bound over the joined row of these tables, or over a group's row where there are keys. The walk keeps the fault that
/// is told.
#[cycle(bind)]
pub fn expression(
    alloc: Global,
    e: &Expression,
    sources: &[Source<'_>],
    keys: &Option<Places>,
    walk: &mut Walk,
) -> Result<Expr, AllocError>
    requires fits { width_of (sources_in sources.now) < 2 ^ 32 }
    ensures { IfOk result (λ x. Binds (scope_in sources.now keys.now) e.now walk.old walk.new x) }
{
    match e {
        Expression::Or(a, b) => {
            let x = expression(alloc, a, sources, keys, walk)?;
            expect_kind(walk, Ty::Bool, &x);
            let y = expression(alloc, b, sources, keys, walk)?;
            expect_kind(walk, Ty::Bool, &y);
            tree::or(alloc, x, y)
        }
        Expression::And(a, b) => {
            let x = expression(alloc, a, sources, keys, walk)?;
            expect_kind(walk, Ty::Bool, &x);
            let y = expression(alloc, b, sources, keys, walk)?;
            expect_kind(walk, Ty::Bool, &y);
            tree::and(alloc, x, y)
        }
        Expression::Not(a) => {
            let x = expression(alloc, a, sources, keys, walk)?;
            expect_kind(walk, Ty::Bool, &x);
            tree::not(alloc, x)
        }
        Expression::Compare(op, a, b) => {
            let x = expression(alloc, a, sources, keys, walk)?;
            let y = expression(alloc, b, sources, keys, walk)?;
            expect_beside(walk, ty_of(&x), &y);
            tree::compare(alloc, *op, x, y)
        }
        Expression::IsNull(deny, a) => {
            let x = expression(alloc, a, sources, keys, walk)?;
            tree::is_null(alloc, *deny, x)
        }
        Expression::Between(deny, a, b, c) => {
            let x = expression(alloc, a, sources, keys, walk)?;
            let y = expression(alloc, b, sources, keys, walk)?;
            expect_beside(walk, ty_of(&x), &y);
            let z = expression(alloc, c, sources, keys, walk)?;
            expect_beside(walk, ty_of(&x), &z);
            tree::between(alloc, *deny, x, y, z)
        }
        Expression::In(deny, a, list) => {
            let x = expression(alloc, a, sources, keys, walk)?;
            let ys = members(alloc, ty_of(&x), list.as_slice(), sources, keys, walk)?;
            tree::is_in(alloc, *deny, x, ys)
        }
        Expression::Add(op, a, b) => {
            let x = expression(alloc, a, sources, keys, walk)?;
            expect_kind(walk, Ty::Int, &x);
            let y = expression(alloc, b, sources, keys, walk)?;
            expect_kind(walk, Ty::Int, &y);
            tree::arithmetic(alloc, sum_op(*op), x, y)
        }
        Expression::Multiply(op, a, b) => {
            let x = expression(alloc, a, sources, keys, walk)?;
            expect_kind(walk, Ty::Int, &x);
            let y = expression(alloc, b, sources, keys, walk)?;
            expect_kind(walk, Ty::Int, &y);
            tree::arithmetic(alloc, product_op(*op), x, y)
        }
        Expression::Sign(op, a) => {
            let x = expression(alloc, a, sources, keys, walk)?;
            expect_kind(walk, Ty::Int, &x);
            tree::sign(alloc, *op, x)
        }
        Expression::Number(op, n) => Ok(number(*op, *n)),
        Expression::Text(t) => text(alloc, t.as_slice()),
        Expression::Truth(b) => Ok(truth(*b)),
        Expression::Column(name) => bare(walk, sources, keys, name.as_slice()),
        Expression::ColumnOf(table, name) => of_table(
            walk,
            sources,
            keys,
            table.as_slice(),
            name.as_slice(),
        ),
        Expression::Brackets(a) => expression(alloc, a, sources, keys, walk),
        Expression::CountAll => {
            expect_groups(walk, keys);
            counted(walk)
        }
        Expression::Call(f, a) => {
            expect_groups(walk, keys);
            let mut inner = within(alloc, walk);
            let x = expression(alloc, a, sources, &None, &mut inner)?;
            called(walk, *f, x, inner)
        }
    }
}

/// The members of an IN, each comparable with one of this type.
#[cycle(bind)]
fn members(
    alloc: Global,
    left: Ty,
    es: &[Expression],
    sources: &[Source<'_>],
    keys: &Option<Places>,
    walk: &mut Walk,
) -> Result<Vec<Expr>, AllocError>
    requires fits { width_of (sources_in sources.now) < 2 ^ 32 }
    ensures { IfOk result (λ xs. (before xs.items none ≡ bound_all (scope_in sources.now keys.now) walk.old.next es.now)
        × Walked walk.old walk.new (faults_all (scope_in sources.now keys.now) left walk.old.next es.now) (calls_all es.now) (sums_all (sources_in sources.now) es.now)) }
{
    let mut xs = Vec::new(alloc);
    for e in es {
        let x = expression(alloc, e, sources, keys, walk)?;
        expect_beside(walk, left, &x);
        xs.push(x)?;
    }
    Ok(xs)
}
