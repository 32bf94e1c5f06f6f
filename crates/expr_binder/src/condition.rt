//! Conditions, split into their conjuncts.

ghost use Rattle.std.specs.Prelude.{◌≡◌, ◌<◌, ◌^◌, OnOk};
ghost use Rattle.expr_binder.specs.Seen.{sources_in};
ghost use Rattle.expr_binder.specs.Splitting.{IsAlone, Splits};
ghost use Rattle.sql_binding.specs.Names.{width_of};

use crate::expression::{expect_kind, expression};
use crate::names::Source;
use crate::walk::Walk;
use dby_types::value::Ty;
use sql_ast::bound::Exprs;
use sql_ast::expression::Expression;
use std::alloc::{AllocError, Global};

/// An expression that is no AND, as the one conjunct.
fn whole(
    alloc: Global,
    e: &Expression,
    sources: &[Source<'_>],
    walk: &mut Walk,
    conjuncts: &mut Exprs,
) -> Result<(), AllocError>
    requires fits { width_of (sources_in sources.now) < 2 ^ 32 }
    requires alone { IsAlone e.now }
    ensures { OnOk result (Splits (sources_in sources.now) e.now walk.old walk.new conjuncts.old conjuncts.new) }
{
    let x = expression(alloc, e, sources, &None, walk)?;
    expect_kind(walk, Ty::Bool, &x);
    conjuncts.push(x)?;
    Ok(())
}

/// A condition over the joined row of these tables: a truth value. Its conjuncts come behind those that are there, in text order.
pub fn condition(
    alloc: Global,
    e: &Expression,
    sources: &[Source<'_>],
    walk: &mut Walk,
    conjuncts: &mut Exprs,
) -> Result<(), AllocError>
    requires fits { width_of (sources_in sources.now) < 2 ^ 32 }
    ensures { OnOk result (Splits (sources_in sources.now) e.now walk.old walk.new conjuncts.old conjuncts.new) }
{
    match e {
        Expression::And(a, b) => {
            condition(alloc, a, sources, walk, conjuncts)?;
            condition(alloc, b, sources, walk, conjuncts)
        }
        Expression::Brackets(a) => condition(alloc, a, sources, walk, conjuncts),
        _ => whole(alloc, e, sources, walk, conjuncts),
    }
}
