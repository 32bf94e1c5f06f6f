//! The conditions of ON, and that of WHERE.

ghost use Rattle.std.specs.Prelude.{◌<◌, ◌^◌, ◌∷◌, [], OnOk};
ghost use Rattle.expr_binder.specs.Seen.{sources_in};
ghost use Rattle.query_binder.specs.Showing.{Tests};
ghost use Rattle.sql_binding.specs.From.{joined_conditions, listed, on_conditions};
ghost use Rattle.sql_binding.specs.Names.{width_of};

use dby_types::state::SqlState;
use expr_binder::condition::condition;
use expr_binder::names::Source;
use expr_binder::walk::begin;
use sql_ast::bound::Exprs;
use sql_ast::expression::Expression;
use sql_ast::statement::{FromText, JoinText};
use std::alloc::{AllocError, Global};

/// A condition over the joined row. Its conjuncts come behind those that are there.
pub fn test(
    alloc: Global,
    e: &Expression,
    sources: &[Source<'_>],
    fault: &mut Option<SqlState>,
    conjuncts: &mut Exprs,
) -> Result<(), AllocError>
    requires fits { width_of (sources_in sources.now) < 2 ^ 32 }
    ensures { OnOk result (Tests (sources_in sources.now) (e.now ∷ []) fault.old fault.new conjuncts.old conjuncts.new) }
{
    let mut walk = begin(alloc, 0);
    walk.fault = *fault;
    condition(alloc, e, sources, &mut walk, conjuncts)?;
    *fault = walk.fault;
    Ok(())
}

/// The conditions of what is joined to a table.
fn joined(
    alloc: Global,
    joins: &[JoinText],
    sources: &[Source<'_>],
    fault: &mut Option<SqlState>,
    conjuncts: &mut Exprs,
) -> Result<(), AllocError>
    requires fits { width_of (sources_in sources.now) < 2 ^ 32 }
    ensures { OnOk result (Tests (sources_in sources.now) (joined_conditions joins.now) fault.old fault.new conjuncts.old conjuncts.new) }
{
    for join in joins {
        test(alloc, &join.condition, sources, fault, conjuncts)?;
    }
    Ok(())
}

/// The conditions of ON, from left to right.
pub fn on(
    alloc: Global,
    from: &[FromText],
    sources: &[Source<'_>],
    fault: &mut Option<SqlState>,
    conjuncts: &mut Exprs,
) -> Result<(), AllocError>
    requires fits { width_of (sources_in sources.now) < 2 ^ 32 }
    ensures { OnOk result (Tests (sources_in sources.now) (on_conditions from.now) fault.old fault.new conjuncts.old conjuncts.new) }
{
    for item in from {
        joined(alloc, item.joins.as_slice(), sources, fault, conjuncts)?;
    }
    Ok(())
}

/// A condition that may be left away.
pub fn filter(
    alloc: Global,
    condition: &Option<Expression>,
    sources: &[Source<'_>],
    fault: &mut Option<SqlState>,
    conjuncts: &mut Exprs,
) -> Result<(), AllocError>
    requires fits { width_of (sources_in sources.now) < 2 ^ 32 }
    ensures { OnOk result (Tests (sources_in sources.now) (listed condition.now) fault.old fault.new conjuncts.old conjuncts.new) }
{
    match condition {
        None => Ok(()),
        Some(e) => test(alloc, e, sources, fault, conjuncts),
    }
}
