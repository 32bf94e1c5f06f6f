//! Expressions over the joined row, where no rows are grouped.

ghost use Rattle.std.specs.Prelude.{◌<◌, ◌^◌, IfOk};
ghost use Rattle.expr_binder.specs.Seen.{sources_in};
ghost use Rattle.change_binder.specs.Binding.{Gives};
ghost use Rattle.sql_binding.specs.Expressions.{bound_over};
ghost use Rattle.sql_binding.specs.Faults.{faults_over};
ghost use Rattle.sql_binding.specs.Names.{width_of};

use dby_types::state::SqlState;
use expr_binder::expression::expression;
use expr_binder::names::Source;
use expr_binder::walk::begin;
use sql_ast::bound::Expr;
use sql_ast::expression::Expression;
use std::alloc::{AllocError, Global};

/// An expression over the joined row of these tables.
pub fn over_rows(
    alloc: Global,
    e: &Expression,
    sources: &[Source<'_>],
    fault: &mut Option<SqlState>,
) -> Result<Expr, AllocError>
    requires fits { width_of (sources_in sources.now) < 2 ^ 32 }
    ensures { IfOk result (λ x. Gives fault.old fault.new (bound_over (sources_in sources.now) e.now) (faults_over (sources_in sources.now) e.now) x) }
{
    let mut walk = begin(alloc, 0);
    walk.fault = *fault;
    let x = expression(alloc, e, sources, &None, &mut walk)?;
    *fault = walk.fault;
    Ok(x)
}
