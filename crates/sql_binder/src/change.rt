//! UPDATE and DELETE.

ghost use Rattle.std.specs.Prelude.{◌≡◌, ◌<◌, ◌^◌, IfOk, OnOk};
ghost use Rattle.expr_binder.specs.Seen.{sources_in};
ghost use Rattle.expr_binder.specs.Walking.{kept};
ghost use Rattle.name_binder.specs.Lent.{texts};
ghost use Rattle.sql_binder.specs.Answering.{Forms};
ghost use Rattle.sql_binder.specs.Making.{Filters};
ghost use Rattle.sql_binding.specs.Binding.{delete_faults, deleted, update_faults, updated};
ghost use Rattle.sql_binding.specs.Changes.{condition_in, set_names};
ghost use Rattle.sql_binding.specs.From.{found_in, twice_faults};
ghost use Rattle.sql_binding.specs.Names.{width_of};

use crate::target::find_target;
use change_binder::faults::keep_unless;
use change_binder::update::sets;
use dby_types::seq::Seq;
use dby_types::state::SqlState;
use expr_binder::names::Source;
use name_binder::catalog::Catalog;
use name_binder::twice::has_twice;
use query_binder::condition::test;
use sql_ast::bound::{BoundStatement, Exprs};
use sql_ast::expression::Expression;
use sql_ast::statement::SetText;
use std::alloc::{AllocError, Global};

/// The conjuncts of the condition, if there is one.
fn filter(
    alloc: Global,
    condition: &Option<Box<Expression>>,
    sources: &[Source<'_>],
    fault: &mut Option<SqlState>,
) -> Result<Exprs, AllocError>
    requires fits { width_of (sources_in sources.now) < 2 ^ 32 }
    ensures { IfOk result (Filters (sources_in sources.now) (condition_in condition.now) fault.old fault.new) }
{
    let mut conjuncts = Seq::new(alloc);
    match condition {
        None => {}
        Some(e) => test(alloc, e, sources, fault, &mut conjuncts)?,
    }
    Ok(conjuncts)
}

/// The names of the columns that SET changes, lent.
fn lend<'a>(alloc: Global, sets: &'a [SetText]) -> Result<Vec<&'a [u8]>, AllocError>
    ensures { IfOk result (λ lent. texts lent.items ≡ set_names sets.now) }
{
    let mut lent = Vec::with_capacity(alloc, sets.len())?;
    for set in sets {
        lent.push(set.column.as_slice())?;
    }
    Ok(lent)
}

/// No column may be changed twice.
fn judge_names(
    alloc: Global,
    sets: &[SetText],
    fault: &mut Option<SqlState>,
) -> Result<(), AllocError>
    ensures { OnOk result (fault.new ≡ kept fault.old (twice_faults (set_names sets.now))) }
{
    let lent = lend(alloc, sets)?;
    let twice = has_twice(alloc, lent.as_slice())?;
    keep_unless(fault, !twice, SqlState::NameTwice);
    Ok(())
}

/// UPDATE, and the fault that is told of it and so far.
pub fn update<D: Catalog>(
    alloc: Global,
    table: &[u8],
    texts: &[SetText],
    condition: &Option<Box<Expression>>,
    d: &D,
    fault: &mut Option<SqlState>,
) -> Result<BoundStatement, AllocError>
    ensures { IfOk result (Forms (updated (found_in (D.dictionary d.now) table.now) table.now texts.now (condition_in condition.now)) (update_faults (found_in (D.dictionary d.now) table.now) table.now texts.now (condition_in condition.now)) fault.old fault.new) }
{
    let target = find_target(d, table, fault)?;
    let sources = [Source {
        exposed: table,
        columns: target.columns,
    }];
    let sets = sets(alloc, target.columns, sources.as_slice(), texts, fault)?;
    let conjuncts = filter(alloc, condition, sources.as_slice(), fault)?;
    judge_names(alloc, texts, fault)?;
    Ok(BoundStatement::Update {
        table: target.number,
        sets,
        conjuncts,
    })
}

/// DELETE, and the fault that is told of it and so far.
pub fn delete<D: Catalog>(
    alloc: Global,
    table: &[u8],
    condition: &Option<Box<Expression>>,
    d: &D,
    fault: &mut Option<SqlState>,
) -> Result<BoundStatement, AllocError>
    ensures { IfOk result (Forms (deleted (found_in (D.dictionary d.now) table.now) table.now (condition_in condition.now)) (delete_faults (found_in (D.dictionary d.now) table.now) table.now (condition_in condition.now)) fault.old fault.new) }
{
    let target = find_target(d, table, fault)?;
    let sources = [Source {
        exposed: table,
        columns: target.columns,
    }];
    let conjuncts = filter(alloc, condition, sources.as_slice(), fault)?;
    Ok(BoundStatement::Delete {
        table: target.number,
        conjuncts,
    })
}
