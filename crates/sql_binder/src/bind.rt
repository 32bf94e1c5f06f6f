//! A statement bound, or the one refusal.

ghost use Rattle.std.specs.Prelude.{◌≡◌, IfOk, true};
ghost use Rattle.sql_binder.specs.Answering.{Forms, IsAnswer, told_of};
ghost use Rattle.sql_binder.specs.Built.{is_built as is_form_built};
ghost use Rattle.sql_binding.specs.Binding.{all_faults, bound_form};
ghost use Rattle.sql_binding.specs.Bound.{select as select_of};
ghost use Rattle.sql_binding.specs.Queries.{query as query_in, query_faults};

use crate::answer::BindAnswer;
use crate::built::is_built;
use crate::change::{delete, update};
use crate::create::create;
use crate::insert::insert;
use dby_types::state::SqlState;
use name_binder::catalog::Catalog;
use query_binder::query::query;
use sql_ast::bound::BoundStatement;
use sql_ast::statement::{SelectText, Statement};
use std::alloc::{AllocError, Global};

/// A query, and the fault that is told of it and so far.
fn select<D: Catalog>(
    alloc: Global,
    q: &SelectText,
    d: &D,
    fault: &mut Option<SqlState>,
) -> Result<BoundStatement, AllocError>
    ensures { IfOk result (Forms (select_of (query_in (D.dictionary d.now) q.now)) (query_faults (D.dictionary d.now) q.now) fault.old fault.new) }
{
    let bound = query(alloc, q, d, fault)?;
    Ok(BoundStatement::Select(Box::new(alloc, bound)?))
}

/// A statement of a form that is built, and the fault that is told of it and so far.
fn form<D: Catalog>(
    alloc: Global,
    s: &Statement,
    d: &D,
    fault: &mut Option<SqlState>,
) -> Result<BoundStatement, AllocError>
    requires built { is_form_built s.now ≡ true }
    ensures { IfOk result (Forms (bound_form s.now (D.dictionary d.now)) (all_faults s.now (D.dictionary d.now)) fault.old fault.new) }
{
    match s {
        Statement::CreateTable { name, parts } => {
            create(alloc, name.as_slice(), parts.as_slice(), d, fault)
        }
        Statement::Insert {
            table,
            columns,
            tuples,
        } => insert(
            alloc,
            table.as_slice(),
            columns,
            tuples.as_slice(),
            d,
            fault,
        ),
        Statement::Update {
            table,
            sets,
            condition,
        } => update(
            alloc,
            table.as_slice(),
            sets.as_slice(),
            condition,
            d,
            fault,
        ),
        Statement::Delete { table, condition } => {
            delete(alloc, table.as_slice(), condition, d, fault)
        }
        Statement::Select(q) => select(alloc, q, d, fault),
        Statement::SetIsolation(level) => Ok(BoundStatement::SetIsolation(*level)),
        Statement::Autocommit(on) => Ok(BoundStatement::Autocommit(*on)),
        Statement::Commit => Ok(BoundStatement::Commit),
        Statement::Rollback => Ok(BoundStatement::Rollback),
        Statement::CreateIndex { .. } | Statement::Drop { .. } => unreachable!(),
        Statement::LockTable { .. } | Statement::Unread(_) => unreachable!(),
    }
}

/// The form, where no fault is told.
fn told(fault: Option<SqlState>, bound: BoundStatement) -> Result<BoundStatement, BindAnswer>
    ensures { result ≡ told_of fault bound }
{
    match fault {
        None => Ok(bound),
        Some(why) => Err(BindAnswer::Sql(why)),
    }
}

/// A statement bound to a dictionary: its bound form, or the one refusal, where several things are wrong the first of the earliest class.
/// A form that isn't built is refused as that.
pub fn bind<D: Catalog>(alloc: Global, s: &Statement, d: &D) -> Result<BoundStatement, BindAnswer>
    ensures { IsAnswer s.now (D.dictionary d.now) result }
{
    if !is_built(s) {
        return Err(BindAnswer::Sql(SqlState::NotBuilt));
    }
    let mut fault = None;
    match form(alloc, s, d, &mut fault) {
        Ok(bound) => told(fault, bound),
        Err(_) => Err(BindAnswer::Memory),
    }
}
