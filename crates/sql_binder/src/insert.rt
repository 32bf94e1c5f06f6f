//! INSERT.

ghost use Rattle.std.specs.Prelude.{◌≡◌, IfOk, OnOk};
ghost use Rattle.change_binder.specs.Binding.{spots_in};
ghost use Rattle.expr_binder.specs.Walking.{kept};
ghost use Rattle.sql_binder.specs.Answering.{Forms};
ghost use Rattle.name_binder.specs.Lent.{texts};
ghost use Rattle.sql_binder.specs.Making.{Fills};
ghost use Rattle.sql_binding.specs.Binding.{insert_faults, inserted};
ghost use Rattle.sql_binding.specs.Changes.{names_in};
ghost use Rattle.sql_binding.specs.From.{found_in, twice_faults};

use crate::target::find_target;
use change_binder::faults::keep_unless;
use change_binder::insert::{targets, tuple};
use dby_types::definition::ColumnDef;
use dby_types::seq::Seq;
use dby_types::state::SqlState;
use dby_types::value::{Name, Names};
use expr_binder::names::Spot;
use name_binder::catalog::Catalog;
use name_binder::twice::has_twice;
use sql_ast::bound::{BoundStatement, Exprs};
use sql_ast::statement::Items;
use std::alloc::{AllocError, Global};

/// The tuples in the table's order.
fn rows(
    alloc: Global,
    columns: &[ColumnDef],
    spots: &[Spot],
    tuples: &[Items],
    fault: &mut Option<SqlState>,
) -> Result<Seq<Exprs>, AllocError>
    ensures { IfOk result (Fills fault.old fault.new columns.now (spots_in spots.now) tuples.now) }
{
    let mut rows = Seq::new(alloc);
    for items in tuples {
        rows.push(tuple(alloc, columns, spots, items.as_slice(), fault)?)?;
    }
    Ok(rows)
}

/// These names, lent.
fn lend<'a>(alloc: Global, names: &'a [Name]) -> Result<Vec<&'a [u8]>, AllocError>
    ensures { IfOk result (λ lent. texts lent.items ≡ names.now) }
{
    let mut lent = Vec::with_capacity(alloc, names.len())?;
    for name in names {
        lent.push(name.as_slice())?;
    }
    Ok(lent)
}

/// No name may stand twice in a column list.
fn judge_names(
    alloc: Global,
    names: &Option<Names>,
    fault: &mut Option<SqlState>,
) -> Result<(), AllocError>
    ensures { OnOk result (fault.new ≡ kept fault.old (twice_faults (names_in names.now))) }
{
    match names {
        None => Ok(()),
        Some(names) => {
            let lent = lend(alloc, names.as_slice())?;
            let twice = has_twice(alloc, lent.as_slice())?;
            keep_unless(fault, !twice, SqlState::NameTwice);
            Ok(())
        }
    }
}

/// INSERT, and the fault that is told of it and so far.
pub fn insert<D: Catalog>(
    alloc: Global,
    table: &[u8],
    names: &Option<Names>,
    tuples: &[Items],
    d: &D,
    fault: &mut Option<SqlState>,
) -> Result<BoundStatement, AllocError>
    ensures { IfOk result (Forms (inserted (found_in (D.dictionary d.now) table.now) names.now tuples.now) (insert_faults (found_in (D.dictionary d.now) table.now) names.now tuples.now) fault.old fault.new) }
{
    let target = find_target(d, table, fault)?;
    let spots = targets(alloc, target.columns, names, fault)?;
    let tuples = rows(alloc, target.columns, spots.as_slice(), tuples, fault)?;
    judge_names(alloc, names, fault)?;
    Ok(BoundStatement::Insert {
        table: target.number,
        tuples,
    })
}
