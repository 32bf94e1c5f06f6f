//! The tuples of INSERT in the table's order.

ghost use Rattle.std.specs.Prelude.{◌≡◌, ◌<◌, ◌^◌, ◌+◌, IfOk, OnOk, drop, length};
ghost use Rattle.change_binder.specs.Binding.{TakesOne, Targets, Values, spots_in};
ghost use Rattle.change_binder.specs.Filling.{Tupled, filled, nulls, set_from};
ghost use Rattle.expr_binder.specs.Walking.{kept};
ghost use Rattle.sql_binding.specs.Changes.{missing_targets, spots_of, targets_named};
ghost use Rattle.sql_binding.specs.Trees.{tree_of, trees_of};

use crate::faults::keep_unless;
use crate::item::{null, storable, value};
use crate::target::target;
use dby_types::definition::ColumnDef;
use dby_types::seq::Seq;
use dby_types::state::SqlState;
use dby_types::value::{Name, Names, Ty};
use expr_binder::names::Spot;
use sql_ast::bound::{Expr, Exprs};
use sql_ast::statement::Item;
use std::alloc::{AllocError, Global};

/// All columns of the table, in its order.
fn all_columns(alloc: Global, columns: &[ColumnDef]) -> Result<Vec<Spot>, AllocError>
    requires few { length columns.now < 2 ^ 32 }
    ensures { IfOk result (λ spots. spots_in spots.items ≡ spots_of 0 columns.now) }
{
    let mut spots = Vec::with_capacity(alloc, columns.len())?;
    let mut place = 0;
    for column in columns {
        spots.push(Spot {
            place,
            ty: column.ty,
        })?;
        place += 1;
    }
    Ok(spots)
}

/// The columns of a column list.
fn named_columns(
    alloc: Global,
    columns: &[ColumnDef],
    names: &[Name],
    fault: &mut Option<SqlState>,
) -> Result<Vec<Spot>, AllocError>
    requires few { length columns.now < 2 ^ 32 }
    ensures { IfOk result (λ spots. (spots_in spots.items ≡ targets_named columns.now names.now) × (fault.new ≡ kept fault.old (missing_targets columns.now names.now))) }
{
    let mut spots = Vec::with_capacity(alloc, names.len())?;
    for name in names {
        spots.push(target(columns, name.as_slice(), fault))?;
    }
    Ok(spots)
}

/// The columns that a tuple's values are for: those of the column list, or all.
pub fn targets(
    alloc: Global,
    columns: &[ColumnDef],
    names: &Option<Names>,
    fault: &mut Option<SqlState>,
) -> Result<Vec<Spot>, AllocError>
    requires few { length columns.now < 2 ^ 32 }
    ensures { IfOk result (λ spots. Targets fault.old fault.new columns.now names.now spots.items) }
{
    match names {
        None => all_columns(alloc, columns),
        Some(names) => named_columns(alloc, columns, names.as_slice(), fault),
    }
}

/// A value that no column takes.
fn spare(_x: Expr) {}

/// A value of a tuple, for the column at its place; one behind the last column is judged for itself.
fn one_value(
    alloc: Global,
    spots: &[Spot],
    i: usize,
    item: &Item,
    fault: &mut Option<SqlState>,
    xs: &mut Vec<Expr>,
) -> Result<(), AllocError>
    ensures { OnOk result (TakesOne fault.old fault.new (spots_in (drop i spots.now)) (spots_in (drop (i + 1) spots.now)) item.now xs.old.items xs.new.items) }
{
    match spots.get(i) {
        Some(spot) => {
            let x = storable(alloc, spot.ty, item, &[], fault)?;
            xs.push(x)?;
            Ok(())
        }
        None => {
            spare(value(alloc, Ty::Int, item, &[], fault)?);
            Ok(())
        }
    }
}

/// The values of a tuple in text order.
fn values(
    alloc: Global,
    spots: &[Spot],
    items: &[Item],
    fault: &mut Option<SqlState>,
) -> Result<Vec<Expr>, AllocError>
    ensures { IfOk result (λ xs. Values fault.old fault.new (spots_in spots.now) items.now xs.items) }
{
    let mut xs = Vec::with_capacity(alloc, items.len())?;
    let mut i = 0;
    for item in items {
        one_value(alloc, spots, i, item, fault, &mut xs)?;
        i += 1;
    }
    Ok(xs)
}

/// A row of NULL in each column.
fn empty_row(alloc: Global, columns: &[ColumnDef]) -> Result<Vec<Expr>, AllocError>
    ensures { IfOk result (λ row. trees_of row.items ≡ nulls columns.now) }
{
    let mut row = Vec::with_capacity(alloc, columns.len())?;
    for column in columns {
        row.push(null(column.ty))?;
    }
    Ok(row)
}

/// Puts a value at its place, where the row has it.
fn put(row: &mut Vec<Expr>, place: usize, x: Expr)
    ensures { trees_of row.new.items ≡ set_from 0 place (tree_of x) (trees_of row.old.items) }
{
    if place < row.len() {
        row[place] = x;
    }
}

/// Puts each value at its column's place.
fn fill(row: &mut Vec<Expr>, spots: &[Spot], values: Vec<Expr>)
    requires same { length values.items ≡ length spots.now }
    ensures { trees_of row.new.items ≡ filled (spots_in spots.now) (trees_of values.items) (trees_of row.old.items) }
{
    let mut values = values;
    'last: while let Some(x) = values.pop() {
        put(row, spots[values.len()].place as usize, x);
    }
}

/// A row of the table's columns, with each value at its column's place.
fn filled_row(
    alloc: Global,
    columns: &[ColumnDef],
    spots: &[Spot],
    xs: Vec<Expr>,
) -> Result<Exprs, AllocError>
    ensures { IfOk result (λ row. length xs.items ≡ length spots.now → trees_of row ≡ filled (spots_in spots.now) (trees_of xs.items) (nulls columns.now)) }
{
    if xs.len() != spots.len() {
        return Ok(Seq::new(alloc));
    }
    let mut row = empty_row(alloc, columns)?;
    fill(&mut row, spots, xs);
    Ok(Seq::from_vec(row))
}

/// A tuple in the table's order, NULL where the column list names no column. Where it has another number of values than there are columns
/// for it, that is told, and there is no tuple.
pub fn tuple(
    alloc: Global,
    columns: &[ColumnDef],
    spots: &[Spot],
    items: &[Item],
    fault: &mut Option<SqlState>,
) -> Result<Exprs, AllocError>
    ensures { IfOk result (Tupled fault.old fault.new columns.now (spots_in spots.now) items.now) }
{
    let xs = values(alloc, spots, items, fault)?;
    keep_unless(fault, items.len() == spots.len(), SqlState::ValueCount);
    filled_row(alloc, columns, spots, xs)
}
