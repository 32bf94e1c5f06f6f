//! `*`, all columns of FROM.

ghost use Rattle.std.specs.Prelude.{◌<◌, ◌+◌, ◌^◌, IfOk, OnOk, length};
ghost use Rattle.expr_binder.specs.Seen.{scope_in, sources_in};
ghost use Rattle.query_binder.specs.Showing.{ListsAll, ListsColumns, ListsOne};
ghost use Rattle.sql_binding.specs.Names.{width_of};

use dby_types::copies::copy_text;
use dby_types::definition::{ColumnDef, Places};
use dby_types::seq::Seq;
use expr_binder::leaf::{at_spot, expect_key};
use expr_binder::names::{Source, Spot};
use expr_binder::walk::Walk;
use sql_ast::bound::Out;
use std::alloc::{AllocError, Global};

/// The column at a place of the joined row.
fn column(
    alloc: Global,
    place: u32,
    column: &ColumnDef,
    keys: &Option<Places>,
    walk: &mut Walk,
) -> Result<Out, AllocError>
    ensures { IfOk result (ListsOne keys.now place column.now walk.old walk.new) }
{
    let name = copy_text(alloc, column.name.as_slice())?;
    expect_key(walk, keys, place);
    let spot = Spot {
        place,
        ty: column.ty,
    };
    let expression = at_spot(keys, spot)?;
    Ok(Out { name, expression })
}

/// The columns of a table that begin at a place of the joined row.
fn columns(
    alloc: Global,
    at: u32,
    columns: &[ColumnDef],
    keys: &Option<Places>,
    walk: &mut Walk,
    outs: &mut Seq<Out>,
) -> Result<(), AllocError>
    requires fits { at + length columns.now < 2 ^ 32 }
    ensures { OnOk result (ListsColumns keys.now at columns.now walk.old walk.new outs.old outs.new) }
{
    let mut place = at;
    for def in columns {
        outs.push(column(alloc, place, def, keys, walk)?)?;
        place += 1;
    }
    Ok(())
}

/// All columns of these tables, in FROM order.
pub fn stars(
    alloc: Global,
    sources: &[Source<'_>],
    keys: &Option<Places>,
    walk: &mut Walk,
) -> Result<Seq<Out>, AllocError>
    requires fits { width_of (sources_in sources.now) < 2 ^ 32 }
    ensures { IfOk result (ListsAll (scope_in sources.now keys.now) walk.old walk.new) }
{
    let mut outs = Seq::new(alloc);
    let mut at = 0;
    for source in sources {
        columns(alloc, at, source.columns, keys, walk, &mut outs)?;
        at += source.columns.len() as u32;
    }
    Ok(outs)
}
