//! GROUP BY.

ghost use Rattle.std.specs.Prelude.{◌≡◌, ◌<◌, ◌^◌, IfOk};
ghost use Rattle.expr_binder.specs.Seen.{named_spot, sources_in};
ghost use Rattle.expr_binder.specs.Walking.{kept};
ghost use Rattle.query_binder.specs.Showing.{Groups};
ghost use Rattle.sql_binding.specs.Names.{column_named, spot_faults, spot_or, width_of};

use change_binder::faults::keep;
use dby_types::definition::Places;
use dby_types::seq::Seq;
use dby_types::state::SqlState;
use expr_binder::names::{Source, Spot, column, column_of};
use sql_ast::statement::GroupText;
use std::alloc::{AllocError, Global};

/// The place of a column that was found, or the fault that there is none, and then one that says nothing.
fn place_or_fault(found: Result<Spot, SqlState>, fault: &mut Option<SqlState>) -> u32
    ensures { (result ≡ (spot_or (named_spot found)).place) × (fault.new ≡ kept fault.old (spot_faults (named_spot found))) }
{
    match found {
        Ok(spot) => spot.place,
        Err(why) => {
            keep(fault, why);
            0
        }
    }
}

/// The place in the joined row of what GROUP BY names.
fn key(sources: &[Source<'_>], text: &GroupText, fault: &mut Option<SqlState>) -> u32
    requires fits { width_of (sources_in sources.now) < 2 ^ 32 }
    ensures { (result ≡ (spot_or (column_named (sources_in sources.now) text.now.table text.now.column)).place)
        × (fault.new ≡ kept fault.old (spot_faults (column_named (sources_in sources.now) text.now.table text.now.column))) }
{
    match &text.table {
        None => place_or_fault(column(sources, text.column.as_slice()), fault),
        Some(table) => place_or_fault(
            column_of(sources, table.as_slice(), text.column.as_slice()),
            fault,
        ),
    }
}

/// The places in the joined row of all that GROUP BY names.
pub fn keys(
    alloc: Global,
    sources: &[Source<'_>],
    texts: &[GroupText],
    fault: &mut Option<SqlState>,
) -> Result<Places, AllocError>
    requires fits { width_of (sources_in sources.now) < 2 ^ 32 }
    ensures { IfOk result (Groups (sources_in sources.now) texts.now fault.old fault.new) }
{
    let mut places = Seq::new(alloc);
    for text in texts {
        places.push(key(sources, text, fault))?;
    }
    Ok(places)
}
