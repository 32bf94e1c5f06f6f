//! A query.

ghost use Rattle.std.specs.Prelude.{◌≡◌, ◌<◌, ◌^◌, ◌++◌, IfOk, OnOk, length};
ghost use Rattle.expr_binder.specs.Seen.{sources_in};
ghost use Rattle.expr_binder.specs.Walking.{kept};
ghost use Rattle.name_binder.specs.Lent.{texts};
ghost use Rattle.query_binder.specs.Asking.{Asks, AsksOver};
ghost use Rattle.query_binder.specs.Showing.{Joins};
ghost use Rattle.sql_binding.specs.From.{exposed_names, limit_faults, twice_faults};
ghost use Rattle.sql_binding.specs.Names.{width_of};

use crate::chosen::choose;
use crate::condition::{filter, on};
use crate::fault::keep_later;
use crate::found::{Tables, find_tables};
use crate::group::keys;
use crate::order::order;
use crate::room::has_room;
use change_binder::faults::keep_unless;
use dby_types::seq::Seq;
use dby_types::state::SqlState;
use expr_binder::names::Source;
use name_binder::catalog::Catalog;
use name_binder::twice::has_twice;
use sql_ast::bound::{BoundSelect, Exprs};
use sql_ast::statement::SelectText;
use std::alloc::{AllocError, Global};

/// At most this many tables stand in FROM.
const MOST_TABLES: usize = 8;

/// The names by which the tables are known.
fn exposed<'a>(alloc: Global, sources: &[Source<'a>]) -> Result<Vec<&'a [u8]>, AllocError>
    ensures { IfOk result (λ names. texts names.items ≡ exposed_names (sources_in sources.now)) }
{
    let mut names = Vec::with_capacity(alloc, sources.len())?;
    for source in sources {
        names.push(source.exposed)?;
    }
    Ok(names)
}

/// No two tables are known by one name, and there aren't too many.
fn judge_tables(
    alloc: Global,
    sources: &[Source<'_>],
    fault: &mut Option<SqlState>,
) -> Result<(), AllocError>
    ensures { OnOk result (fault.new ≡ kept fault.old (twice_faults (exposed_names (sources_in sources.now)) ++ limit_faults (length sources.now) 8)) }
{
    let names = exposed(alloc, sources)?;
    let twice = has_twice(alloc, names.as_slice())?;
    keep_unless(fault, !twice, SqlState::NameTwice);
    keep_unless(fault, sources.len() <= MOST_TABLES, SqlState::TooLarge);
    Ok(())
}

/// The conjuncts of ON, and then those of WHERE.
fn conditions(
    alloc: Global,
    q: &SelectText,
    sources: &[Source<'_>],
    fault: &mut Option<SqlState>,
) -> Result<Exprs, AllocError>
    requires fits { width_of (sources_in sources.now) < 2 ^ 32 }
    ensures { IfOk result (Joins (sources_in sources.now) q.now fault.old fault.new) }
{
    let mut conjuncts = Seq::new(alloc);
    on(alloc, q.from.as_slice(), sources, fault, &mut conjuncts)?;
    filter(alloc, &q.condition, sources, fault, &mut conjuncts)?;
    Ok(conjuncts)
}

/// A query over these tables.
fn over(
    alloc: Global,
    q: &SelectText,
    sources: &[Source<'_>],
    numbers: Seq<u32>,
    fault: &mut Option<SqlState>,
) -> Result<BoundSelect, AllocError>
    requires fits { width_of (sources_in sources.now) < 2 ^ 32 }
    ensures { IfOk result (AsksOver (sources_in sources.now) numbers q.now fault.old fault.new) }
{
    let mut of_group = None;
    let places = keys(alloc, sources, q.group.as_slice(), &mut of_group)?;
    let chosen = choose(alloc, q, sources, places, fault)?;
    let conjuncts = conditions(alloc, q, sources, fault)?;
    keep_later(fault, of_group);
    let order = order(alloc, q.order.as_slice(), chosen.outs.as_slice(), fault)?;
    judge_tables(alloc, sources, fault)?;
    Ok(BoundSelect {
        distinct: q.distinct,
        outs: chosen.outs,
        tables: numbers,
        conjuncts,
        grouping: chosen.grouping,
        order,
    })
}

/// A query bound to a dictionary, and the fault that is told of it and so far.
pub fn query<'a, D: Catalog>(
    alloc: Global,
    q: &'a SelectText,
    d: &'a D,
    fault: &mut Option<SqlState>,
) -> Result<BoundSelect, AllocError>
    ensures { IfOk result (Asks (D.dictionary d.now) q.now fault.old fault.new) }
{
    let found = find_tables(alloc, d, q.from.as_slice(), *fault)?;
    let Tables {
        sources,
        numbers,
        fault: told,
    } = found;
    if !has_room(sources.as_slice()) {
        return Err(AllocError);
    }
    *fault = told;
    over(alloc, q, sources.as_slice(), numbers, fault)
}
