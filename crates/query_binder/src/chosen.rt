//! What a query shows, of rows or of groups.

ghost use Rattle.std.specs.Prelude.{◌≡◌, ◌<◌, ◌^◌, [], IfOk, nat_lt, true};
ghost use Rattle.expr_binder.specs.Seen.{scope_in, sources_in};
ghost use Rattle.query_binder.specs.Showing.{Chooses, Shows};
ghost use Rattle.sql_binding.specs.Grouping.{is_empty, is_grouped, key_places};
ghost use Rattle.sql_binding.specs.Items.{calls_of, items_of};
ghost use Rattle.sql_binding.specs.Names.{width_of};

use crate::items::items;
use crate::stars::stars;
use dby_types::definition::Places;
use dby_types::seq::Seq;
use dby_types::state::SqlState;
use expr_binder::names::Source;
use expr_binder::walk::{Walk, begin};
use sql_ast::bound::{Grouping, Out};
use sql_ast::statement::{SelectText, Shown};
use std::alloc::{AllocError, Global};

/// The columns of a query's answer, and how the joined rows are grouped for them.
#[derive(Debug, Drop)]
pub struct Chosen {
    pub outs: Seq<Out>,
    pub grouping: Option<Grouping>,
}

/// All columns, or the select items.
fn shown(
    alloc: Global,
    text: &Shown,
    sources: &[Source<'_>],
    keys: &Option<Places>,
    walk: &mut Walk,
) -> Result<Seq<Out>, AllocError>
    requires fits { width_of (sources_in sources.now) < 2 ^ 32 }
    ensures { IfOk result (Shows (scope_in sources.now keys.now) text.now walk.old walk.new) }
{
    match text {
        Shown::All => stars(alloc, sources, keys, walk),
        Shown::These(texts) => items(alloc, texts.as_slice(), sources, keys, walk),
    }
}

/// A walk over select items, whose aggregates stand behind this many keys.
fn walk_behind(alloc: Global, keys: usize, fault: Option<SqlState>) -> Result<Walk, AllocError>
    ensures { IfOk result (λ w. w ≡ record { fault = fault; next = keys; totals = [] }) }
{
    match u32::try_from(keys) {
        Ok(next) => {
            let mut walk = begin(alloc, next);
            walk.fault = fault;
            Ok(walk)
        }
        Err(_) => Err(AllocError),
    }
}

/// What a query shows of its groups.
fn of_groups(
    alloc: Global,
    text: &Shown,
    sources: &[Source<'_>],
    keys: Places,
    whole: bool,
    fault: &mut Option<SqlState>,
) -> Result<Chosen, AllocError>
    requires fits { width_of (sources_in sources.now) < 2 ^ 32 }
    ensures { IfOk result (Chooses (sources_in sources.now) true whole keys text.now fault.old fault.new) }
{
    let mut walk = walk_behind(alloc, keys.len(), *fault)?;
    let scope = Some(keys);
    let outs = shown(alloc, text, sources, &scope, &mut walk)?;
    *fault = walk.fault;
    match scope {
        Some(keys) => Ok(Chosen {
            outs,
            grouping: Some(Grouping {
                whole,
                keys,
                totals: walk.totals,
            }),
        }),
        None => unreachable!(),
    }
}

/// What a query without GROUP BY shows. Where a select item has an aggregate all rows are one group, and the items are bound again over that.
fn of_rows(
    alloc: Global,
    text: &Shown,
    sources: &[Source<'_>],
    fault: &mut Option<SqlState>,
) -> Result<Chosen, AllocError>
    requires fits { width_of (sources_in sources.now) < 2 ^ 32 }
    ensures { IfOk result (Chooses (sources_in sources.now) (nat_lt 0 (calls_of (items_of text.now))) true [] text.now fault.old fault.new) }
{
    let mut walk = walk_behind(alloc, 0, *fault)?;
    let outs = shown(alloc, text, sources, &None, &mut walk)?;
    if walk.next == 0 {
        *fault = walk.fault;
        return Ok(Chosen {
            outs,
            grouping: None,
        });
    }
    of_groups(alloc, text, sources, Seq::new(alloc), true, fault)
}

/// What a query shows, of rows, or of the groups that these keys make.
pub fn choose(
    alloc: Global,
    q: &SelectText,
    sources: &[Source<'_>],
    keys: Places,
    fault: &mut Option<SqlState>,
) -> Result<Chosen, AllocError>
    requires fits { width_of (sources_in sources.now) < 2 ^ 32 }
    requires places { keys ≡ key_places (sources_in sources.now) q.now.group }
    ensures { IfOk result (Chooses (sources_in sources.now) (is_grouped q.now) (is_empty q.now.group) keys q.now.shown fault.old fault.new) }
{
    if q.group.is_empty() {
        of_rows(alloc, &q.shown, sources, fault)
    } else {
        of_groups(alloc, &q.shown, sources, keys, false, fault)
    }
}
