//! A walk over a statement: the fault that is told so far, and the aggregates.

ghost use Rattle.std.specs.Prelude.{◌≡◌, ◌∷◌, [], IfOk, None};
ghost use Rattle.expr_binder.specs.Walking.{Walked};
ghost use Rattle.sql_binding.specs.Bound.{sum_in};
ghost use Rattle.sql_binding.specs.Faults as meaning;

use crate::order::earlier;
use dby_types::seq::Seq;
use dby_types::state::SqlState;
use sql_ast::bound::Total;
use std::alloc::{AllocError, Global};

/// What a walk has found so far: the fault that is told, the place of the next aggregate in a group's row, and what they are computed of.
#[derive(Debug, Drop)]
pub struct Walk {
    pub fault: Option<SqlState>,
    pub next: u32,
    pub totals: Seq<Total>,
}

/// A walk that has found nothing; its aggregates stand from this place on.
pub fn begin(alloc: Global, next: u32) -> Walk
    ensures { result ≡ record { fault = None; next = next; totals = [] } }
{
    Walk {
        fault: None,
        next,
        totals: Seq::new(alloc),
    }
}

/// A fault was met.
pub fn find(walk: &mut Walk, why: SqlState)
    ensures { Walked walk.old walk.new (why ∷ []) 0 [] }
{
    walk.fault = match walk.fault {
        None => Some(why),
        Some(first) => Some(earlier(first, why)),
    };
}

/// A test was made, which has to hold.
pub fn expect(walk: &mut Walk, holds: bool, why: SqlState)
    ensures { Walked walk.old walk.new (meaning.unless holds why) 0 [] }
{
    if !holds {
        find(walk, why);
    }
}

/// The place of an aggregate, which is computed of this.
pub fn total(walk: &mut Walk, total: Total) -> Result<u32, AllocError>
    ensures { IfOk result (λ n. (n ≡ walk.old.next) × Walked walk.old walk.new [] 1 (sum_in total ∷ [])) }
{
    let place = walk.next;
    if place == u32::MAX {
        return Err(AllocError);
    }
    walk.next = place + 1;
    walk.totals.push(total)?;
    Ok(place)
}
