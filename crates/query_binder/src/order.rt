//! ORDER BY.

ghost use Rattle.std.specs.Prelude.{◌≡◌, IfOk};
ghost use Rattle.query_binder.specs.Showing.{Aims, Orders};
ghost use Rattle.sql_binding.specs.Bound.{shown_of};
ghost use Rattle.sql_binding.specs.Ordering.{order_place, place_at, place_named};

use change_binder::faults::keep;
use dby_types::seq::Seq;
use dby_types::state::SqlState;
use expr_binder::names::is_name;
use sql_ast::bound::{OrderKey, Out};
use sql_ast::statement::{OrderBy, OrderText};
use std::alloc::{AllocError, Global};

/// The first column of a name.
fn place_named(name: &[u8], outs: &[Out]) -> Option<usize>
    ensures { result ≡ place_named name.now (shown_of outs.now) }
{
    let mut place = 0;
    for out in outs {
        if is_name(name, out.name.as_slice()) {
            return Some(place);
        }
        place += 1;
    }
    None
}

/// The column at a position from 1.
fn place_at(position: u64, count: usize) -> Option<usize>
    ensures { result ≡ place_at position count }
{
    if 1 <= position && position <= count as u64 {
        Some((position - 1) as usize)
    } else {
        None
    }
}

/// What a key of ORDER BY names.
fn order_place(by: &OrderBy, outs: &[Out]) -> Option<usize>
    ensures { result ≡ order_place (shown_of outs.now) by.now }
{
    match by {
        OrderBy::Name(name) => place_named(name.as_slice(), outs),
        OrderBy::Position(n) => place_at(*n, outs.len()),
    }
}

/// The place that was found, or the fault that there is none, and then one that says nothing.
fn aim(found: Option<usize>, fault: &mut Option<SqlState>) -> Result<u32, AllocError>
    ensures { IfOk result (Aims found fault.old fault.new) }
{
    match found {
        Some(place) => match u32::try_from(place) {
            Ok(place) => Ok(place),
            Err(_) => Err(AllocError),
        },
        None => {
            keep(fault, SqlState::NoColumn);
            Ok(0)
        }
    }
}

/// The keys of ORDER BY, each a column of the answer.
pub fn order(
    alloc: Global,
    texts: &[OrderText],
    outs: &[Out],
    fault: &mut Option<SqlState>,
) -> Result<Seq<OrderKey>, AllocError>
    ensures { IfOk result (Orders (shown_of outs.now) texts.now fault.old fault.new) }
{
    let mut keys = Seq::new(alloc);
    for text in texts {
        let place = aim(order_place(&text.by, outs), fault)?;
        keys.push(OrderKey {
            place,
            descends: text.descends,
        })?;
    }
    Ok(keys)
}
