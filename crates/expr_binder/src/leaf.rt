//! Literals and names as bound trees.

ghost use Rattle.std.specs.Prelude.{◌≡◌, ◌<◌, ◌^◌, ◌++◌, [], IfOk, None, Some};
ghost use Rattle.expr_binder.specs.Seen.{named_spot, scope_in, sources_in, spot_of};
ghost use Rattle.expr_binder.specs.Walking.{Walked};
ghost use Rattle.sql_binding.specs.Expressions.{index_of, name_tree, place_in, spot_tree};
ghost use Rattle.sql_binding.specs.Faults as meaning;
ghost use Rattle.sql_binding.specs.Faults.{is_place, key_faults, name_faults};
ghost use Rattle.sql_binding.specs.Names.{column_named, spot_faults, spot_or, width_of};
ghost use Rattle.sql_binding.specs.Trees as t;
ghost use Rattle.sql_binding.specs.Trees.{tree_of, typed};
ghost use Rattle.sql_binding.specs.Types.{number_tree, signed as signed_of, text_tree, truth_tree};

use crate::names::{Source, Spot, column, column_of};
use crate::types::signed;
use crate::walk::{Walk, expect, find};
use dby_types::copies::copy_text;
use dby_types::definition::Places;
use dby_types::state::SqlState;
use dby_types::value::{Ty, Value};
use sql_ast::bound::{Expr, Node};
use sql_ast::expression::Sum;
use std::alloc::{AllocError, Global};
use value_compare::storing::is_number_of;

/// A number: INTEGER where it fits, and else BIGINT.
pub fn number(op: Sum, n: u64) -> Expr
    ensures { tree_of result ≡ number_tree (signed_of op n) }
{
    let m = signed(op, n);
    let ty = if is_number_of(Ty::Int, m) {
        Ty::Int
    } else {
        Ty::Big
    };
    Expr {
        node: Node::Literal(Value::Num(m)),
        ty,
    }
}

/// A text: VARCHAR of its length.
pub fn text(alloc: Global, text: &[u8]) -> Result<Expr, AllocError>
    ensures { IfOk result (λ x. tree_of x ≡ text_tree text.now) }
{
    let most = text.len().min(65535) as u16;
    let copy = copy_text(alloc, text)?;
    Ok(Expr {
        node: Node::Literal(Value::Text(copy)),
        ty: Ty::Text(most),
    })
}

pub fn truth(b: bool) -> Expr
    ensures { tree_of result ≡ truth_tree b }
{
    Expr {
        node: Node::Literal(Value::Bool(b)),
        ty: Ty::Bool,
    }
}

/// The place of a key, or where it would come behind them all.
fn index_of(p: u32, keys: &[u32]) -> usize
    ensures { result ≡ index_of p keys.now }
{
    let mut at = 0;
    for key in keys {
        if p == *key {
            return at;
        }
        at += 1;
    }
    at
}

/// Whether a place is one of the keys.
fn is_place(p: u32, keys: &[u32]) -> bool
    ensures { result ≡ is_place p keys.now }
{
    for key in keys {
        if p == *key {
            return true;
        }
    }
    false
}

/// Where a column of the joined row stands in the row of which the expression is computed.
fn place_in(keys: &Option<Places>, p: u32) -> Result<u32, AllocError>
    ensures { IfOk result (λ n. n ≡ place_in keys.now p) }
{
    match keys {
        None => Ok(p),
        Some(keys) => match u32::try_from(index_of(p, keys.as_slice())) {
            Ok(n) => Ok(n),
            Err(_) => Err(AllocError),
        },
    }
}

/// A column of the row of which the expression is computed.
pub fn at_spot(keys: &Option<Places>, spot: Spot) -> Result<Expr, AllocError>
    ensures { IfOk result (λ x. tree_of x ≡ typed (t.column (place_in keys.now spot.place)) spot.ty) }
{
    let place = place_in(keys, spot.place)?;
    Ok(Expr {
        node: Node::Column(place),
        ty: spot.ty,
    })
}

/// Where rows are grouped, a column has to be one of the keys.
pub fn expect_key(walk: &mut Walk, keys: &Option<Places>, p: u32)
    ensures { Walked walk.old walk.new (key_faults keys.now p) 0 [] }
{
    match keys {
        None => {}
        Some(keys) => expect(walk, is_place(p, keys.as_slice()), SqlState::Grouping),
    }
}

/// An aggregate may stand only where rows are grouped.
pub fn expect_groups(walk: &mut Walk, keys: &Option<Places>)
    ensures { Walked walk.old walk.new (meaning.call_faults keys.now) 0 [] }
{
    match keys {
        None => find(walk, SqlState::Grouping),
        Some(_) => {}
    }
}

/// The column that was found, or the fault that there is none, and then one that says nothing.
fn or_fault(walk: &mut Walk, found: Result<Spot, SqlState>) -> Spot
    ensures spot { spot_of result ≡ spot_or (named_spot found) }
    ensures walk { Walked walk.old walk.new (spot_faults (named_spot found)) 0 [] }
{
    match found {
        Ok(spot) => spot,
        Err(why) => {
            find(walk, why);
            Spot {
                place: 0,
                ty: Ty::Int,
            }
        }
    }
}

/// What a name stands for, as a bound tree.
fn named(
    walk: &mut Walk,
    keys: &Option<Places>,
    found: Result<Spot, SqlState>,
) -> Result<Expr, AllocError>
    ensures { IfOk result (λ x. (tree_of x ≡ typed (t.column (place_in keys.now (spot_or (named_spot found)).place)) (spot_or (named_spot found)).ty)
        × Walked walk.old walk.new (spot_faults (named_spot found) ++ key_faults keys.now (spot_or (named_spot found)).place) 0 []) }
{
    let spot = or_fault(walk, found);
    expect_key(walk, keys, spot.place);
    at_spot(keys, spot)
}

/// A name without a qualifier.
pub fn bare(
    walk: &mut Walk,
    sources: &[Source<'_>],
    keys: &Option<Places>,
    name: &[u8],
) -> Result<Expr, AllocError>
    requires fits { width_of (sources_in sources.now) < 2 ^ 32 }
    ensures { IfOk result (λ x. (tree_of x ≡ name_tree (scope_in sources.now keys.now) None name.now)
        × Walked walk.old walk.new (name_faults (scope_in sources.now keys.now) None name.now) 0 []) }
{
    named(walk, keys, column(sources, name))
}

/// A name behind a table's.
pub fn of_table(
    walk: &mut Walk,
    sources: &[Source<'_>],
    keys: &Option<Places>,
    table: &[u8],
    name: &[u8],
) -> Result<Expr, AllocError>
    requires fits { width_of (sources_in sources.now) < 2 ^ 32 }
    ensures { IfOk result (λ x. (tree_of x ≡ name_tree (scope_in sources.now keys.now) (Some table.now) name.now)
        × Walked walk.old walk.new (name_faults (scope_in sources.now keys.now) (Some table.now) name.now) 0 []) }
{
    named(walk, keys, column_of(sources, table, name))
}
