//! A value for a column: NULL, or an expression.

ghost use Rattle.std.specs.Prelude.{◌≡◌, ◌<◌, ◌^◌, IfOk};
ghost use Rattle.change_binder.specs.Binding.{Gives};
ghost use Rattle.expr_binder.specs.Seen.{sources_in};
ghost use Rattle.sql_binding.specs.Changes as meaning;
ghost use Rattle.sql_binding.specs.Names.{width_of};
ghost use Rattle.sql_binding.specs.Trees.{tree_of};

use crate::faults::keep_unless;
use crate::over::over_rows;
use dby_types::state::SqlState;
use dby_types::value::{Ty, Value};
use expr_binder::names::Source;
use expr_binder::tree::ty_of;
use expr_binder::types::same_kind;
use sql_ast::bound::{Expr, Node};
use sql_ast::statement::Item;
use std::alloc::{AllocError, Global};

/// NULL of a column's type.
pub fn null(ty: Ty) -> Expr
    ensures { tree_of result ≡ meaning.null_tree ty }
{
    Expr {
        node: Node::Literal(Value::Null),
        ty,
    }
}

/// A value for a column of a type.
pub fn value(
    alloc: Global,
    ty: Ty,
    item: &Item,
    sources: &[Source<'_>],
    fault: &mut Option<SqlState>,
) -> Result<Expr, AllocError>
    requires fits { width_of (sources_in sources.now) < 2 ^ 32 }
    ensures { IfOk result (λ x. Gives fault.old fault.new (meaning.item_tree (sources_in sources.now) ty item.now) (meaning.own_faults (sources_in sources.now) item.now) x) }
{
    match item {
        Item::Null => Ok(null(ty)),
        Item::Value(e) => over_rows(alloc, e, sources, fault),
    }
}

/// A value that a column of a type can store.
pub fn storable(
    alloc: Global,
    ty: Ty,
    item: &Item,
    sources: &[Source<'_>],
    fault: &mut Option<SqlState>,
) -> Result<Expr, AllocError>
    requires fits { width_of (sources_in sources.now) < 2 ^ 32 }
    ensures { IfOk result (λ x. Gives fault.old fault.new (meaning.item_tree (sources_in sources.now) ty item.now) (meaning.storable_faults (sources_in sources.now) ty item.now) x) }
{
    let x = value(alloc, ty, item, sources, fault)?;
    keep_unless(fault, same_kind(ty, ty_of(&x)), SqlState::NotStorable);
    Ok(x)
}
