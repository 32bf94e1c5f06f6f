//! Select items.

ghost use Rattle.std.specs.Prelude.{◌<◌, ◌^◌, IfOk};
ghost use Rattle.expr_binder.specs.Seen.{scope_in, sources_in};
ghost use Rattle.query_binder.specs.Showing.{Lists};
ghost use Rattle.sql_binding.specs.Names.{width_of};

use crate::named::out_name;
use dby_types::definition::Places;
use dby_types::seq::Seq;
use expr_binder::expression::expression;
use expr_binder::names::Source;
use expr_binder::walk::Walk;
use sql_ast::bound::Out;
use sql_ast::statement::OutText;
use std::alloc::{AllocError, Global};

/// The select items with their names, over the joined row of these tables, or over a group's row where there are keys.
pub fn items(
    alloc: Global,
    texts: &[OutText],
    sources: &[Source<'_>],
    keys: &Option<Places>,
    walk: &mut Walk,
) -> Result<Seq<Out>, AllocError>
    requires fits { width_of (sources_in sources.now) < 2 ^ 32 }
    ensures { IfOk result (Lists (scope_in sources.now keys.now) texts.now walk.old walk.new) }
{
    let mut outs = Seq::new(alloc);
    let mut position = 0;
    for text in texts {
        position += 1;
        let name = out_name(alloc, position, text)?;
        let expression = expression(alloc, &text.expression, sources, keys, walk)?;
        outs.push(Out { name, expression })?;
    }
    Ok(outs)
}
