//! What SET changes.

ghost use Rattle.std.specs.Prelude.{◌<◌, ◌^◌, IfOk, length};
ghost use Rattle.change_binder.specs.Binding.{Sets};
ghost use Rattle.expr_binder.specs.Seen.{sources_in};
ghost use Rattle.sql_binding.specs.Names.{width_of};

use crate::item::storable;
use crate::target::target;
use dby_types::definition::ColumnDef;
use dby_types::seq::Seq;
use dby_types::state::SqlState;
use expr_binder::names::Source;
use sql_ast::bound::BoundSet;
use sql_ast::statement::SetText;
use std::alloc::{AllocError, Global};

/// The columns that SET changes, with their new values over the old row.
pub fn sets(
    alloc: Global,
    columns: &[ColumnDef],
    sources: &[Source<'_>],
    texts: &[SetText],
    fault: &mut Option<SqlState>,
) -> Result<Seq<BoundSet>, AllocError>
    requires few { length columns.now < 2 ^ 32 }
    requires fits { width_of (sources_in sources.now) < 2 ^ 32 }
    ensures { IfOk result (Sets fault.old fault.new columns.now (sources_in sources.now) texts.now) }
{
    let mut bound = Seq::new(alloc);
    for text in texts {
        let spot = target(columns, text.column.as_slice(), fault);
        let value = storable(alloc, spot.ty, &text.item, sources, fault)?;
        bound.push(BoundSet {
            column: spot.place,
            value,
        })?;
    }
    Ok(bound)
}
