//! The table that a change is of.

ghost use Rattle.std.specs.Prelude.{◌≡◌, ◌<◌, ◌^◌, IfOk, length};
ghost use Rattle.sql_binder.specs.Making.{IsTarget};

use change_binder::faults::keep;
use dby_types::definition::ColumnDef;
use dby_types::state::SqlState;
use name_binder::catalog::Catalog;
use std::alloc::AllocError;

/// A table's number and columns; one that isn't there has none.
#[derive(Clone, Copy, Debug)]
pub struct Target<'a> {
    pub number: u32,
    pub columns: &'a [ColumnDef],
}

/// A table whose columns have places of 32 bits.
fn with_places<'a>(number: u32, columns: &'a [ColumnDef]) -> Result<Target<'a>, AllocError>
    ensures { IfOk result (λ t. (t.number ≡ number) × (t.columns.now ≡ columns.now) × (length t.columns.now < 2 ^ 32)) }
{
    if columns.len() > u32::MAX as usize {
        return Err(AllocError);
    }
    Ok(Target { number, columns })
}

/// The table of a name, and the fault that is told where there is none.
pub fn find_target<'a, D: Catalog>(
    d: &'a D,
    name: &[u8],
    fault: &mut Option<SqlState>,
) -> Result<Target<'a>, AllocError>
    ensures { IfOk result (IsTarget (D.dictionary d.now) name.now fault.old fault.new) }
{
    match d.table(name) {
        Some(table) => with_places(table.number, table.columns.as_slice()),
        None => {
            keep(fault, SqlState::NoTable);
            with_places(0, &[])
        }
    }
}
