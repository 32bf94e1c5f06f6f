//! The columns that a change is of.

ghost use Rattle.std.specs.Prelude.{◌<◌, ◌+◌, ◌^◌, length};
ghost use Rattle.change_binder.specs.Binding.{Aims};

use crate::faults::keep;
use dby_types::definition::ColumnDef;
use dby_types::state::SqlState;
use dby_types::value::Ty;
use expr_binder::names::{Spot, spot_from};

/// The column of a name in the table, or the fault that there is none, and then one that says nothing.
pub fn target(columns: &[ColumnDef], name: &[u8], fault: &mut Option<SqlState>) -> Spot
    requires fits { length columns.now < 2 ^ 32 }
    ensures { Aims fault.old fault.new columns.now name.now result }
{
    match spot_from(0, name, columns) {
        Some(spot) => spot,
        None => {
            keep(fault, SqlState::NotInTarget);
            Spot {
                place: 0,
                ty: Ty::Int,
            }
        }
    }
}
