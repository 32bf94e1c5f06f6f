//! How many columns the tables of FROM have.

ghost use Rattle.std.specs.Prelude.{◌<◌, ◌^◌, IsTrue};
ghost use Rattle.expr_binder.specs.Seen.{sources_in};
ghost use Rattle.sql_binding.specs.Names.{width_of};

use expr_binder::names::Source;

/// Whether each column has a place of 32 bits.
pub fn has_room(sources: &[Source<'_>]) -> bool
    ensures { IsTrue result → width_of (sources_in sources.now) < 2 ^ 32 }
{
    let mut left = u32::MAX as usize;
    for source in sources {
        let columns = source.columns.len();
        if left < columns {
            return false;
        }
        left -= columns;
    }
    true
}
