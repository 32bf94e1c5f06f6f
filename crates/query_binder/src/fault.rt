//! Faults that were met elsewhere.

ghost use Rattle.std.specs.Prelude.{◌≡◌};
ghost use Rattle.sql_binding.specs.Order.{kept_with};

use change_binder::faults::keep;
use dby_types::state::SqlState;

/// The fault that was told of what comes behind.
pub fn keep_later(fault: &mut Option<SqlState>, later: Option<SqlState>)
    ensures { fault.new ≡ kept_with fault.old later }
{
    match later {
        None => {}
        Some(why) => keep(fault, why),
    }
}
