//! The fault that is told so far.

ghost use Rattle.std.specs.Prelude.{◌≡◌, ◌∷◌, []};
ghost use Rattle.expr_binder.specs.Walking.{kept};
ghost use Rattle.sql_binding.specs.Faults as meaning;

use dby_types::state::SqlState;
use expr_binder::order::earlier;

/// A fault was met.
pub fn keep(fault: &mut Option<SqlState>, why: SqlState)
    ensures { fault.new ≡ kept fault.old (why ∷ []) }
{
    *fault = match *fault {
        None => Some(why),
        Some(first) => Some(earlier(first, why)),
    };
}

/// A test was made, which has to hold.
pub fn keep_unless(fault: &mut Option<SqlState>, holds: bool, why: SqlState)
    ensures { fault.new ≡ kept fault.old (meaning.unless holds why) }
{
    if !holds {
        keep(fault, why);
    }
}
