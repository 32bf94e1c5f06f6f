//! The order of refusals.

ghost use Rattle.std.specs.Prelude.{◌≡◌, Some};
ghost use Rattle.sql_binding.specs.Order as meaning;

use dby_types::state::SqlState;

/// The class of a refusal, the earliest first.
fn class_of(why: SqlState) -> u8
    ensures { result ≡ meaning.class_of why }
{
    match why {
        SqlState::NoTable | SqlState::NameExists | SqlState::NothingToDrop => 0,
        SqlState::NoColumn | SqlState::AmbiguousColumn | SqlState::NotInTarget => 1,
        SqlState::ValueCount => 2,
        SqlState::NotComparable | SqlState::NotStorable | SqlState::WrongOperand => 3,
        SqlState::NameTwice => 4,
        SqlState::Grouping => 5,
        SqlState::SecondPrimaryKey => 6,
        SqlState::TooLarge => 7,
        _ => 8,
    }
}

/// The one of two refusals that is told, where the second was found behind the first.
pub fn earlier(first: SqlState, second: SqlState) -> SqlState
    ensures { result ≡ meaning.or_earlier first (Some second) }
{
    if class_of(second) < class_of(first) {
        second
    } else {
        first
    }
}
