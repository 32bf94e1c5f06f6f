//! Whether an expression may end where its reading stands.

ghost use Rattle.std.specs.Prelude.{◌≡◌, is_some};
ghost use Rattle.sql_grammar.specs.Machine as m;
ghost use Rattle.sql_expressions.specs.Shape.{mode_of, place_of};
ghost use Rattle.sql_expressions.specs.State.{state_of};
ghost use Rattle.sql_walk.specs.Ends as e;

use sql_expressions::level::{Mode, Place};
use sql_expressions::machine::Machine;

fn ends_mode(mode: &Mode) -> bool
    ensures { result ≡ e.ends_mode (mode_of mode.now) }
{
    match mode {
        Mode::Whole(_e) => true,
        Mode::Tested(_e) => true,
        Mode::Named(_name) => true,
        Mode::Operand => false,
        Mode::Dotted(_name) => false,
        Mode::AtIs(_e) => false,
        Mode::AtIsNot(_e) => false,
        Mode::AtNot(_e) => false,
        Mode::AtIn(_negated, _e) => false,
        Mode::AtCall(_aggregate) => false,
        Mode::AtStar => false,
    }
}

fn ends_place(place: &Place) -> bool
    ensures { result ≡ e.ends_place (place_of place.now) }
{
    match place {
        Place::First => true,
        Place::Right(_comparison, _a) => true,
        Place::High(_negated, _a, _low) => true,
        Place::Low(_negated, _a) => false,
        Place::Member(_negated, _a, _members) => false,
    }
}

/// Whether an expression ends here.
#[tactic(auto, using(crate::proofs::Ends::ends_here))]
pub fn may_end(machine: &Machine) -> bool
    ensures { result ≡ is_some (m.ended (state_of machine.now)) }
{
    machine.outer.is_empty() && ends_mode(&machine.mode) && ends_place(&machine.level.place)
}
