//! Which actors were sent onward since their last answer of another kind.

ghost use Rattle.std.specs.Prelude.{◌≡◌, None, false, replicate};
ghost use Rattle.std.specs.Bool.{OnTrue};
ghost use Rattle.store_trials.specs.Sent.{IsNew, cleared, is_end_of_move, is_end_of_making, is_end_of_undo};

use store_api::answers::{Made, Moved, StoreAnswer, Undo};
use store_api::places::Actor;
use store_api::store::RowStore;

/// The actors 0 to 64, with true for each that was sent onward. Others are never sent.
pub type Marks = [bool; 65];

/// Nobody was sent onward.
pub fn nobody() -> Marks
    ensures { result ≡ replicate 65 false }
{
    [false; 65]
}

/// Whether the actor may be sent onward now: it wasn't since its last answer of another kind, and the store keeps no answer.
pub fn may_send<S: RowStore>(store: &S, marks: &[bool], a: Actor) -> bool
    ensures { OnTrue result (((S.view store.now).meters.keeps ≡ None) × IsNew marks.now a) }
{
    match store.held(a) {
        Ok(_at) => is_new(marks, a),
        Err(_) => false,
    }
}

/// The same of an actor that is at no place.
pub fn may_send_to_start<S: RowStore>(store: &S, marks: &[bool], a: Actor) -> bool
    ensures { OnTrue result (((S.view store.now).meters.keeps ≡ None) × (((S.view store.now).actors a).place ≡ None) × IsNew marks.now a) }
{
    match store.held(a) {
        Ok(None) => is_new(marks, a),
        _ => false,
    }
}

fn is_new(marks: &[bool], a: Actor) -> bool
    ensures { OnTrue result (IsNew marks.now a) }
{
    match marks.get(a as usize) {
        Some(sent) => !*sent,
        None => false,
    }
}

/// Ends an actor's turns, where its call has ended them.
pub fn clear(marks: &mut [bool], a: Actor, is_end: bool)
    ensures { marks.new ≡ cleared marks.old a is_end }
{
    if is_end && (a as usize) < marks.len() {
        marks[a as usize] = false;
    }
}

pub fn ends_move(answer: &Result<Moved, StoreAnswer>) -> bool
    ensures { result ≡ is_end_of_move answer.now }
{
    match answer {
        Ok(Moved::Onward) => false,
        Ok(_) => true,
        Err(_) => false,
    }
}

pub fn ends_making(answer: &Result<Made, StoreAnswer>) -> bool
    ensures { result ≡ is_end_of_making answer.now }
{
    match answer {
        Ok(Made::Onward) => false,
        Ok(_) => true,
        Err(_) => false,
    }
}

pub fn ends_undo(answer: &Result<Undo, StoreAnswer>) -> bool
    ensures { result ≡ is_end_of_undo answer.now }
{
    match answer {
        Ok(Undo::Onward) => false,
        Ok(_) => true,
        Err(_) => false,
    }
}
