//! Who holds heaps.

ghost use Rattle.std.specs.Prelude.{◌≡◌};
ghost use Rattle.list_store.specs.Holders.{holder_in, with_holder, without_actor, touches, other_in, place_from, MayPut};

use arrayvec::ArrayVec;
use store_api::places::{Actor, Place};

/// An actor that holds a heap: that of its place, and one more beside it, in which it may have made room for a row.
#[derive(Clone, Copy, Debug, Default)]
pub struct Holder {
    pub actor: Actor,
    pub place: Option<Place>,
    pub page: Option<u32>,
    pub room: bool,
}

pub type Holders = ArrayVec<Holder, 65>;

/// Whether the holder has this heap.
fn has(holder: &Holder, table: u32) -> bool
    ensures { result ≡ touches holder.now table }
{
    let by_place = match holder.place {
        Some(place) => place.table == table,
        None => false,
    };
    let by_page = match holder.page {
        Some(page) => page == table,
        None => false,
    };
    by_place || by_page
}

/// What an actor holds; a holder of nothing where it holds nothing.
pub fn holder_of(holders: &[Holder], a: Actor) -> Holder
    ensures { result ≡ holder_in a holders.now }
{
    for holder in holders {
        if holder.actor == a {
            return *holder;
        }
    }
    Holder {
        actor: a,
        place: None,
        page: None,
        room: false,
    }
}

/// Another actor that has this heap.
pub fn other_holder(holders: &[Holder], a: Actor, table: u32) -> Option<Actor>
    ensures { result ≡ other_in a table holders.now }
{
    for holder in holders {
        if holder.actor != a && has(holder, table) {
            return Some(holder.actor);
        }
    }
    None
}

/// Puts down what an actor holds.
pub fn put_holder(holders: &mut Holders, new: Holder)
    requires { MayPut new.actor holders.old.items }
    ensures { holders.new.items ≡ with_holder new holders.old.items }
{
    match place_of(holders.as_slice(), new.actor) {
        Some(i) => holders.as_mut_slice()[i] = new,
        None => holders.push(new),
    }
}

/// An actor lets go of all.
pub fn remove_holder(holders: &mut Holders, a: Actor)
    ensures { holders.new.items ≡ without_actor a holders.old.items }
{
    if let Some(i) = place_of(holders.as_slice(), a) {
        let _ = holders.remove(i);
    }
}

/// Where an actor stands in the list.
fn place_of(holders: &[Holder], a: Actor) -> Option<usize>
    ensures { result ≡ place_from 0 a holders.now }
{
    for (i, holder) in holders.iter().enumerate() {
        if holder.actor == a {
            return Some(i);
        }
    }
    None
}
