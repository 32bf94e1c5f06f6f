//! Who has something on a name, listed by name. Each place of a list is an entry of one map, so that a list needs no memory of its own.

ghost use Rattle.std.specs.Prelude.{◌≡◌, ◌≤◌, ◌<◌, ◌+◌, ◌^◌, ◌&&◌, ℕ, true, false, MatchOption};
ghost use Rattle.std.specs.HashMap.{spare};
ghost use Rattle.lock_modes.specs.Names.{same_name};
ghost use Rattle.lock_manager.specs.Places.{holder_at, is_taken, is_one, IsPacked, IsEnd, IsFilled, Lists, Unlists};

use dby_types::number::TxnNo;
use lock_modes::name::{LockName, is_same_txn};
use std::collections::HashMap;

/// A place of a name's list.
#[derive(Clone, Copy, Debug, PartialEq, Eq, Hash)]
pub struct Place {
    pub name: LockName,
    pub number: usize,
}

/// Under each name, at the places 0, 1 and so on, those who have something on it.
pub type Places = HashMap<Place, TxnNo>;

/// Who stands at a place of a name's list.
pub fn holder(places: &Places, name: LockName, number: usize) -> Option<TxnNo>
    ensures exact { result ≡ holder_at places.now name number }
{
    match places.get(&Place { name, number }) {
        Some(txn) => Some(*txn),
        None => None,
    }
}

/// The first free place of a name's list, none of whose first places is free.
fn end(places: &Places, name: LockName, from: usize) -> usize
    requires packed { IsPacked places.now }
    requires taken { (i : ℕ) → i < from → is_taken places.now name i ≡ true }
    ensures exact { IsEnd places.now name result }
    ensures above { from ≤ result }
{
    let len = places.len();
    let mut i = from;
    'each: while i < len {
        if holder(places, name, i).is_none() {
            return i;
        }
        i += 1;
    }
    i
}

/// The place at which a transaction stands.
fn place_of(places: &Places, name: LockName, txn: TxnNo) -> Option<usize>
    ensures found { MatchOption result (Unit {0}) (λ i. (i < 2 ^ 63) × (is_one (holder_at places.now name i) txn ≡ true)) }
{
    let len = places.len();
    let mut i = 0;
    'each: while i < len {
        let Some(h) = holder(places, name, i) else {
            return None;
        };
        if is_same_txn(h, txn) {
            return Some(i);
        }
        i += 1;
    }
    None
}

/// Lists a transaction under a name.
pub fn list(places: &mut Places, name: LockName, txn: TxnNo)
    requires packed { IsPacked places.old }
    requires room { 0 < spare places.old }
    ensures packed { IsPacked places.new }
    ensures listed { Lists places.old places.new name txn }
    ensures room { spare places.old ≤ spare places.new + 1 }
{
    let number = end(places, name, 0);
    let _ = places.insert(Place { name, number }, txn);
}

/// Takes a transaction out of a name's list.
pub fn unlist(places: &mut Places, name: LockName, txn: TxnNo)
    requires packed { IsPacked places.old }
    ensures packed { IsPacked places.new }
    ensures kept { Unlists places.old places.new (same_name name) txn }
    ensures room { spare places.old ≤ spare places.new }
{
    if let Some(number) = place_of(places, name, txn) {
        let end = end(places, name, number + 1);
        fill(places, name, number, end - 1);
    }
}

/// Moves the last of a list to a place.
fn fill(places: &mut Places, name: LockName, number: usize, last: usize)
    requires within { number ≤ last }
    requires taken { (is_taken places.old name number ≡ true) × (is_taken places.old name last ≡ true) }
    ensures exact { IsFilled places.old places.new name number last }
    ensures room { spare places.old ≤ spare places.new }
{
    let Some(moved) = places.remove(&Place { name, number: last }) else {
        return;
    };
    if let Some(txn) = places.get_mut(&Place { name, number }) {
        *txn = moved;
    }
}
