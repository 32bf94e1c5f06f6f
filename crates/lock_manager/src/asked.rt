//! The requests of a line, listed by the name that they ask for, so that a question about a name looks at no other.

ghost use Rattle.std.specs.Prelude.{◌≡◌, ◌≤◌, ◌<◌, ◌+◌, ℕ, true, false, ◌&&◌, not, MatchOption, length, ◌++◌, ◌∷◌, [], Some, None, take, if◌then◌else◌};
ghost use Rattle.std.specs.HashMap.{spare, get};
ghost use Rattle.std.specs.List.{list_any, remove, slice_get};
ghost use Rattle.std.specs.Option.{is_some};
ghost use Rattle.dby_types.specs.declared.number.TxnNo.{TxnNo};
ghost use Rattle.lock_modes.specs.Names.{same_txn};
ghost use Rattle.lock_modes.specs.Waits.{asks_before};
ghost use Rattle.lock_manager.specs.Asked.{asks_for, is_asked, asked_at, asked_before, is_apart, is_of, IsByName, Closes};
ghost use Rattle.lock_manager.specs.Places.{same_place, place};
ghost use Rattle.lock_manager.specs.Serve.{contests};
ghost use Rattle.lock_manager.specs.declared.places.Place.{Place};

use crate::places::Place;
use dby_types::number::TxnNo;
use lock_modes::entry::Request;
use lock_modes::mode::{Mode, compatible};
use lock_modes::name::{LockName, is_same_name, is_same_txn};
use std::collections::HashMap;

/// Under each name, at the places 0, 1 and so on, a line's requests for it.
pub type Asked = HashMap<Place, Request>;

/// The request at a place of a name's list.
pub fn request_at(asked: &Asked, name: LockName, number: usize) -> Option<Request>
    ensures exact { result ≡ asked_at asked.now name number }
{
    match asked.get(&Place { name, number }) {
        Some(r) => Some(*r),
        None => None,
    }
}

/// Whether anybody asks for a name.
pub fn is_asked(asked: &Asked, line: &[Request], name: LockName) -> bool
    requires { IsByName asked.now line.now }
    ensures exact { result ≡ is_asked name line.now }
{
    if line.is_empty() {
        return false;
    }
    request_at(asked, name, 0).is_some()
}

/// Whether a request on the name isn't compatible with the mode.
fn contests(q: Request, name: LockName, mode: Mode) -> bool
    ensures exact { result ≡ contests name mode q }
{
    is_same_name(q.name, name) && !compatible(q.mode, mode)
}

/// Whether a request of another transaction is in the way of one.
fn is_in_way(q: Request, r: Request) -> bool
    ensures exact { result ≡ (not (same_txn q.txn r.txn) && contests r.name r.mode q) }
{
    !is_same_txn(q.txn, r.txn) && contests(q, r.name, r.mode)
}

/// A transaction, other than the one that asks, with a request that is in the way.
pub fn asker_in_way(asked: &Asked, line: &[Request], r: Request) -> Option<TxnNo>
    requires { IsByName asked.now line.now }
    ensures found { MatchOption result ((h : TxnNo) → (not (same_txn h r.txn) && asks_before line.now r h) ≡ false) (λ h. (not (same_txn h r.txn) && asks_before line.now r h) ≡ true) }
{
    let len = line.len();
    let mut i = 0;
    'each: while i < len {
        let Some(q) = request_at(asked, r.name, i) else {
            return None;
        };
        if is_in_way(q, r) {
            return Some(q.txn);
        }
        i += 1;
    }
    None
}

/// Whether any request on the name isn't compatible with the mode.
pub fn is_contested(asked: &Asked, line: &[Request], name: LockName, mode: Mode) -> bool
    requires { IsByName asked.now line.now }
    ensures exact { result ≡ list_any (contests name mode) line.now }
{
    let len = line.len();
    let mut i = 0;
    'each: while i < len {
        let Some(q) = request_at(asked, name, i) else {
            return false;
        };
        if contests(q, name, mode) {
            return true;
        }
        i += 1;
    }
    false
}

/// How many requests for a name there are.
fn end(asked: &Asked, line: &[Request], name: LockName) -> usize
    requires { IsByName asked.now line.now }
    ensures exact { result ≡ length (asks_for name line.now) }
{
    let len = line.len();
    let mut i = 0;
    'each: while i < len {
        if request_at(asked, name, i).is_none() {
            return i;
        }
        i += 1;
    }
    i
}

/// A transaction, other than the one that asks, with a request that is in the way of one in the line and stands before it.
pub fn asker_before(asked: &Asked, line: &[Request], at: usize, r: Request) -> Option<TxnNo>
    requires by_name { IsByName asked.now line.now }
    requires apart { is_apart line.now ≡ true }
    requires there { slice_get line.now at ≡ Some r }
    ensures found { MatchOption result ((h : TxnNo) → (not (same_txn h r.txn) && asks_before (take at line.now) r h) ≡ false) (λ h. (not (same_txn h r.txn) && asks_before (take at line.now) r h) ≡ true) }
{
    let len = line.len();
    let mut i = 0;
    'each: while i < len {
        let Some(q) = request_at(asked, r.name, i) else {
            return None;
        };
        if is_same_txn(q.txn, r.txn) {
            return None;
        }
        if is_in_way(q, r) {
            return Some(q.txn);
        }
        i += 1;
    }
    None
}

/// Where in its name's list a request of the line stands: where its transaction does.
fn number_of(asked: &Asked, line: &[Request], at: usize, r: Request) -> usize
    requires by_name { IsByName asked.now line.now }
    requires apart { is_apart line.now ≡ true }
    requires there { slice_get line.now at ≡ Some r }
    ensures exact { result ≡ asked_before r.name line.now at }
{
    let len = line.len();
    let mut i = 0;
    'each: while i < len {
        if is_of(request_at(asked, r.name, i), r.txn) {
            return i;
        }
        i += 1;
    }
    i
}

/// Whether there is a request, and it is a transaction's.
pub fn is_of(request: Option<Request>, t: TxnNo) -> bool
    ensures exact { result ≡ is_of t request }
{
    match request {
        Some(r) => is_same_txn(r.txn, t),
        None => false,
    }
}

/// Lists a request that comes to the end of the line.
pub fn note(asked: &mut Asked, line: &[Request], r: Request)
    requires by_name { IsByName asked.old line.now }
    requires room { 0 < spare asked.old }
    ensures by_name { IsByName asked.new (line.now ++ r ∷ []) }
    ensures room { spare asked.old ≤ spare asked.new + 1 }
{
    let name = r.name;
    let number = end(asked, line, name);
    let _ = asked.insert(Place { name, number }, r);
}

/// Takes a request, which stands at a place of the line, out of its name's list.
pub fn strike(asked: &mut Asked, line: &[Request], at: usize, r: Request)
    requires by_name { IsByName asked.old line.now }
    requires apart { is_apart line.now ≡ true }
    requires there { slice_get line.now at ≡ Some r }
    ensures by_name { IsByName asked.new (remove line.now at) }
    ensures room { spare asked.old ≤ spare asked.new }
{
    let first = number_of(asked, line, at, r);
    let end = end(asked, line, r.name);
    close(asked, r.name, first, end - 1);
}

/// Takes one request out of a name's list, and moves those behind it up.
fn close(asked: &mut Asked, name: LockName, first: usize, last: usize)
    requires within { first ≤ last }
    requires taken { (i : ℕ) → i ≤ last → is_some (asked_at asked.old name i) ≡ true }
    requires free { (i : ℕ) → last < i → asked_at asked.old name i ≡ None }
    ensures exact { Closes asked.old asked.new name first }
    ensures room { spare asked.old ≤ spare asked.new }
{
    let mut i = first;
    'each: while i < last {
        put(asked, name, i + 1, i);
        i += 1;
    }
    let _ = asked.remove(&Place { name, number: last });
}

/// Puts the request at one place of a name's list in the place of another.
fn put(asked: &mut Asked, name: LockName, from: usize, to: usize)
    requires from { is_some (asked_at asked.old name from) ≡ true }
    requires to { is_some (asked_at asked.old name to) ≡ true }
    ensures exact { (p : Place) → get same_place asked.new p ≡ (if same_place (place name to) p then asked_at asked.old name from else get same_place asked.old p) }
    ensures room { spare asked.new ≡ spare asked.old }
{
    let Some(moved) = request_at(asked, name, from) else {
        return;
    };
    if let Some(r) = asked.get_mut(&Place { name, number: to }) {
        *r = moved;
    }
}
