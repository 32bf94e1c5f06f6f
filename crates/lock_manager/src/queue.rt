//! Queued requests.

ghost use Rattle.std.specs.Prelude.{◌≡◌, ◌≤◌, ◌<◌, ◌+◌, ℕ, true, false, ◌&&◌, not, OnOk, MatchOption, Some, length, take, ◌++◌, List, []};
ghost use Rattle.dby_types.specs.declared.number.TxnNo.{TxnNo};
ghost use Rattle.lock_modes.specs.Names.{same_txn, same_name};
ghost use Rattle.lock_modes.specs.Lock.{without};
ghost use Rattle.lock_modes.specs.Modes.{is_held};
ghost use Rattle.lock_modes.specs.declared.name.LockName.{LockName};
ghost use Rattle.lock_modes.specs.Waits.{asks_before, opposes, blocks, IsFree, IsBlocked};
ghost use Rattle.lock_modes.specs.declared.entry.Request.{Request};
ghost use Rattle.lock_manager.specs.Asked.{is_asked, asks_for_any};
ghost use Rattle.lock_manager.specs.Freed.{asks, frees, name_of, StillBlocked};
ghost use Rattle.lock_manager.specs.Owners.{grants_in, modes_of};
ghost use Rattle.lock_manager.specs.Serve.{Waiters, Served, ServedBoth, is_among};
ghost use Rattle.std.specs.List.{find, slice_get};
ghost use Rattle.lock_manager.specs.Room.{FitsAsBefore, Grows, HasRoom, LineFits};
ghost use Rattle.std.specs.VecDeque.{deque_len, deque_capacity};
ghost use Rattle.std.specs.Vec.{vec_len};

use crate::blocking::request_of;
use crate::freed::{Freed, is_freed, name_of};
use crate::ledger::Ledger;
use crate::line::Line;
use crate::next::next_freed;
use crate::owner::Owner;
use dby_types::number::TxnNo;
use lock_modes::entry::Request;
use lock_modes::mode::compatible;
use lock_modes::modes::Modes;
use lock_modes::name::{LockName, is_same_name, is_same_txn};
use std::alloc::{AllocError, Global};
use std::collections::{HashMap, VecDeque};

/// Whether a request is in the way of another on the same name.
pub fn is_opposed(q: Request, r: Request) -> bool
    ensures exact { result ≡ opposes q r }
{
    is_same_name(q.name, r.name) && !compatible(q.mode, r.mode)
}

/// A transaction in the way of a request at a place of a line: by what it has, or by a request of the line before or one that
/// stands before it in its own.
fn in_way(ledger: &Ledger, before: &Line, line: &Line, at: usize, r: Request) -> Option<TxnNo>
    requires there { slice_get line.now.line.items at ≡ Some r }
    ensures found { MatchOption result (IsFree (grants_in ledger.now.owners.entries) (before.now.line.items ++ take at line.now.line.items) r) (λ h. blocks (grants_in ledger.now.owners.entries) (before.now.line.items ++ take at line.now.line.items) r h ≡ true) }
{
    if let Some(h) = ledger.in_way(r) {
        return Some(h);
    }
    if let Some(h) = before.asker_in_way(r) {
        return Some(h);
    }
    line.asker_before(at, r)
}

/// A transaction in the way of a new request of one that has something on the name already: by what it has, or by a conversion.
pub fn in_way_of_conversion(ledger: &Ledger, conversions: &Line, r: Request) -> Option<TxnNo>
    ensures found { MatchOption result (IsFree (grants_in ledger.now.owners.entries) conversions.now.line.items r) (λ h. blocks (grants_in ledger.now.owners.entries) conversions.now.line.items r h ≡ true) }
{
    if let Some(h) = ledger.in_way(r) {
        return Some(h);
    }
    conversions.asker_in_way(r)
}

/// A transaction in the way of any other new request: by what it has, or by a request.
pub fn in_way_of_request(
    ledger: &Ledger,
    conversions: &Line,
    requests: &Line,
    r: Request,
) -> Option<TxnNo>
    ensures found { MatchOption result (IsFree (grants_in ledger.now.owners.entries) (conversions.now.line.items ++ requests.now.line.items) r) (λ h. blocks (grants_in ledger.now.owners.entries) (conversions.now.line.items ++ requests.now.line.items) r h ≡ true) }
{
    if let Some(h) = in_way_of_conversion(ledger, conversions, r) {
        return Some(h);
    }
    requests.asker_in_way(r)
}

/// Whether a request stays in its line, where those for names that weren't freed still wait: they needn't be looked at.
fn stays(ledger: &Ledger, freed: &Freed, before: &Line, line: &Line, at: usize, r: Request) -> bool
    requires there { slice_get line.now.line.items at ≡ Some r }
    requires still { frees freed.now r.name ≡ false → IsBlocked (grants_in ledger.now.owners.entries) (before.now.line.items ++ take at line.now.line.items) r }
    ensures blocked { result ≡ true → IsBlocked (grants_in ledger.now.owners.entries) (before.now.line.items ++ take at line.now.line.items) r }
    ensures free { result ≡ false → IsFree (grants_in ledger.now.owners.entries) (before.now.line.items ++ take at line.now.line.items) r }
    ensures freed { result ≡ false → frees freed.now r.name ≡ true }
{
    if !is_freed(freed, r.name) {
        return true;
    }
    in_way(ledger, before, line, at, r).is_some()
}

/// Grants, in order, each request of a line that nothing is in the way of, and notes those that were granted. It goes from one
/// request for a name that was freed to the next.
pub fn serve(
    ledger: &mut Ledger,
    freed: &Freed,
    before: &Line,
    line: &mut Line,
    woken: &mut VecDeque<Request>,
)
    requires waiters { Waiters ledger.old.owners.entries line.old.line.items }
    requires still { StillBlocked (frees freed.now) (grants_in ledger.old.owners.entries) before.now.line.items line.old.line.items }
    requires room { deque_len woken.old + vec_len line.old.line ≤ deque_capacity woken.old }
    ensures served { Served ledger.old.owners.entries ledger.new.owners.entries before.now.line.items line.old.line.items line.new.line.items woken.old.items woken.new.items }
    ensures still { (after : List Request) → StillBlocked (frees freed.now) (grants_in ledger.old.owners.entries) before.now.line.items (line.old.line.items ++ after) → StillBlocked (frees freed.now) (grants_in ledger.new.owners.entries) (before.now.line.items ++ line.new.line.items) after }
    ensures room { deque_len woken.new + vec_len line.new.line ≡ deque_len woken.old + vec_len line.old.line }
    ensures capacity { deque_capacity woken.new ≡ deque_capacity woken.old }
    ensures fits { LineFits line.old line.new }
{
    let mut i = next_freed(ledger, freed, line, 0);
    'each: while i < line.line.len() {
        let r = line.line[i];
        if stays(ledger, freed, before, line, i, r) {
            i = next_freed(ledger, freed, line, i + 1);
        } else {
            line.remove(i);
            ledger.grant_queued(r);
            woken.push_back_reserved(r);
            i = next_freed(ledger, freed, line, i);
        }
    }
}

/// Whether a transaction has a request among these.
pub fn has_request(requests: &[Request], t: TxnNo) -> bool
    ensures exact { result ≡ is_among t requests.now }
{
    requests.iter().any(|q| is_same_txn(q.txn, t))
}

/// Whether anybody asks for a name.
fn is_wanted(conversions: &Line, requests: &Line, name: LockName) -> bool
    ensures exact { result ≡ is_asked name (conversions.now.line.items ++ requests.now.line.items) }
{
    conversions.is_asked(name) || requests.is_asked(name)
}

/// Whether anybody asks for one of some names.
fn is_any_wanted(conversions: &Line, requests: &Line, names: &HashMap<LockName, Modes>) -> bool
    ensures exact { result ≡ asks_for_any (conversions.now.line.items ++ requests.now.line.items) names.now.entries }
{
    for (name, _) in names {
        if is_wanted(conversions, requests, *name) {
            return true;
        }
    }
    false
}

/// Whether anybody asks for a name that a transaction had. Where it had more names than there are requests, this isn't asked.
fn had_wanted(conversions: &Line, requests: &Line, had: &Option<Owner>) -> bool
    ensures none { result ≡ false → (n : LockName) → is_held (modes_of had.now n) ≡ true → is_asked n (conversions.now.line.items ++ requests.now.line.items) ≡ false }
{
    let waiting = conversions.line.len() + requests.line.len();
    if waiting == 0 {
        return false;
    }
    match had {
        Some(owner) => {
            waiting < owner.holdings.modes.len()
                || is_any_wanted(conversions, requests, &owner.holdings.modes)
        }
        None => false,
    }
}

/// Whether a request may be for a name that was freed. Of the rows of a table this isn't asked.
fn may_wake(conversions: &Line, requests: &Line, freed: &Freed) -> bool
    ensures none { result ≡ false → (n : LockName) → frees freed.now n ≡ true → is_asked n (conversions.now.line.items ++ requests.now.line.items) ≡ false }
{
    match freed {
        Freed::Name(name) => is_wanted(conversions, requests, *name),
        Freed::Rows(_) => true,
        Freed::All { had, asked } => {
            had_wanted(conversions, requests, had) || was_wanted(conversions, requests, *asked)
        }
    }
}

/// Whether anybody asks for the name that a transaction asked for.
fn was_wanted(conversions: &Line, requests: &Line, asked: Option<LockName>) -> bool
    ensures none { result ≡ false → (n : LockName) → asks asked n ≡ true → is_asked n (conversions.now.line.items ++ requests.now.line.items) ≡ false }
{
    match asked {
        Some(name) => is_wanted(conversions, requests, name),
        None => false,
    }
}

/// Grants, in the order of the queue, each request that nothing is in the way of, and notes those that were granted. Only
/// those for names that were freed are looked at.
pub fn serve_both(
    alloc: Global,
    ledger: &mut Ledger,
    freed: &Freed,
    conversions: &mut Line,
    requests: &mut Line,
    woken: &mut VecDeque<Request>,
)
    requires waiters { Waiters ledger.old.owners.entries (conversions.old.line.items ++ requests.old.line.items) }
    requires still { StillBlocked (frees freed.now) (grants_in ledger.old.owners.entries) [] (conversions.old.line.items ++ requests.old.line.items) }
    requires room { deque_len woken.old + (vec_len conversions.old.line + vec_len requests.old.line) ≤ deque_capacity woken.old }
    ensures served { ServedBoth ledger.old.owners.entries ledger.new.owners.entries conversions.old.line.items requests.old.line.items conversions.new.line.items requests.new.line.items woken.old.items woken.new.items }
    ensures room { FitsAsBefore conversions.old requests.old woken.old conversions.new requests.new woken.new }
{
    if !may_wake(conversions, requests, freed) {
        return;
    }
    let nobody = Line::new(alloc);
    serve(ledger, freed, &nobody, conversions, woken);
    serve(ledger, freed, conversions, requests, woken);
}

/// Takes a transaction's requests away.
fn drop_requests(line: &mut Line, t: TxnNo)
    ensures exact { line.new.line.items ≡ without t line.old.line.items }
    ensures fits { LineFits line.old line.new }
{
    let mut i = 0;
    'each: while i < line.line.len() {
        if is_same_txn(line.line[i].txn, t) {
            line.remove(i);
        } else {
            i += 1;
        }
    }
}

/// Takes a transaction's request away, where it waits.
pub fn drop_both(conversions: &mut Line, requests: &mut Line, t: TxnNo, waits: bool)
    requires { waits ≡ is_among t (conversions.old.line.items ++ requests.old.line.items) }
    ensures conversions { conversions.new.line.items ≡ without t conversions.old.line.items }
    ensures requests { requests.new.line.items ≡ without t requests.old.line.items }
    ensures conversions_fit { LineFits conversions.old conversions.new }
    ensures requests_fit { LineFits requests.old requests.new }
{
    if waits {
        drop_requests(conversions, t);
        drop_requests(requests, t);
    }
}

/// The name that a transaction asks for, where it waits.
pub fn asked_by(conversions: &Line, requests: &Line, t: TxnNo, waits: bool) -> Option<LockName>
    requires { waits ≡ is_among t (conversions.now.line.items ++ requests.now.line.items) }
    ensures exact { result ≡ name_of (find (λ r. same_txn r.txn t) (conversions.now.line.items ++ requests.now.line.items)) }
{
    if !waits {
        return None;
    }
    name_of(request_of(&conversions.line, &requests.line, t))
}

/// Makes room for so many names more.
pub fn make_room(
    conversions: &mut Line,
    requests: &mut Line,
    woken: &mut VecDeque<Request>,
    left: usize,
) -> Result<(), AllocError>
    ensures same { Grows conversions.old requests.old woken.old conversions.new requests.new woken.new }
    ensures ok { OnOk result (HasRoom left conversions.new requests.new woken.new) }
{
    conversions.reserve(left)?;
    requests.reserve(left)?;
    let Some(waiting) = conversions.line.len().checked_add(requests.line.len()) else {
        return Err(AllocError);
    };
    let Some(all) = waiting.checked_add(left) else {
        return Err(AllocError);
    };
    woken.reserve(all)
}
