//! Where in a line a request stands, looked for by the ticket that its transaction drew.

ghost use Rattle.std.specs.Prelude.{◌≡◌, ◌≤◌, true, false, MatchOption, length};
ghost use Rattle.std.specs.List.{list_any, slice_get};
ghost use Rattle.lock_modes.specs.Names.{same_txn};
ghost use Rattle.lock_manager.specs.Asked.{asks_for, is_apart, is_of, IsByName, IsNumbered};

use crate::asked::{Asked, request_at};
use crate::ledger::Ledger;
use dby_types::number::TxnNo;
use lock_modes::entry::Request;
use lock_modes::name::{LockName, is_same_txn};

/// A ticket for a request that comes to the end of a line: greater than that of the last one, unless that is the greatest.
pub fn next_ticket(ledger: &Ledger, line: &[Request]) -> u64 {
    match line.last() {
        Some(q) => ledger.ticket(q.txn).saturating_add(1),
        None => 0,
    }
}

/// The first place whose request has no lower ticket than a transaction. Tickets ascend along a line, so its own request
/// stands there.
fn likely_place(ledger: &Ledger, line: &[Request], t: TxnNo) -> usize {
    let ticket = ledger.ticket(t);
    let mut low = 0;
    let mut high = line.len();
    'halve: while low < high {
        let middle = low + (high - low) / 2;
        if ledger.ticket(line[middle].txn) < ticket {
            low = middle + 1;
        } else {
            high = middle;
        }
    }
    low
}

/// Whether a transaction's request stands at a place of a line.
fn stands_at(line: &[Request], place: usize, t: TxnNo) -> bool
    ensures exact { result ≡ is_of t (slice_get line.now place) }
{
    match line.get(place) {
        Some(q) => is_same_txn(q.txn, t),
        None => false,
    }
}

/// The place of a transaction's request. Its ticket says where to look first; what stands there is compared, and should it be
/// another request, as once all tickets were drawn, the line is looked through.
fn place_of(ledger: &Ledger, line: &[Request], t: TxnNo) -> usize
    requires among { list_any (λ q. same_txn q.txn t) line.now ≡ true }
    ensures there { is_of t (slice_get line.now result) ≡ true }
{
    let place = likely_place(ledger, line, t);
    if stands_at(line, place, t) {
        return place;
    }
    search(line, t)
}

/// The place of a transaction's request, where all before it are looked at.
fn search(line: &[Request], t: TxnNo) -> usize
    requires among { list_any (λ q. same_txn q.txn t) line.now ≡ true }
    ensures there { is_of t (slice_get line.now result) ≡ true }
{
    let len = line.len();
    let mut i = 0;
    'each: while i < len {
        if stands_at(line, i, t) {
            return i;
        }
        i += 1;
    }
    i
}

/// The place in a line of the request at a place of a name's list.
pub fn place_at(
    ledger: &Ledger,
    asked: &Asked,
    line: &[Request],
    name: LockName,
    number: usize,
) -> Option<usize>
    requires by_name { IsByName asked.now line.now }
    requires apart { is_apart line.now ≡ true }
    ensures place { MatchOption result (length (asks_for name line.now) ≤ number) (λ p. IsNumbered name line.now p number) }
{
    match request_at(asked, name, number) {
        Some(q) => Some(place_of(ledger, line, q.txn)),
        None => None,
    }
}
