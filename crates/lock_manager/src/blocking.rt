//! Who is in the way of a queued request, the least number first.

ghost use Rattle.std.specs.Prelude.{◌≡◌, ◌++◌, ◌&&◌, not, true, false};
ghost use Rattle.std.specs.List.{find};
ghost use Rattle.dby_types.specs.declared.number.TxnNo.{TxnNo};
ghost use Rattle.lock_modes.specs.Modes.{hinders};
ghost use Rattle.lock_modes.specs.Names.{same_txn};
ghost use Rattle.lock_modes.specs.Waits.{ahead, blocks, opposes};
ghost use Rattle.lock_manager.specs.Blocking.{is_above, is_below, better, least_by, IsLeast};
ghost use Rattle.lock_manager.specs.Owners.{grants_in};

use crate::better::better;
use crate::ledger::Ledger;
use crate::queue::{has_request, is_opposed};
use dby_types::number::TxnNo;
use lock_modes::entry::Request;
use lock_modes::name::is_same_txn;

/// The least transaction, above a given number, with a request that is in the way and stands before the waiting one's own,
/// or the best one so far.
fn least_asker(
    line: &[Request],
    r: Request,
    above: Option<TxnNo>,
    mut best: Option<TxnNo>,
) -> Option<TxnNo>
    ensures exact { result ≡ least_by (λ q. opposes q r) (λ q. q.txn) above best (ahead r.txn line.now) }
{
    for q in line {
        if is_same_txn(q.txn, r.txn) {
            return best;
        }
        best = better(above, best, is_opposed(*q, r), q.txn);
    }
    best
}

/// The least transaction, above a given number, in the way of a queued request.
pub fn least_blocker(
    ledger: &Ledger,
    conversions: &[Request],
    requests: &[Request],
    r: Request,
    above: Option<TxnNo>,
) -> Option<TxnNo>
    ensures exact { IsLeast (λ h. blocks (grants_in ledger.now.owners.entries) (ahead r.txn (conversions.now ++ requests.now)) r h) above result }
{
    let holder = ledger.least_in_way(r, above);
    let asker = least_asker(conversions, r, above, holder);
    if has_request(conversions, r.txn) {
        return asker;
    }
    least_asker(requests, r, above, asker)
}

/// A transaction's request in a line.
fn request_in(line: &[Request], t: TxnNo) -> Option<Request>
    ensures exact { result ≡ find (λ r. same_txn r.txn t) line.now }
{
    for q in line {
        if is_same_txn(q.txn, t) {
            return Some(*q);
        }
    }
    None
}

/// A transaction's request in the queue.
pub fn request_of(conversions: &[Request], requests: &[Request], t: TxnNo) -> Option<Request>
    ensures exact { result ≡ find (λ r. same_txn r.txn t) (conversions.now ++ requests.now) }
{
    match request_in(conversions, t) {
        Some(r) => Some(r),
        None => request_in(requests, t),
    }
}
