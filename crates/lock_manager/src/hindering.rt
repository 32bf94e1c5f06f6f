//! Whose modes on a name are in the way, asked of those who are listed under it.

ghost use Rattle.std.specs.Prelude.{◌≡◌, ◌&&◌, not, true, false, MatchOption};
ghost use Rattle.dby_types.specs.declared.number.TxnNo.{TxnNo};
ghost use Rattle.lock_modes.specs.Modes.{hinders};
ghost use Rattle.lock_modes.specs.Names.{same_txn};
ghost use Rattle.lock_manager.specs.Blocking.{IsLeast};
ghost use Rattle.lock_manager.specs.Owners.{grants_in};
ghost use Rattle.lock_manager.specs.Places.{IsPacked, IsListed};

use crate::better::better;
use crate::owners::{Owners, modes_of};
use crate::places::{Places, holder};
use dby_types::number::TxnNo;
use lock_modes::entry::Request;
use lock_modes::mode::Mode;
use lock_modes::name::{LockName, is_same_txn};

/// Whether a transaction, other than the one that asks, has modes on the name that aren't compatible with the wanted one.
fn is_in_way(owners: &Owners, h: TxnNo, r: Request) -> bool
    ensures exact { result ≡ (not (same_txn h r.txn) && hinders (grants_in owners.now.entries h r.name) r.mode) }
{
    !is_same_txn(h, r.txn) && modes_of(owners, h, r.name).hinders(r.mode)
}

/// A transaction, other than the one that asks, whose modes on the name aren't compatible with the wanted one.
pub fn in_way(owners: &Owners, places: &Places, r: Request) -> Option<TxnNo>
    requires packed { IsPacked places.now }
    requires listed { IsListed places.now (grants_in owners.now.entries) }
    ensures found { MatchOption result ((h : TxnNo) → (not (same_txn h r.txn) && hinders (grants_in owners.now.entries h r.name) r.mode) ≡ false) (λ h. (not (same_txn h r.txn) && hinders (grants_in owners.now.entries h r.name) r.mode) ≡ true) }
{
    let len = places.len();
    let mut i = 0;
    'each: while i < len {
        let Some(h) = holder(places, r.name, i) else {
            return None;
        };
        if is_in_way(owners, h, r) {
            return Some(h);
        }
        i += 1;
    }
    None
}

/// A transaction whose modes on the name aren't compatible with this one.
pub fn any(owners: &Owners, places: &Places, name: LockName, mode: Mode) -> Option<TxnNo>
    requires packed { IsPacked places.now }
    requires listed { IsListed places.now (grants_in owners.now.entries) }
    ensures found { MatchOption result ((h : TxnNo) → hinders (grants_in owners.now.entries h name) mode ≡ false) (λ h. hinders (grants_in owners.now.entries h name) mode ≡ true) }
{
    let len = places.len();
    let mut i = 0;
    'each: while i < len {
        let Some(h) = holder(places, name, i) else {
            return None;
        };
        if modes_of(owners, h, name).hinders(mode) {
            return Some(h);
        }
        i += 1;
    }
    None
}

/// The least transaction, above a given number, that is in the way.
pub fn least(owners: &Owners, places: &Places, r: Request, above: Option<TxnNo>) -> Option<TxnNo>
    requires packed { IsPacked places.now }
    requires listed { IsListed places.now (grants_in owners.now.entries) }
    ensures exact { IsLeast (λ h. not (same_txn h r.txn) && hinders (grants_in owners.now.entries h r.name) r.mode) above result }
{
    let len = places.len();
    let mut best = None;
    let mut i = 0;
    'each: while i < len {
        let Some(h) = holder(places, r.name, i) else {
            return best;
        };
        best = better(above, best, is_in_way(owners, h, r), h);
        i += 1;
    }
    best
}
