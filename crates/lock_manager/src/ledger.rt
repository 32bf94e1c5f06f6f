//! What each open transaction has, with the list of those who have something on a name.

ghost use Rattle.std.specs.Prelude.{◌≡◌, ◌≤◌, ◌+◌};
ghost use Rattle.std.specs.HashMap.{spare};
ghost use Rattle.lock_manager.specs.Owners.{grants_in, claims_sum};
ghost use Rattle.lock_manager.specs.Places.{IsPacked, IsListed, IsPacked-prop, IsListed-prop};

use crate::hindering;
use crate::owner::Owner;
use crate::owners::{self, Owners};
use crate::places::{Places, list, unlist};
use crate::unlisting::{unlist_all, unlist_rows};
use dby_types::number::TxnNo;
use lock_modes::entry::Request;
use lock_modes::mode::Mode;
use lock_modes::name::LockName;
use std::alloc::{AllocError, Global};
use std::collections::HashMap;

/// What each open transaction has, and who has something on each name.
#[derive(Drop)]
pub struct Ledger {
    pub owners: Owners,
    places: Places,
    /// How many names more all transactions may take, now or once they have waited.
    claims: usize,
    ghost packed: { IsPacked places } by { IsPacked-prop places },
    ghost listed: { IsListed places (grants_in owners.entries) } by { IsListed-prop places _ },
    ghost total: { claims ≡ claims_sum owners.entries },
    ghost room: { claims ≤ spare places },
}

impl Ledger {
    ghost use Rattle.std.specs.Option.{is_some};
    ghost use Rattle.std.specs.Prelude.{◌<◌, ◌-◌, ◌&&◌, ◌⊎◌, ℕ, true, false, not, [], OnOk, IsSome, is_ok, if◌then◌else◌, MatchOption};
    ghost use Rattle.dby_types.specs.declared.number.TxnNo.{TxnNo};
    ghost use Rattle.lock_modes.specs.declared.name.LockName.{LockName};
    ghost use Rattle.lock_modes.specs.Escalation.{released_rows};
    ghost use Rattle.lock_modes.specs.Lock.{granted, released, released_all};
    ghost use Rattle.lock_modes.specs.Modes.{hinders, is_held};
    ghost use Rattle.lock_modes.specs.Names.{same_txn};
    ghost use Rattle.lock_manager.specs.Blocking.{IsLeast};
    ghost use Rattle.lock_manager.specs.Owners.{owner_of, left_in, victim_in, waits_in, left_sum, Changes, IsGone, IsSame};

    /// No open transactions.
    pub fn new(alloc: Global) -> Ledger
        ensures none { result.owners.entries ≡ [] }
    {
        Ledger {
            owners: HashMap::new(alloc),
            places: HashMap::new(alloc),
            claims: 0,
        }
    }

    /// A transaction, other than the one that asks, whose modes on the name aren't compatible with the wanted one.
    pub fn in_way(&self, r: Request) -> Option<TxnNo>
        ensures found { MatchOption result ((h : TxnNo) → (not (same_txn h r.txn) && hinders (grants_in self.now.owners.entries h r.name) r.mode) ≡ false) (λ h. (not (same_txn h r.txn) && hinders (grants_in self.now.owners.entries h r.name) r.mode) ≡ true) }
    {
        hindering::in_way(&self.owners, &self.places, r)
    }

    /// The least such transaction above a given number.
    pub fn least_in_way(&self, r: Request, above: Option<TxnNo>) -> Option<TxnNo>
        ensures exact { IsLeast (λ h. not (same_txn h r.txn) && hinders (grants_in self.now.owners.entries h r.name) r.mode) above result }
    {
        hindering::least(&self.owners, &self.places, r, above)
    }

    /// A transaction whose modes on the name aren't compatible with this one.
    pub fn hinders(&self, name: LockName, mode: Mode) -> Option<TxnNo>
        ensures found { MatchOption result ((h : TxnNo) → hinders (grants_in self.now.owners.entries h name) mode ≡ false) (λ h. hinders (grants_in self.now.owners.entries h name) mode ≡ true) }
    {
        hindering::any(&self.owners, &self.places, name, mode)
    }

    /// Adds a mode to what a transaction has, for which it spends one of the names that are left to it if the name is new to it.
    pub fn grant(&mut self, r: Request)
        requires { (is_held (grants_in self.old.owners.entries r.txn r.name) ≡ true) ⊎ (0 < left_in self.old.owners.entries r.txn) }
        ensures changes { Changes self.old.owners.entries self.new.owners.entries r.txn (granted (grants_in self.old.owners.entries) r) }
        ensures room { left_in self.new.owners.entries r.txn ≡ (if is_held (grants_in self.old.owners.entries r.txn r.name) then left_in self.old.owners.entries r.txn else left_in self.old.owners.entries r.txn - 1) }
        ensures same { waits_in self.new.owners.entries r.txn ≡ waits_in self.old.owners.entries r.txn }
        ensures victim { victim_in self.new.owners.entries r.txn ≡ victim_in self.old.owners.entries r.txn }
    {
        if owners::modes_of(&self.owners, r.txn, r.name).is_held() {
            owners::grant(&mut self.owners, r);
            return;
        }
        owners::grant(&mut self.owners, r);
        self.claims -= 1;
        list(&mut self.places, r.name, r.txn);
    }

    /// Adds the mode that was waited for, in the room that was set aside.
    pub fn grant_queued(&mut self, r: Request)
        requires { waits_in self.old.owners.entries r.txn ≡ true }
        ensures changes { Changes self.old.owners.entries self.new.owners.entries r.txn (granted (grants_in self.old.owners.entries) r) }
        ensures room { left_in self.new.owners.entries r.txn ≡ left_in self.old.owners.entries r.txn }
        ensures same { waits_in self.new.owners.entries r.txn ≡ false }
        ensures victim { victim_in self.new.owners.entries r.txn ≡ victim_in self.old.owners.entries r.txn }
    {
        if owners::modes_of(&self.owners, r.txn, r.name).is_held() {
            owners::grant_queued(&mut self.owners, r);
            self.claims -= 1;
            return;
        }
        owners::grant_queued(&mut self.owners, r);
        self.claims -= 1;
        list(&mut self.places, r.name, r.txn);
    }

    /// The ticket that a transaction drew when it last began to wait.
    pub fn ticket(&self, txn: TxnNo) -> u64 {
        owners::ticket(&self.owners, txn)
    }

    /// Sets room aside for a request, and notes its ticket.
    pub fn wait(&mut self, txn: TxnNo, ticket: u64)
        requires room { 0 < left_in self.old.owners.entries txn }
        requires idle { waits_in self.old.owners.entries txn ≡ false }
        ensures changes { Changes self.old.owners.entries self.new.owners.entries txn (grants_in self.old.owners.entries) }
        ensures room { left_in self.new.owners.entries txn + 1 ≡ left_in self.old.owners.entries txn }
        ensures same { waits_in self.new.owners.entries txn ≡ true }
        ensures victim { victim_in self.new.owners.entries txn ≡ victim_in self.old.owners.entries txn }
    {
        owners::wait(&mut self.owners, txn, ticket);
    }

    /// Takes away all that a transaction has on a name.
    pub fn release(&mut self, txn: TxnNo, name: LockName)
        ensures changes { Changes self.old.owners.entries self.new.owners.entries txn (released (grants_in self.old.owners.entries) txn name) }
        ensures room { left_in self.new.owners.entries txn ≡ left_in self.old.owners.entries txn }
        ensures same { waits_in self.new.owners.entries txn ≡ waits_in self.old.owners.entries txn }
        ensures victim { victim_in self.new.owners.entries txn ≡ victim_in self.old.owners.entries txn }
    {
        owners::release(&mut self.owners, txn, name);
        unlist(&mut self.places, name, txn);
    }

    /// Takes away all that a transaction has on the rows, and places before a first entry, of a table.
    pub fn release_rows(&mut self, txn: TxnNo, table: u32)
        ensures changes { Changes self.old.owners.entries self.new.owners.entries txn (released_rows (grants_in self.old.owners.entries) txn table) }
        ensures room { left_in self.new.owners.entries txn ≡ left_in self.old.owners.entries txn }
        ensures same { waits_in self.new.owners.entries txn ≡ waits_in self.old.owners.entries txn }
        ensures victim { victim_in self.new.owners.entries txn ≡ victim_in self.old.owners.entries txn }
    {
        unlist_rows(&self.owners, &mut self.places, txn, table);
        owners::release_rows(&mut self.owners, txn, table);
    }

    /// Notes a transaction that has a record as a victim.
    pub fn choose(&mut self, txn: TxnNo)
        ensures changes { Changes self.old.owners.entries self.new.owners.entries txn (grants_in self.old.owners.entries) }
        ensures room { left_in self.new.owners.entries txn ≡ left_in self.old.owners.entries txn }
        ensures same { waits_in self.new.owners.entries txn ≡ waits_in self.old.owners.entries txn }
        ensures victim { victim_in self.new.owners.entries txn ≡ is_some (owner_of self.old.owners.entries txn) }
    {
        owners::choose(&mut self.owners, txn);
    }

    /// Takes a transaction's record away, with all that it has.
    pub fn remove(&mut self, txn: TxnNo) -> Option<Owner>
        ensures owner { result ≡ owner_of self.old.owners.entries txn }
        ensures grants { (u : TxnNo) (n : LockName) → grants_in self.new.owners.entries u n ≡ released_all (grants_in self.old.owners.entries) txn u n }
        ensures gone { IsGone self.old.owners.entries self.new.owners.entries txn }
        ensures total { left_sum self.new.owners.entries + left_in self.old.owners.entries txn ≡ left_sum self.old.owners.entries }
    {
        self.claims -= owners::claim(&self.owners, txn);
        let owner = owners::remove(&mut self.owners, txn);
        unlist_all(&mut self.places, &owner, txn);
        owner
    }

    /// Gives a transaction a record, if it has none.
    pub fn open(&mut self, alloc: Global, txn: TxnNo) -> Result<(), AllocError>
        ensures same { IsSame self.old.owners.entries self.new.owners.entries }
        ensures ok { OnOk result (IsSome (owner_of self.new.owners.entries txn)) }
    {
        owners::open(&mut self.owners, alloc, txn)
    }

    /// Lets a transaction that has a record ask for n names, which are no fewer than before.
    pub fn reserve(&mut self, txn: TxnNo, n: u32) -> Result<(), AllocError>
        requires open { IsSome (owner_of self.old.owners.entries txn) }
        requires more { left_in self.old.owners.entries txn ≤ n }
        ensures changes { Changes self.old.owners.entries self.new.owners.entries txn (grants_in self.old.owners.entries) }
        ensures room { left_in self.new.owners.entries txn ≡ (if is_ok result then n else left_in self.old.owners.entries txn) }
        ensures same { waits_in self.new.owners.entries txn ≡ waits_in self.old.owners.entries txn }
        ensures victim { victim_in self.new.owners.entries txn ≡ victim_in self.old.owners.entries txn }
    {
        let more = n - owners::left(&self.owners, txn);
        let Some(claims) = self.claims.checked_add(more as usize) else {
            return Err(AllocError);
        };
        self.places.reserve(claims)?;
        match owners::reserve(&mut self.owners, txn, n) {
            Ok(()) => {
                self.claims = claims;
                Ok(())
            }
            Err(e) => Err(e),
        }
    }
}
