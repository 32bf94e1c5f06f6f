//! The open transactions, with what each has.

ghost use Rattle.std.specs.Prelude.{◌≡◌, ◌≤◌, ◌<◌, ◌+◌, ℕ, true, false, ◌⊎◌, ◌-◌, ◌&&◌, not, OnOk, OnErr, Some, None, IsSome, is_ok, if◌then◌else◌, MatchOption, length};
ghost use Rattle.std.specs.Option.{is_some};
ghost use Rattle.dby_types.specs.declared.number.TxnNo.{TxnNo};
ghost use Rattle.lock_modes.specs.Modes.{hinders, is_held, is_ranged, writes};
ghost use Rattle.lock_modes.specs.Waits.{IsNumber};
ghost use Rattle.lock_modes.specs.Lock.{granted, released, released_all};
ghost use Rattle.lock_modes.specs.Escalation.{released_rows};
ghost use Rattle.lock_modes.specs.Names.{same_name, same_txn, is_row_name};
ghost use Rattle.lock_manager.specs.Owners.{owner_of, grants_in, left_in, victim_in, waits_in, left_sum, claim_in, claims_sum, Changes, IsGone, IsSame};
ghost use Rattle.lock_modes.specs.declared.name.LockName.{LockName};

use crate::owner::Owner;
use dby_types::number::TxnNo;
use lock_modes::entry::Request;
use lock_modes::mode::Mode;
use lock_modes::modes::Modes;
use lock_modes::name::{LockName, is_same_txn};
use std::alloc::{AllocError, Global};
use std::collections::HashMap;

pub type Owners = HashMap<TxnNo, Owner>;

/// What a transaction has on a name.
pub fn modes_of(owners: &Owners, txn: TxnNo, name: LockName) -> Modes
    ensures exact { result ≡ grants_in owners.now.entries txn name }
{
    match owners.get(&txn) {
        Some(owner) => owner.holdings.modes(name),
        None => Modes::none(),
    }
}

/// Whether a transaction was chosen as a victim.
pub fn is_victim(owners: &Owners, txn: TxnNo) -> bool
    ensures exact { result ≡ victim_in owners.now.entries txn }
{
    match owners.get(&txn) {
        Some(owner) => owner.victim,
        None => false,
    }
}

/// Whether room is set aside for a transaction's queued request.
pub fn waits(owners: &Owners, txn: TxnNo) -> bool
    ensures exact { result ≡ waits_in owners.now.entries txn }
{
    match owners.get(&txn) {
        Some(owner) => owner.waits,
        None => false,
    }
}

/// For how many names more a transaction may ask.
pub fn left(owners: &Owners, txn: TxnNo) -> u32
    ensures exact { result ≡ left_in owners.now.entries txn }
{
    match owners.get(&txn) {
        Some(owner) => owner.left,
        None => 0,
    }
}

/// The ticket that a transaction drew when it last began to wait.
pub fn ticket(owners: &Owners, txn: TxnNo) -> u64 {
    match owners.get(&txn) {
        Some(owner) => owner.ticket,
        None => 0,
    }
}

/// How many names more a transaction may take, now or once it has waited.
pub fn claim(owners: &Owners, txn: TxnNo) -> usize
    ensures exact { result ≡ claim_in owners.now.entries txn }
{
    match owners.get(&txn) {
        Some(owner) => owner.claim(),
        None => 0,
    }
}

/// Adds a mode to what a transaction has, for which it spends one of the names that are left to it if the name is new to it.
pub fn grant(owners: &mut Owners, r: Request)
    requires { (is_held (grants_in owners.old.entries r.txn r.name) ≡ true) ⊎ (0 < left_in owners.old.entries r.txn) }
    ensures changes { Changes owners.old.entries owners.new.entries r.txn (granted (grants_in owners.old.entries) r) }
    ensures room { left_in owners.new.entries r.txn ≡ (if is_held (grants_in owners.old.entries r.txn r.name) then left_in owners.old.entries r.txn else left_in owners.old.entries r.txn - 1) }
    ensures same { waits_in owners.new.entries r.txn ≡ waits_in owners.old.entries r.txn }
    ensures victim { victim_in owners.new.entries r.txn ≡ victim_in owners.old.entries r.txn }
{
    if let Some(owner) = owners.get_mut(&r.txn) {
        owner.grant(r.name, r.mode);
    }
}

/// Adds the mode that was waited for, in the room that was set aside.
pub fn grant_queued(owners: &mut Owners, r: Request)
    requires { waits_in owners.old.entries r.txn ≡ true }
    ensures changes { Changes owners.old.entries owners.new.entries r.txn (granted (grants_in owners.old.entries) r) }
    ensures room { left_in owners.new.entries r.txn ≡ left_in owners.old.entries r.txn }
    ensures same { waits_in owners.new.entries r.txn ≡ false }
    ensures victim { victim_in owners.new.entries r.txn ≡ victim_in owners.old.entries r.txn }
{
    if let Some(owner) = owners.get_mut(&r.txn) {
        owner.grant_queued(r.name, r.mode);
    }
}

/// Sets room aside for a request, and notes its ticket.
pub fn wait(owners: &mut Owners, txn: TxnNo, ticket: u64)
    requires room { 0 < left_in owners.old.entries txn }
    requires idle { waits_in owners.old.entries txn ≡ false }
    ensures changes { Changes owners.old.entries owners.new.entries txn (grants_in owners.old.entries) }
    ensures room { left_in owners.new.entries txn + 1 ≡ left_in owners.old.entries txn }
    ensures same { waits_in owners.new.entries txn ≡ true }
    ensures victim { victim_in owners.new.entries txn ≡ victim_in owners.old.entries txn }
{
    if let Some(owner) = owners.get_mut(&txn) {
        owner.wait(ticket);
    }
}

/// Takes away all that a transaction has on a name.
pub fn release(owners: &mut Owners, txn: TxnNo, name: LockName)
    ensures changes { Changes owners.old.entries owners.new.entries txn (released (grants_in owners.old.entries) txn name) }
    ensures room { left_in owners.new.entries txn ≡ left_in owners.old.entries txn }
    ensures same { waits_in owners.new.entries txn ≡ waits_in owners.old.entries txn }
    ensures victim { victim_in owners.new.entries txn ≡ victim_in owners.old.entries txn }
{
    if let Some(owner) = owners.get_mut(&txn) {
        owner.release(name);
    }
}

/// Takes away all that a transaction has on the rows, and places before a first entry, of a table.
pub fn release_rows(owners: &mut Owners, txn: TxnNo, table: u32)
    ensures changes { Changes owners.old.entries owners.new.entries txn (released_rows (grants_in owners.old.entries) txn table) }
    ensures room { left_in owners.new.entries txn ≡ left_in owners.old.entries txn }
    ensures same { waits_in owners.new.entries txn ≡ waits_in owners.old.entries txn }
    ensures victim { victim_in owners.new.entries txn ≡ victim_in owners.old.entries txn }
{
    if let Some(owner) = owners.get_mut(&txn) {
        owner.release_rows(table);
    }
}

/// Notes a transaction that has a record as a victim.
pub fn choose(owners: &mut Owners, txn: TxnNo)
    ensures changes { Changes owners.old.entries owners.new.entries txn (grants_in owners.old.entries) }
    ensures room { left_in owners.new.entries txn ≡ left_in owners.old.entries txn }
    ensures same { waits_in owners.new.entries txn ≡ waits_in owners.old.entries txn }
    ensures victim { victim_in owners.new.entries txn ≡ is_some (owner_of owners.old.entries txn) }
{
    if let Some(owner) = owners.get_mut(&txn) {
        owner.choose();
    }
}

/// Takes a transaction's record away.
pub fn remove(owners: &mut Owners, txn: TxnNo) -> Option<Owner>
    ensures owner { result ≡ owner_of owners.old.entries txn }
    ensures grants { (u : TxnNo) (n : LockName) → grants_in owners.new.entries u n ≡ released_all (grants_in owners.old.entries) txn u n }
    ensures gone { IsGone owners.old.entries owners.new.entries txn }
    ensures total { left_sum owners.new.entries + left_in owners.old.entries txn ≡ left_sum owners.old.entries }
    ensures claims { claims_sum owners.new.entries + claim_in owners.old.entries txn ≡ claims_sum owners.old.entries }
{
    owners.remove(&txn)
}

/// Gives a transaction a record, if it has none.
pub fn open(owners: &mut Owners, alloc: Global, txn: TxnNo) -> Result<(), AllocError>
    ensures same { IsSame owners.old.entries owners.new.entries }
    ensures ok { OnOk result (IsSome (owner_of owners.new.entries txn)) }
{
    if owners.contains_key(&txn) {
        return Ok(());
    }
    owners.insert(txn, Owner::new(alloc))?;
    Ok(())
}

/// Lets a transaction that has a record ask for n names, which are no fewer than before.
pub fn reserve(owners: &mut Owners, txn: TxnNo, n: u32) -> Result<(), AllocError>
    requires { IsSome (owner_of owners.old.entries txn) }
    ensures changes { Changes owners.old.entries owners.new.entries txn (grants_in owners.old.entries) }
    ensures room { left_in owners.new.entries txn ≡ (if is_ok result then n else left_in owners.old.entries txn) }
    ensures same { waits_in owners.new.entries txn ≡ waits_in owners.old.entries txn }
    ensures victim { victim_in owners.new.entries txn ≡ victim_in owners.old.entries txn }
{
    match owners.get_mut(&txn) {
        Some(owner) => owner.reserve(n),
        None => Ok(()),
    }
}

/// On how many names a transaction has anything.
pub fn count(owners: &Owners, txn: TxnNo) -> u64
    ensures exact { IsNumber (λ n. is_held (grants_in owners.now.entries txn n)) result }
{
    match owners.get(&txn) {
        Some(owner) => owner.holdings.count(),
        None => 0,
    }
}

/// On how many rows and places before a first entry of a table a transaction has anything.
pub fn row_count(owners: &Owners, txn: TxnNo, table: u32) -> u64
    ensures exact { IsNumber (λ n. is_row_name table n && is_held (grants_in owners.now.entries txn n)) result }
{
    match owners.get(&txn) {
        Some(owner) => owner.holdings.row_count(table),
        None => 0,
    }
}

/// On how many rows and places before a first entry of a table a transaction has a mode of one who changes.
pub fn written_count(owners: &Owners, txn: TxnNo, table: u32) -> u64
    ensures exact { IsNumber (λ n. is_row_name table n && writes (grants_in owners.now.entries txn n)) result }
{
    match owners.get(&txn) {
        Some(owner) => owner.holdings.written_count(table),
        None => 0,
    }
}

/// On how many names a transaction has a mode that also holds the gap.
pub fn ranged_count(owners: &Owners, txn: TxnNo) -> u64
    ensures exact { IsNumber (λ n. is_ranged (grants_in owners.now.entries txn n)) result }
{
    match owners.get(&txn) {
        Some(owner) => owner.holdings.ranged_count(),
        None => 0,
    }
}
