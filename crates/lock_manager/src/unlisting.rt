//! Taking a transaction out of the lists of many names.

ghost use Rattle.std.specs.Prelude.{◌≡◌, ◌≤◌, true};
ghost use Rattle.std.specs.HashMap.{spare};
ghost use Rattle.lock_modes.specs.Names.{is_row_name};
ghost use Rattle.lock_manager.specs.Places.{IsPacked, Unlists};

use crate::owner::Owner;
use crate::owners::Owners;
use crate::places::{Places, unlist};
use dby_types::number::TxnNo;
use lock_modes::modes::Modes;
use lock_modes::name::{LockName, is_row_name};
use std::collections::HashMap;

/// Takes a transaction out of the lists of its rows, and places before a first entry, of a table.
pub fn unlist_rows(owners: &Owners, places: &mut Places, txn: TxnNo, table: u32)
    requires { IsPacked places.old }
    ensures packed { IsPacked places.new }
    ensures kept { Unlists places.old places.new (is_row_name table) txn }
    ensures room { spare places.old ≤ spare places.new }
{
    if let Some(owner) = owners.get(&txn) {
        unlist_some(places, &owner.holdings.modes, txn, table);
    }
}

fn unlist_some(places: &mut Places, modes: &HashMap<LockName, Modes>, txn: TxnNo, table: u32)
    requires { IsPacked places.old }
    ensures packed { IsPacked places.new }
    ensures kept { Unlists places.old places.new (is_row_name table) txn }
    ensures room { spare places.old ≤ spare places.new }
{
    for (name, _) in modes {
        if is_row_name(table, *name) {
            unlist(places, *name, txn);
        }
    }
}

/// Takes a transaction, whose record is gone, out of the lists of all that it had.
pub fn unlist_all(places: &mut Places, owner: &Option<Owner>, txn: TxnNo)
    requires { IsPacked places.old }
    ensures packed { IsPacked places.new }
    ensures kept { Unlists places.old places.new (λ k. true) txn }
    ensures room { spare places.old ≤ spare places.new }
{
    if let Some(owner) = owner {
        unlist_each(places, &owner.holdings.modes, txn);
    }
}

fn unlist_each(places: &mut Places, modes: &HashMap<LockName, Modes>, txn: TxnNo)
    requires { IsPacked places.old }
    ensures packed { IsPacked places.new }
    ensures kept { Unlists places.old places.new (λ k. true) txn }
    ensures room { spare places.old ≤ spare places.new }
{
    for (name, _) in modes {
        unlist(places, *name, txn);
    }
}
