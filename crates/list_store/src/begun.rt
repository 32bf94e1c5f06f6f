//! The open transactions, with their changes that stand.

ghost use Rattle.std.specs.Prelude.{◌≡◌, ◌≢◌, [], length, None, IfSome, IfNone, MatchOption, OnOk, OnErr};
ghost use Rattle.list_store.specs.Begun.{changes_of, newest_first, Pushes, IsSame, Opens, Closes, Pops, StartsWith};
ghost use Rattle.store_api.specs.View.{changes_in};

use dby_types::number::TxnNo;
use std::alloc::{AllocError, Global};
use std::collections::HashMap;
use store_api::slot::Item;

/// The changes of an open transaction that stand, the newest last.
#[derive(Debug, Drop)]
pub struct Open {
    pub items: Vec<Item>,
}

pub type Begun = HashMap<TxnNo, Open>;

/// Opens a transaction.
pub fn begin(begun: &mut Begun, alloc: Global, t: TxnNo) -> Result<(), AllocError>
    ensures ok { OnOk result (Opens begun.old.entries begun.new.entries t.0) }
    ensures err { OnErr result (IsSame begun.old.entries begun.new.entries) }
{
    begun.insert(
        t,
        Open {
            items: Vec::new(alloc),
        },
    )?;
    Ok(())
}

/// How many changes of a transaction stand.
pub fn count(begun: &Begun, t: TxnNo) -> usize
    ensures { result ≡ length (changes_in (changes_of begun.now.entries t.0)) }
{
    match begun.get(&t) {
        Some(open) => open.items.len(),
        None => 0,
    }
}

/// Adds a change to those of an open transaction.
pub fn push(begun: &mut Begun, t: TxnNo, item: Item) -> Result<(), AllocError>
    requires { changes_of begun.old.entries t.0 ≢ None }
    ensures ok { OnOk result (Pushes begun.old.entries begun.new.entries t.0 item) }
    ensures err { OnErr result (IsSame begun.old.entries begun.new.entries) }
{
    match begun.get_mut(&t) {
        Some(open) => {
            open.items.push(item)?;
            Ok(())
        }
        None => unreachable!(),
    }
}

/// The newest change of a transaction.
pub fn newest(begun: &Begun, t: TxnNo) -> Option<&Item>
    ensures { MatchOption result (changes_in (changes_of begun.now.entries t.0) ≡ []) (λ item. StartsWith item.now (changes_in (changes_of begun.now.entries t.0))) }
{
    match begun.get(&t) {
        Some(open) => open.items.last(),
        None => None,
    }
}

/// Takes the newest change of a transaction away.
pub fn pop(begun: &mut Begun, t: TxnNo) -> Option<Item>
    ensures some { IfSome result (Pops begun.old.entries begun.new.entries t.0) }
    ensures none { IfNone result (changes_in (changes_of begun.old.entries t.0) ≡ []) }
{
    match begun.get_mut(&t) {
        Some(open) => open.items.pop(),
        None => None,
    }
}

/// Ends a transaction, and gives its changes.
pub fn end(begun: &mut Begun, t: TxnNo) -> Option<Open>
    ensures ended { Closes begun.old.entries begun.new.entries t.0 }
    ensures items { changes_of begun.old.entries t.0 ≡ newest_first result }
{
    begun.remove(&t)
}
