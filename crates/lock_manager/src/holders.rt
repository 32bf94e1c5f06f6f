//! Who has something on a name.

ghost use Rattle.std.specs.Prelude.{◌≡◌, ◌++◌, [], OnOk, IfOk};
ghost use Rattle.lock_manager.specs.Holders.{pairs_of, IsHolders};
ghost use Rattle.lock_manager.specs.Owners.{grants_in};

use crate::owners::Owners;
use dby_types::number::TxnNo;
use dby_types::seq::Seq;
use lock_modes::mode::Mode;
use lock_modes::modes::{ALL, Modes};
use lock_modes::name::LockName;
use std::alloc::{AllocError, Global};

/// Transactions, each with a mode that it has.
pub type Holders = Seq<(TxnNo, Mode)>;

/// Lists a transaction with each of some modes that it has.
fn list_modes(out: &mut Holders, txn: TxnNo, modes: Modes, some: &[Mode]) -> Result<(), AllocError>
    ensures ok { OnOk result (out.new ≡ out.old ++ pairs_of txn modes some.now) }
{
    for mode in some {
        if modes.has(*mode) {
            out.push((txn, *mode))?;
        }
    }
    Ok(())
}

/// Every transaction with each mode that it has on the name, or want of memory.
pub fn holders(owners: &Owners, alloc: Global, name: LockName) -> Result<Holders, AllocError>
    ensures ok { IfOk result (λ hs. IsHolders (grants_in owners.now.entries) name hs) }
{
    let _ = owners.len();
    let mut out = Seq::new(alloc);
    for (txn, owner) in owners {
        list_modes(&mut out, *txn, owner.holdings.modes(name), &ALL)?;
    }
    Ok(out)
}
