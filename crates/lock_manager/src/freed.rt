//! The names of which something was given back: requests for others needn't be looked at.

ghost use Rattle.std.specs.Prelude.{◌≡◌};
ghost use Rattle.lock_modes.specs.Modes.{is_held};
ghost use Rattle.lock_manager.specs.Freed.{asks, frees, name_of};
ghost use Rattle.lock_manager.specs.Owners.{modes_of};

use crate::owner::Owner;
use lock_modes::entry::Request;
use lock_modes::modes::Modes;
use lock_modes::name::{LockName, is_row_name, is_same_name};

/// The names of which something was given back.
#[derive(Drop)]
pub enum Freed {
    Name(LockName),
    /// The rows, and places before a first entry, of a table.
    Rows(u32),
    /// All that a transaction had, and what it asked for.
    All {
        had: Option<Owner>,
        asked: Option<LockName>,
    },
}

/// Whether something was given back on a name, or is no longer asked for.
pub fn is_freed(freed: &Freed, name: LockName) -> bool
    ensures exact { result ≡ frees freed.now name }
{
    match freed {
        Freed::Name(of) => is_same_name(*of, name),
        Freed::Rows(table) => is_row_name(*table, name),
        Freed::All { had, asked } => has(had, name) || is_asked(*asked, name),
    }
}

/// Whether a transaction, if it had a record, had anything on a name.
fn has(had: &Option<Owner>, name: LockName) -> bool
    ensures exact { result ≡ is_held (modes_of had.now name) }
{
    match had {
        Some(owner) => owner.holdings.modes(name).is_held(),
        None => Modes::none().is_held(),
    }
}

/// Whether a name is the one that was asked for.
fn is_asked(asked: Option<LockName>, name: LockName) -> bool
    ensures exact { result ≡ asks asked name }
{
    match asked {
        Some(of) => is_same_name(of, name),
        None => false,
    }
}

/// The name that was asked for.
pub fn name_of(request: Option<Request>) -> Option<LockName>
    ensures exact { result ≡ name_of request }
{
    match request {
        Some(r) => Some(r.name),
        None => None,
    }
}
