//! The modes of one transaction, by name.

ghost use Rattle.std.specs.Prelude.{◌≡◌, ◌≤◌, ◌<◌, ◌+◌, ◌⊎◌, ℕ, true, not, if◌then◌else◌};
ghost use Rattle.std.specs.List.{filter};
ghost use Rattle.std.specs.HashMap.{spare};
ghost use Rattle.lock_modes.specs.Modes.{no_modes, is_held};
ghost use Rattle.lock_modes.specs.Names.{same_name, is_row_name};
ghost use Rattle.lock_modes.specs.declared.name.LockName.{LockName};
ghost use Rattle.lock_manager.specs.ByName.{modes_at};
ghost use Rattle.lock_manager.specs.Tallies.{Moves};

use lock_modes::modes::Modes;
use lock_modes::name::{LockName, is_row_name};
use std::collections::HashMap;

/// Puts the modes on a name.
pub fn put_modes(names: &mut HashMap<LockName, Modes>, name: LockName, modes: Modes)
    requires { (is_held (modes_at names.old name) ≡ true) ⊎ (0 < spare names.old) }
    ensures exact { (k : LockName) → modes_at names.new k ≡ (if same_name name k then modes else modes_at names.old k) }
    ensures moves { Moves names.old.entries names.new.entries name (modes_at names.old name) modes }
    ensures room { spare names.old ≤ spare names.new + 1 }
    ensures kept { is_held (modes_at names.old name) ≡ true → spare names.new ≡ spare names.old }
{
    if let Some(noted) = names.get_mut(&name) {
        *noted = modes;
        return;
    }
    let _ = names.insert(name, modes);
}

/// Takes away what stands under a name.
pub fn drop_modes(names: &mut HashMap<LockName, Modes>, name: LockName)
    ensures exact { (k : LockName) → modes_at names.new k ≡ (if same_name name k then no_modes else modes_at names.old k) }
    ensures moves { Moves names.old.entries names.new.entries name (modes_at names.old name) no_modes }
    ensures room { spare names.old ≤ spare names.new }
{
    let _ = names.remove(&name);
}

/// Takes away what stands under the rows, and places before a first entry, of a table.
pub fn drop_rows(names: &mut HashMap<LockName, Modes>, table: u32)
    ensures entries { names.new.entries ≡ filter (λ e. not (is_row_name table e.0)) names.old.entries }
    ensures room { spare names.old ≤ spare names.new }
{
    names.retain(|name, _| !is_row_name(table, *name));
}
