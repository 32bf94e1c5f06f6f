//! One open transaction.

ghost use Rattle.std.specs.Prelude.{◌≡◌, ◌≤◌, ◌<◌, ◌+◌, ◌-◌, ◌⊎◌, true, false, is_ok, if◌then◌else◌};
ghost use Rattle.std.specs.HashMap.{spare};
ghost use Rattle.lock_modes.specs.Modes.{with_mode, no_modes, is_held};
ghost use Rattle.lock_modes.specs.Names.{same_name, is_row_name};
ghost use Rattle.lock_modes.specs.declared.name.LockName.{LockName};
ghost use Rattle.lock_manager.specs.Holdings.{modes_in};
ghost use Rattle.lock_manager.specs.Tallies.{one};

use crate::holdings::Holdings;
use lock_modes::mode::Mode;
use lock_modes::name::LockName;
use std::alloc::{AllocError, Global};

/// An open transaction.
#[derive(Drop)]
pub struct Owner {
    /// For how many names more it may ask.
    pub left: u32,
    /// Whether room is set aside for its queued request.
    pub waits: bool,
    pub victim: bool,
    /// What it drew when it last began to wait. No clause speaks of it: it says where to look for the request first.
    pub ticket: u64,
    pub holdings: Holdings,
    ghost room: { left + (if waits then 1 else 0) ≤ spare holdings.modes },
    ghost tables: { left + (if waits then 1 else 0) ≤ spare holdings.tallies.tables },
}

impl Owner {
    /// A transaction that has nothing and may ask for nothing.
    pub fn new(alloc: Global) -> Owner
        ensures modes { (k : LockName) → modes_in result.holdings k ≡ no_modes }
        ensures left { result.left ≡ 0 }
        ensures waits { result.waits ≡ false }
        ensures victim { result.victim ≡ false }
    {
        Owner {
            left: 0,
            waits: false,
            victim: false,
            ticket: 0,
            holdings: Holdings::new(alloc),
        }
    }

    /// Lets it ask for n names, which are no fewer than before.
    pub fn reserve(&mut self, n: u32) -> Result<(), AllocError>
        ensures modes { (k : LockName) → modes_in self.new.holdings k ≡ modes_in self.old.holdings k }
        ensures left { self.new.left ≡ (if is_ok result then n else self.old.left) }
        ensures waits { self.new.waits ≡ self.old.waits }
        ensures victim { self.new.victim ≡ self.old.victim }
    {
        self.holdings.reserve(n as usize + 1)?;
        self.left = n;
        Ok(())
    }

    ghost use Rattle.lock_manager.specs.OwnerSteps.{GainsMode};

    /// Adds a mode on a name, for which one of the names that are left is spent if the transaction has nothing on it.
    pub fn grant(&mut self, name: LockName, mode: Mode)
        requires { (is_held (modes_in self.old.holdings name) ≡ true) ⊎ (0 < self.old.left) }
        ensures gains { GainsMode self.old self.new name mode }
        ensures room { self.new.left ≡ (if is_held (modes_in self.old.holdings name) then self.old.left else self.old.left - 1) }
        ensures same { self.new.waits ≡ self.old.waits }
    {
        if !self.holdings.modes(name).is_held() {
            self.left -= 1;
        }
        self.holdings.add(name, mode);
    }

    /// Adds the mode that was waited for, in the room that was set aside.
    pub fn grant_queued(&mut self, name: LockName, mode: Mode)
        requires { self.old.waits ≡ true }
        ensures gains { GainsMode self.old self.new name mode }
        ensures room { self.new.left ≡ self.old.left }
        ensures same { self.new.waits ≡ false }
    {
        self.waits = false;
        self.holdings.add(name, mode);
    }

    /// Takes away all that it has on a name.
    pub fn release(&mut self, name: LockName)
        ensures exact { (k : LockName) → modes_in self.new.holdings k ≡ (if same_name name k then no_modes else modes_in self.old.holdings k) }
        ensures left { self.new.left ≡ self.old.left }
        ensures waits { self.new.waits ≡ self.old.waits }
        ensures victim { self.new.victim ≡ self.old.victim }
    {
        self.holdings.remove(name);
    }

    /// Takes away all that it has on the rows, and places before a first entry, of a table.
    pub fn release_rows(&mut self, table: u32)
        ensures exact { (k : LockName) → modes_in self.new.holdings k ≡ (if is_row_name table k then no_modes else modes_in self.old.holdings k) }
        ensures left { self.new.left ≡ self.old.left }
        ensures waits { self.new.waits ≡ self.old.waits }
        ensures victim { self.new.victim ≡ self.old.victim }
    {
        self.holdings.remove_rows(table);
    }

    /// How many names more it may take, now or once it has waited.
    pub fn claim(&self) -> usize
        ensures exact { result ≡ self.now.left + one self.now.waits }
    {
        let left = self.left as usize;
        if self.waits { left + 1 } else { left }
    }

    /// Notes it as a victim.
    pub fn choose(&mut self)
        ensures victim { self.new.victim ≡ true }
        ensures left { self.new.left ≡ self.old.left }
        ensures waits { self.new.waits ≡ self.old.waits }
        ensures same { self.new.holdings ≡ self.old.holdings }
    {
        self.victim = true;
    }

    /// Sets room aside for a request, and notes its ticket.
    pub fn wait(&mut self, ticket: u64)
        requires room { 0 < self.old.left }
        requires idle { self.old.waits ≡ false }
        ensures waits { self.new.waits ≡ true }
        ensures left { self.new.left + 1 ≡ self.old.left }
        ensures same { self.new.holdings ≡ self.old.holdings }
        ensures victim { self.new.victim ≡ self.old.victim }
    {
        self.left -= 1;
        self.waits = true;
        self.ticket = ticket;
    }
}
