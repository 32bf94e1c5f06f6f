//! What one transaction has: its modes by name.

ghost use Rattle.lock_manager.specs.Tallies.{Counts};

use crate::names::{drop_modes, drop_rows, put_modes};
use crate::tallies::{Tallies, rows_of};
use lock_modes::mode::Mode;
use lock_modes::modes::Modes;
use lock_modes::name::LockName;
use std::alloc::{AllocError, Global};
use std::collections::HashMap;

/// The modes of one transaction, by name.
#[derive(Drop)]
pub struct Holdings {
    pub modes: HashMap<LockName, Modes>,
    pub tallies: Tallies,
    ghost counts: { Counts tallies modes.entries },
}

impl Holdings {
    ghost use Rattle.std.specs.Prelude.{◌≡◌, ◌≤◌, ◌<◌, ◌+◌, ◌⊎◌, ℕ, true, false, OnOk, if◌then◌else◌, ◌&&◌, ◌↔◌, IsTrue};
    ghost use Rattle.std.specs.HashMap.{spare};
    ghost use Rattle.lock_modes.specs.Modes.{no_modes, with_mode, is_held, is_ranged, writes};
    ghost use Rattle.lock_modes.specs.Names.{same_name, is_row_name};
    ghost use Rattle.lock_modes.specs.Waits.{IsNumber};
    ghost use Rattle.lock_modes.specs.declared.name.LockName.{LockName};
    ghost use Rattle.lock_manager.specs.Holdings.{modes_in, HasRoom};

    /// Nothing.
    pub fn new(alloc: Global) -> Holdings
        ensures none { (n : LockName) → modes_in result n ≡ no_modes }
    {
        Holdings {
            modes: HashMap::new(alloc),
            tallies: Tallies::new(alloc),
        }
    }

    /// The modes on a name.
    pub fn modes(&self, name: LockName) -> Modes
        ensures exact { result ≡ modes_in self.now name }
    {
        match self.modes.get(&name) {
            Some(modes) => *modes,
            None => Modes::none(),
        }
    }

    /// On how many names anything is held.
    pub fn count(&self) -> u64
        ensures exact { IsNumber (λ n. is_held (modes_in self.now n)) result }
    {
        let _ = self.modes.len();
        self.tallies.names
    }

    /// On how many rows and places before a first entry of a table anything is held.
    pub fn row_count(&self, table: u32) -> u64
        ensures exact { IsNumber (λ n. is_row_name table n && is_held (modes_in self.now n)) result }
    {
        let _ = self.modes.len();
        rows_of(&self.tallies.tables, table).names
    }

    /// On how many rows and places before a first entry of a table a mode of one who changes is held.
    pub fn written_count(&self, table: u32) -> u64
        ensures exact { IsNumber (λ n. is_row_name table n && writes (modes_in self.now n)) result }
    {
        let _ = self.modes.len();
        rows_of(&self.tallies.tables, table).written
    }

    /// On how many names a mode that also holds the gap is held.
    pub fn ranged_count(&self) -> u64
        ensures exact { IsNumber (λ n. is_ranged (modes_in self.now n)) result }
    {
        let _ = self.modes.len();
        self.tallies.ranged
    }

    /// Makes room for so many names more.
    pub fn reserve(&mut self, n: usize) -> Result<(), AllocError>
        ensures same { (k : LockName) → modes_in self.new k ≡ modes_in self.old k }
        ensures room { OnOk result (n ≤ spare self.new.modes) }
        ensures tables { OnOk result (n ≤ spare self.new.tallies.tables) }
        ensures keeps { (spare self.old.modes ≤ spare self.new.modes) × (spare self.old.tallies.tables ≤ spare self.new.tallies.tables) }
    {
        self.modes.reserve(n)?;
        self.tallies.reserve(n)
    }

    /// Adds a mode on a name.
    pub fn add(&mut self, name: LockName, mode: Mode)
        requires { HasRoom self.old name }
        ensures exact { (k : LockName) → modes_in self.new k ≡ (if same_name name k then with_mode (modes_in self.old k) mode else modes_in self.old k) }
        ensures room { (spare self.old.modes ≤ spare self.new.modes + 1) × (spare self.old.tallies.tables ≤ spare self.new.tallies.tables + 1) }
        ensures kept { is_held (modes_in self.old name) ≡ true → (spare self.new.modes ≡ spare self.old.modes) × (spare self.new.tallies.tables ≡ spare self.old.tallies.tables) }
    {
        let was = self.modes(name);
        let now = was.with(mode);
        let _ = self.modes.len();
        self.tallies.change(name, was, now);
        put_modes(&mut self.modes, name, now);
    }

    /// Takes away what stands under a name.
    pub fn remove(&mut self, name: LockName)
        ensures exact { (k : LockName) → modes_in self.new k ≡ (if same_name name k then no_modes else modes_in self.old k) }
        ensures room { (spare self.old.modes ≤ spare self.new.modes) × (spare self.old.tallies.tables ≤ spare self.new.tallies.tables) }
    {
        let was = self.modes(name);
        if was.is_held() {
            self.remove_held(name, was);
        }
    }

    /// Takes away what stands under the rows, and places before a first entry, of a table.
    pub fn remove_rows(&mut self, table: u32)
        ensures exact { (k : LockName) → modes_in self.new k ≡ (if is_row_name table k then no_modes else modes_in self.old k) }
        ensures room { (spare self.old.modes ≤ spare self.new.modes) × (spare self.old.tallies.tables ≤ spare self.new.tallies.tables) }
    {
        self.tallies.drop_table(table);
        drop_rows(&mut self.modes, table);
    }

    fn remove_held(&mut self, name: LockName, was: Modes)
        requires was { was ≡ modes_in self.old name }
        requires held { is_held was ≡ true }
        ensures exact { (k : LockName) → modes_in self.new k ≡ (if same_name name k then no_modes else modes_in self.old k) }
        ensures room { (spare self.old.modes ≤ spare self.new.modes) × (spare self.old.tallies.tables ≤ spare self.new.tallies.tables) }
    {
        let _ = self.modes.len();
        self.tallies.change(name, was, Modes::none());
        drop_modes(&mut self.modes, name);
    }
}
