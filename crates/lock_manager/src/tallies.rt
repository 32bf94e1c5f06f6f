//! How many names a transaction has, and of which kinds, so that no question walks over them.

ghost use Rattle.std.specs.Prelude.{◌≡◌, ◌≤◌, ◌<◌, ◌+◌, ◌^◌, ◌⊎◌, ℕ, true, false, MatchOption, OnOk, nat_eq, if◌then◌else◌};
ghost use Rattle.std.specs.HashMap.{spare};
ghost use Rattle.lock_modes.specs.Modes.{is_held};
ghost use Rattle.lock_modes.specs.Names.{is_row_name};
ghost use Rattle.lock_manager.specs.Tallies.{one, rows_at, no_rows, CanTally, CanTallyRows, RowsTallied, IsTallied, IsDropped};

use lock_modes::modes::Modes;
use lock_modes::name::LockName;
use std::alloc::{AllocError, Global};
use std::collections::HashMap;

/// What is noted of a table's rows and places before a first entry.
#[derive(Clone, Copy, Debug, PartialEq, Eq)]
pub struct Rows {
    /// On how many of them a transaction has anything.
    pub names: u64,
    /// On how many of them it has a mode of one who changes.
    pub written: u64,
    /// On how many of them it has a mode that also holds the gap.
    pub ranged: u64,
}

/// How many names a transaction has.
#[derive(Drop)]
pub struct Tallies {
    pub names: u64,
    /// On how many of them it has a mode that also holds the gap.
    pub ranged: u64,
    pub tables: HashMap<u32, Rows>,
}

/// The table of which a name is a row, or the place before a first entry.
fn table_of(name: LockName) -> Option<u32>
    ensures exact { MatchOption result ((k : ℕ) → is_row_name k name ≡ false) (λ t. (k : ℕ) → is_row_name k name ≡ nat_eq t k) }
{
    match name {
        LockName::Dictionary => None,
        LockName::Table(_) => None,
        LockName::Row { table, .. } => Some(table),
        LockName::First { table, .. } => Some(table),
    }
}

/// A tally after one thing that counted, or didn't, counts now, or doesn't.
fn moved(n: u64, was: bool, now: bool) -> u64
    requires some { one was ≤ n }
    requires small { n < 2 ^ 63 }
    ensures exact { result + one was ≡ n + one now }
{
    if was {
        if now { n } else { n - 1 }
    } else {
        if now { n + 1 } else { n }
    }
}

/// What is noted of a table.
pub fn rows_of(tables: &HashMap<u32, Rows>, table: u32) -> Rows
    ensures exact { result ≡ rows_at tables.now table }
{
    match tables.get(&table) {
        Some(rows) => *rows,
        None => Rows {
            names: 0,
            written: 0,
            ranged: 0,
        },
    }
}

/// Notes something of a table. A table of which something was noted needs no room.
fn put_rows(tables: &mut HashMap<u32, Rows>, table: u32, rows: Rows)
    requires { (0 < (rows_at tables.old table).names) ⊎ (0 < spare tables.old) }
    ensures exact { (k : ℕ) → rows_at tables.new k ≡ (if nat_eq table k then rows else rows_at tables.old k) }
    ensures room { spare tables.old ≤ spare tables.new + 1 }
    ensures kept { 0 < (rows_at tables.old table).names → spare tables.new ≡ spare tables.old }
{
    if let Some(noted) = tables.get_mut(&table) {
        *noted = rows;
        return;
    }
    let _ = tables.insert(table, rows);
}

/// Takes away what is noted of a table.
fn clear_rows(tables: &mut HashMap<u32, Rows>, table: u32)
    ensures exact { (k : ℕ) → rows_at tables.new k ≡ (if nat_eq table k then no_rows else rows_at tables.old k) }
    ensures room { spare tables.new ≡ spare tables.old }
{
    if let Some(noted) = tables.get_mut(&table) {
        *noted = Rows {
            names: 0,
            written: 0,
            ranged: 0,
        };
    }
}

/// Follows a change of one name's modes.
fn change_rows(tables: &mut HashMap<u32, Rows>, name: LockName, was: Modes, now: Modes)
    requires can { CanTallyRows tables.old name was }
    requires room { (is_held was ≡ true) ⊎ (0 < spare tables.old) }
    ensures exact { RowsTallied tables.old tables.new name was now }
    ensures room { spare tables.old ≤ spare tables.new + 1 }
    ensures kept { is_held was ≡ true → spare tables.new ≡ spare tables.old }
{
    let Some(table) = table_of(name) else {
        return;
    };
    let rows = rows_of(tables, table);
    let names = moved(rows.names, was.is_held(), now.is_held());
    let written = moved(rows.written, was.writes(), now.writes());
    let ranged = moved(rows.ranged, was.is_ranged(), now.is_ranged());
    put_rows(
        tables,
        table,
        Rows {
            names,
            written,
            ranged,
        },
    );
}

impl Tallies {
    /// No names.
    pub fn new(alloc: Global) -> Tallies
        ensures names { result.names ≡ 0 }
        ensures ranged { result.ranged ≡ 0 }
        ensures tables { (k : ℕ) → rows_at result.tables k ≡ no_rows }
    {
        Tallies {
            names: 0,
            ranged: 0,
            tables: HashMap::new(alloc),
        }
    }

    /// Follows a change of one name's modes. A name on which something was held needs no room.
    pub fn change(&mut self, name: LockName, was: Modes, now: Modes)
        requires can { CanTally self.old name was }
        requires room { (is_held was ≡ true) ⊎ (0 < spare self.old.tables) }
        ensures exact { IsTallied self.old self.new name was now }
        ensures room { spare self.old.tables ≤ spare self.new.tables + 1 }
        ensures kept { is_held was ≡ true → spare self.new.tables ≡ spare self.old.tables }
    {
        self.names = moved(self.names, was.is_held(), now.is_held());
        self.ranged = moved(self.ranged, was.is_ranged(), now.is_ranged());
        change_rows(&mut self.tables, name, was, now);
    }

    /// Takes away what is noted of a table.
    pub fn drop_table(&mut self, table: u32)
        requires names { (rows_at self.old.tables table).names ≤ self.old.names }
        requires ranged { (rows_at self.old.tables table).ranged ≤ self.old.ranged }
        ensures exact { IsDropped self.old self.new table }
        ensures room { spare self.new.tables ≡ spare self.old.tables }
    {
        let rows = rows_of(&self.tables, table);
        self.names -= rows.names;
        self.ranged -= rows.ranged;
        clear_rows(&mut self.tables, table);
    }

    /// Makes room for names of so many tables more.
    pub fn reserve(&mut self, n: usize) -> Result<(), AllocError>
        ensures same { (self.new.names ≡ self.old.names) × (self.new.ranged ≡ self.old.ranged) × ((k : ℕ) → rows_at self.new.tables k ≡ rows_at self.old.tables k) }
        ensures room { OnOk result (n ≤ spare self.new.tables) }
        ensures keeps { spare self.old.tables ≤ spare self.new.tables }
    {
        self.tables.reserve(n)
    }
}
