//! What can be locked.

ghost use Rattle.std.specs.Prelude.{◌≡◌};
ghost use Rattle.lock_modes.specs.Names.{same_txn, same_name, is_row_name};

use dby_types::number::{RowId, TxnNo};

/// The name of a lock.
#[derive(Clone, Copy, Debug, PartialEq, Eq, Hash)]
pub enum LockName {
    Dictionary,
    Table(u32),
    /// A row, and each index entry that names it.
    Row { table: u32, rid: RowId },
    /// The place before the first entry of an index.
    First { table: u32, index: u32 },
}

/// Whether two numbers are of one transaction.
pub fn is_same_txn(a: TxnNo, b: TxnNo) -> bool
    ensures exact { result ≡ same_txn a b }
{
    a.0 == b.0
}

/// Whether two names are one.
pub fn is_same_name(a: LockName, b: LockName) -> bool
    ensures exact { result ≡ same_name a b }
{
    match (a, b) {
        (LockName::Dictionary, LockName::Dictionary) => true,
        (LockName::Table(x), LockName::Table(y)) => x == y,
        (LockName::Row { table: x, rid: r }, LockName::Row { table: y, rid: s }) => {
            x == y && r.page == s.page && r.slot == s.slot
        }
        (LockName::First { table: x, index: i }, LockName::First { table: y, index: j }) => {
            x == y && i == j
        }
        _ => false,
    }
}

/// Whether the name is of a row, or of the place before a first entry, of this table.
pub fn is_row_name(table: u32, name: LockName) -> bool
    ensures exact { result ≡ is_row_name table name }
{
    match name {
        LockName::Dictionary => false,
        LockName::Table(_) => false,
        LockName::Row { table: of, .. } => of == table,
        LockName::First { table: of, .. } => of == table,
    }
}
