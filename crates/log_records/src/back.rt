//! Places that stand before a record.

ghost use Rattle.std.specs.Prelude.{◌↔◌, IsTrue};
ghost use Rattle.log_records.specs.Rules.{IsBack, IsBefore};

use dby_types::number::Lsn;

/// Whether a place stands before another one.
fn is_before(a: Lsn, b: Lsn) -> bool
    ensures { IsTrue result ↔ IsBefore a b }
{
    a.segment < b.segment || (a.segment == b.segment && a.offset < b.offset)
}

/// Whether it is no place, or one before another one.
pub fn is_back(a: Lsn, at: Lsn) -> bool
    ensures { IsTrue result ↔ IsBack a at }
{
    (a.segment == 0 && a.offset == 0) || is_before(a, at)
}
