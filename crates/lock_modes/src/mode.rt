//! Lock modes and their two tables.

ghost use Rattle.std.specs.Prelude.{◌≡◌};
ghost use Rattle.lock_modes.specs.Modes.{same_mode, is_row_mode, compatible, covers};

/// A lock mode: seven for rows, entries and places before a first entry, four for tables and the dictionary.
#[derive(Clone, Copy, Debug, PartialEq, Eq)]
pub enum Mode {
    /// Read, by a reader that allows new rows beside this one.
    S2,
    /// Read, also of the gap behind the entry.
    S3,
    /// Read in order to change, below serializable.
    U2,
    /// Read in order to change, also of the gap behind the entry.
    U3,
    /// Put a new entry behind this one.
    Ip,
    /// Change, below serializable.
    X2,
    /// Change, also of the gap behind the entry.
    X3,
    /// Some rows of the table are read.
    TIs,
    /// Some rows of the table are changed.
    TIx,
    /// The whole table is read.
    TS,
    /// The whole table is changed.
    TX,
}

/// Whether two transactions may have these modes on one name.
#[tactic(auto, unfolding(crate::specs::Modes::compatible))]
pub fn compatible(a: Mode, b: Mode) -> bool
    ensures exact { result ≡ compatible a b }
{
    match a {
        Mode::S2 => matches!(b, Mode::S2 | Mode::S3 | Mode::U2 | Mode::U3 | Mode::Ip),
        Mode::S3 => matches!(b, Mode::S2 | Mode::S3 | Mode::U2 | Mode::U3),
        Mode::U2 => matches!(b, Mode::S2 | Mode::S3 | Mode::Ip),
        Mode::U3 => matches!(b, Mode::S2 | Mode::S3),
        Mode::Ip => matches!(b, Mode::S2 | Mode::U2 | Mode::Ip | Mode::X2),
        Mode::X2 => matches!(b, Mode::Ip),
        Mode::X3 => false,
        Mode::TIs => matches!(b, Mode::TIs | Mode::TIx | Mode::TS),
        Mode::TIx => matches!(b, Mode::TIs | Mode::TIx),
        Mode::TS => matches!(b, Mode::TIs | Mode::TS),
        Mode::TX => false,
    }
}

/// Whether a is at least b: each mode that is compatible with a is compatible with b, and both are of one kind.
#[tactic(auto, unfolding(crate::specs::Modes::covers))]
pub fn covers(a: Mode, b: Mode) -> bool
    ensures exact { result ≡ covers a b }
{
    match a {
        Mode::S2 => matches!(b, Mode::S2),
        Mode::S3 => matches!(b, Mode::S2 | Mode::S3),
        Mode::U2 => matches!(b, Mode::S2 | Mode::U2),
        Mode::U3 => matches!(b, Mode::S2 | Mode::S3 | Mode::U2 | Mode::U3),
        Mode::Ip => matches!(b, Mode::Ip),
        Mode::X2 => matches!(b, Mode::S2 | Mode::U2 | Mode::Ip | Mode::X2),
        Mode::X3 => is_row_mode(b),
        Mode::TIs => matches!(b, Mode::TIs),
        Mode::TIx => matches!(b, Mode::TIs | Mode::TIx),
        Mode::TS => matches!(b, Mode::TIs | Mode::TS),
        Mode::TX => !is_row_mode(b),
    }
}

/// Whether this is a mode of rows, entries and places before a first entry.
pub fn is_row_mode(a: Mode) -> bool
    ensures exact { result ≡ is_row_mode a }
{
    !matches!(a, Mode::TIs | Mode::TIx | Mode::TS | Mode::TX)
}
