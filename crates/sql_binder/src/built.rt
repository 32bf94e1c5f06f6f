//! Which forms of statements are built.

ghost use Rattle.std.specs.Prelude.{◌≡◌};
ghost use Rattle.sql_binder.specs.Built as meaning;

use dby_types::number::Level;
use sql_ast::statement::{ColumnMark, Statement, TablePart};

/// A mark that makes a key.
fn is_key_mark(mark: ColumnMark) -> bool
    ensures { result ≡ meaning.is_key_mark mark }
{
    match mark {
        ColumnMark::NotNull => false,
        ColumnMark::PrimaryKey | ColumnMark::Unique => true,
    }
}

/// Whether a column's marks make a key.
fn marks_key(marks: &[ColumnMark]) -> bool
    ensures { result ≡ meaning.marks_key marks.now }
{
    for mark in marks {
        if is_key_mark(*mark) {
            return true;
        }
    }
    false
}

/// A part of a table that makes a key.
fn makes_key(part: &TablePart) -> bool
    ensures { result ≡ meaning.makes_key part.now }
{
    match part {
        TablePart::Column(column) => marks_key(column.marks.as_slice()),
        TablePart::PrimaryKey(_) | TablePart::Unique(_) => true,
    }
}

/// Whether a table has a key.
fn has_key(parts: &[TablePart]) -> bool
    ensures { result ≡ meaning.has_key parts.now }
{
    for part in parts {
        if makes_key(part) {
            return true;
        }
    }
    false
}

/// Read committed and serializable.
fn is_level(level: Level) -> bool
    ensures { result ≡ meaning.is_level level }
{
    match level {
        Level::Cs | Level::Rr => true,
        Level::Ur | Level::Rs => false,
    }
}

/// Whether a statement's form is built.
pub fn is_built(s: &Statement) -> bool
    ensures { result ≡ meaning.is_built s.now }
{
    match s {
        Statement::CreateTable { parts, .. } => !has_key(parts.as_slice()),
        Statement::SetIsolation(level) => is_level(*level),
        Statement::Insert { .. } | Statement::Update { .. } | Statement::Delete { .. } => true,
        Statement::Select(_) | Statement::Autocommit(_) => true,
        Statement::Commit | Statement::Rollback => true,
        Statement::CreateIndex { .. } | Statement::Drop { .. } => false,
        Statement::LockTable { .. } | Statement::Unread(_) => false,
    }
}
