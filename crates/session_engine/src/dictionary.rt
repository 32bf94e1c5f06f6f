//! The dictionary: the tables by their names.

ghost use Rattle.std.specs.Prelude.{◌≡◌, ◌≤◌, [], ◌∷◌, ◌++◌, map, IfSome, IfNone, IfOk};
ghost use Rattle.indexmap.specs.IndexMap.{spare};
ghost use Rattle.session_engine.specs.Dictionary.{IsThere, IsAbsent};
ghost use Rattle.session_engine.specs.Listed.{left_named};

use crate::listing::OF_TABLES;
use dby_types::copies::copy_text;
use dby_types::definition::{ColumnDef, Columns};
use dby_types::seq::Seq;
use dby_types::value::{Name, Names};
use indexmap::IndexMap;
use std::alloc::{AllocError, Global};

/// A table: its number, and its columns.
#[derive(Debug, Drop)]
pub struct Defined {
    pub number: u32,
    pub columns: Columns,
}

/// The tables in the order in which they were made, found by name.
pub type Tables = IndexMap<Name, Defined>;

/// The table of a name.
pub(crate) fn find<'a>(tables: &'a Tables, name: &Name) -> Option<&'a Defined>
    ensures some { IfSome result (λ d. IsThere tables.now.entries name.now d.now) }
    ensures none { IfNone result (IsAbsent tables.now.entries name.now) }
{
    tables.get(name)
}

/// A new table stands in the dictionary, where room was made for it.
pub(crate) fn enlist(tables: &mut Tables, name: Name, defined: Defined)
    requires room { 1 ≤ spare tables.old }
    requires absent { IsAbsent tables.old.entries name }
    ensures { tables.new.entries ≡ tables.old.entries ++ (name, defined) ∷ [] }
{
    let _ = tables.insert(name, defined);
}

/// The newest change, of this catalog table, was taken back: a table's own row takes the dictionary's newest table with it.
pub(crate) fn unlist(tables: &mut Tables, table: u32)
    ensures { tables.new.entries ≡ left_named table tables.old.entries }
{
    if table == OF_TABLES {
        let count = tables.len();
        tables.truncate(count.saturating_sub(1));
    }
}

/// The names of columns.
pub(crate) fn names_of(alloc: Global, columns: &[ColumnDef]) -> Result<Names, AllocError>
    ensures { IfOk result (λ names. names ≡ map (λ c. c.name) columns.now) }
{
    let mut names = Vec::with_capacity(alloc, columns.len())?;
    for column in columns {
        names.push(copy_text(alloc, column.name.as_slice())?)?;
    }
    Ok(Seq::from_vec(names))
}
