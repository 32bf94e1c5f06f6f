//! The tables of FROM.

ghost use Rattle.std.specs.Prelude.{◌≡◌, ◌∷◌, [], IfOk, OnOk};
ghost use Rattle.query_binder.specs.Finding.{Adds, Begins, Puts};
ghost use Rattle.sql_binding.specs.From.{exposed_by, joined_tables, tables_of};

use change_binder::faults::keep;
use dby_types::definition::ColumnDef;
use dby_types::seq::Seq;
use dby_types::state::SqlState;
use expr_binder::names::Source;
use name_binder::catalog::Catalog;
use sql_ast::statement::{FromText, JoinText, TableText};
use std::alloc::{AllocError, Global};

/// Tables that were found, with their numbers, and the fault that is told so far.
#[derive(Debug, Drop)]
pub struct Tables<'a> {
    pub sources: Seq<Source<'a>>,
    pub numbers: Seq<u32>,
    pub fault: Option<SqlState>,
}

/// The name by which a table is known: its alias, or its own where it has none.
fn exposed(text: &TableText) -> &[u8]
    ensures { result.now ≡ exposed_by text.now.name text.now.alias }
{
    match &text.alias {
        None => text.name.as_slice(),
        Some(alias) => alias.as_slice(),
    }
}

/// Puts a table behind those that were found.
fn put<'a>(
    found: &mut Tables<'a>,
    exposed: &'a [u8],
    columns: &'a [ColumnDef],
    number: u32,
) -> Result<(), AllocError>
    ensures { OnOk result (Puts exposed.now columns.now number found.old found.new) }
{
    found.sources.push(Source { exposed, columns })?;
    found.numbers.push(number)?;
    Ok(())
}

/// A table more. One that isn't there has no columns.
fn add<'a, D: Catalog>(
    d: &'a D,
    text: &'a TableText,
    found: &mut Tables<'a>,
) -> Result<(), AllocError>
    ensures { OnOk result (Adds (D.dictionary d.now) (text.now ∷ []) found.old found.new) }
{
    match d.table(text.name.as_slice()) {
        Some(table) => put(found, exposed(text), table.columns.as_slice(), table.number),
        None => {
            keep(&mut found.fault, SqlState::NoTable);
            put(found, exposed(text), &[], 0)
        }
    }
}

/// What is joined to a table.
fn add_joined<'a, D: Catalog>(
    d: &'a D,
    joins: &'a [JoinText],
    found: &mut Tables<'a>,
) -> Result<(), AllocError>
    ensures { OnOk result (Adds (D.dictionary d.now) (joined_tables joins.now) found.old found.new) }
{
    for join in joins {
        add(d, &join.table, found)?;
    }
    Ok(())
}

/// A table and what is joined to it.
fn add_item<'a, D: Catalog>(
    d: &'a D,
    item: &'a FromText,
    found: &mut Tables<'a>,
) -> Result<(), AllocError>
    ensures { OnOk result (Adds (D.dictionary d.now) (item.now.table ∷ joined_tables item.now.joins) found.old found.new) }
{
    add(d, &item.table, found)?;
    add_joined(d, item.joins.as_slice(), found)
}

/// The tables of FROM, behind those that were found.
fn add_all<'a, D: Catalog>(
    d: &'a D,
    from: &'a [FromText],
    found: &mut Tables<'a>,
) -> Result<(), AllocError>
    ensures { OnOk result (Adds (D.dictionary d.now) (tables_of from.now) found.old found.new) }
{
    for item in from {
        add_item(d, item, found)?;
    }
    Ok(())
}

/// The tables of FROM, from left to right, and the fault that is told of them and so far.
pub fn find_tables<'a, D: Catalog>(
    alloc: Global,
    d: &'a D,
    from: &'a [FromText],
    fault: Option<SqlState>,
) -> Result<Tables<'a>, AllocError>
    ensures { IfOk result (Begins (D.dictionary d.now) (tables_of from.now) fault) }
{
    let mut found = Tables {
        sources: Seq::new(alloc),
        numbers: Seq::new(alloc),
        fault,
    };
    add_all(d, from, &mut found)?;
    Ok(found)
}
