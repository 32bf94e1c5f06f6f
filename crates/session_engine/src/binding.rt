//! What a statement is bound to do, over the dictionary.

ghost use Rattle.std.specs.Prelude.{◌≡◌, [], IfOk, MatchResult};
ghost use Rattle.session_engine.specs.Binding.{BindsCommand, BindsSelect, BindsInsert, BindsCreate, IsBound, bound_phase};

use crate::creating::has_names_twice;
use crate::dictionary::{Tables, find, names_of};
use crate::fit::{all_suiting, some_refused_null};
use crate::session::{Fill, Make, Phase, Plan, Scan, Where};
use dby_types::definition::{Columns, TableDef};
use dby_types::number::Level;
use dby_types::seq::Seq;
use dby_types::state::SqlState;
use dby_types::value::{Name, Rows};
use journal_model::journal::Refusal;
use session_model::order::Order;
use sql_commands::command::Command;
use sql_forms::form::Form;
use std::alloc::{AllocError, Global};

/// A refusal that no row shows.
pub(crate) fn refused(alloc: Global, state: SqlState) -> Plan
    ensures { result ≡ Plan.Refuse (Refusal.Sql state []) }
{
    Plan::Refuse(Refusal::Sql {
        state,
        rows: Seq::new(alloc),
    })
}

/// A command, but for a level that isn't built.
pub(crate) fn bind_command(alloc: Global, command: Command) -> Plan
    ensures { BindsCommand command result }
{
    match command {
        Command::SetIsolation(Level::Ur) | Command::SetIsolation(Level::Rs) => refused(
            alloc,
            SqlState::NotBuilt,
        ),
        other => Plan::Command(other),
    }
}

/// A query of all rows of a table.
pub(crate) fn bind_select(alloc: Global, tables: &Tables, name: &Name) -> Result<Plan, AllocError>
    ensures { IfOk result (BindsSelect tables.now.entries name.now) }
{
    let Some(table) = find(tables, name) else {
        return Ok(refused(alloc, SqlState::NoTable));
    };
    let names = names_of(alloc, table.columns.as_slice())?;
    Ok(Plan::Select(Scan {
        number: table.number,
        names,
        at: Where::Lost,
        after: None,
        tuples: Vec::new(alloc),
        rows: Vec::new(alloc),
    }))
}

/// An INSERT of rows into a table.
pub(crate) fn bind_insert(alloc: Global, tables: &Tables, name: &Name, tuples: Rows) -> Plan
    ensures { BindsInsert tables.now.entries name.now tuples result }
{
    let Some(table) = find(tables, name) else {
        return refused(alloc, SqlState::NoTable);
    };
    let columns = table.columns.as_slice();
    if !all_suiting(columns, tuples.as_slice()) {
        return refused(alloc, SqlState::NotBuilt);
    }
    if some_refused_null(columns, tuples.as_slice()) {
        return refused(alloc, SqlState::NullNotAllowed);
    }
    let mut rows = tuples.into_vec();
    let count = rows.len() as u64;
    rows.reverse();
    Plan::Insert(Fill {
        number: table.number,
        rows,
        count,
        has_room: false,
    })
}

/// The most columns of a table.
const MOST_COLUMNS: usize = 64;

/// A CREATE TABLE of these columns.
fn bind_create(alloc: Global, tables: &Tables, name: Name, columns: Columns) -> Plan
    ensures { BindsCreate tables.now.entries name columns result }
{
    if let Some(_) = find(tables, &name) {
        return refused(alloc, SqlState::NotBuilt);
    }
    if has_names_twice(columns.as_slice()) {
        return refused(alloc, SqlState::NotBuilt);
    }
    if columns.len() > MOST_COLUMNS {
        return refused(alloc, SqlState::NotBuilt);
    }
    Plan::Create(Make {
        def: TableDef {
            number: 0,
            name,
            columns,
        },
        made: false,
        done: 0,
        has_room: false,
    })
}

/// Want of memory is a refusal.
fn or_memory(bound: Result<Plan, AllocError>) -> Plan
    ensures { MatchResult bound (λ p. result ≡ p) (λ e. result ≡ Plan.Refuse Refusal.Memory) }
{
    match bound {
        Ok(plan) => plan,
        Err(AllocError) => Plan::Refuse(Refusal::Memory),
    }
}

/// What a statement is bound to do. Want of memory is a refusal.
pub(crate) fn bind(alloc: Global, tables: &Tables, order: Option<Order>) -> Plan
    ensures { IsBound tables.now.entries order result }
{
    match order {
        Some(Order::Command(command)) => bind_command(alloc, command),
        Some(Order::Form(Form::Select { table })) => or_memory(bind_select(alloc, tables, &table)),
        Some(Order::Form(Form::Insert { table, tuples })) => bind_insert(
            alloc, tables, &table, tuples,
        ),
        Some(Order::Form(Form::CreateTable { name, columns })) => bind_create(
            alloc, tables, name, columns,
        ),
        None => refused(alloc, SqlState::Syntax { at: 0 }),
    }
}

/// Where a connection is once its statement is bound.
pub(crate) fn bound_phase(plan: &Plan) -> Phase
    ensures { result ≡ bound_phase plan.now }
{
    match plan {
        Plan::Command(_) | Plan::Create(_) => Phase::Working,
        Plan::Select(_) | Plan::Insert(_) => Phase::Claiming,
        _ => Phase::Refusing,
    }
}
