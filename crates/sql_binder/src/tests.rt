//! Statements bound to T, which has A INTEGER NOT NULL and B VARCHAR(5), worked by hand.

ghost use Rattle.std.specs.Prelude.{◌∷◌, []};

use crate::answer::BindAnswer;
use crate::bind::bind;
use dby_types::copies::copy_text;
use dby_types::definition::{ColumnDef, IndexDef, TableDef};
use dby_types::seq::Seq;
use dby_types::state::SqlState;
use dby_types::value::{Name, Ty};
use expr_binder::names::is_name;
use name_binder::catalog::Catalog;
use sql_ast::bound::{BoundSelect, BoundStatement, Node};
use sql_ast::expression::Expression;
use sql_ast::statement::{
    ColumnText, Dropped, FromText, GroupText, Item, OrderBy, OrderText, OutText, SelectText,
    SetText, Shown, Statement, TablePart, TableText,
};
use std::alloc::{AllocError, Global};
use std::test::Fail;

#[derive(Debug, Drop)]
struct OneTable {
    table: TableDef,
}

impl Catalog for OneTable {
    ghost dictionary = { λ t. record { tables = t.table ∷ []; indexes = [] } };

    fn table(&self, name: &[u8]) -> Option<&TableDef> {
        if is_name(name, self.table.name.as_slice()) {
            Some(&self.table)
        } else {
            None
        }
    }

    fn index(&self, _name: &[u8]) -> Option<&IndexDef> {
        None
    }
}

fn named(alloc: Global, name: &str) -> Result<Name, AllocError> {
    copy_text(alloc, name.as_bytes())
}

fn one_table(alloc: Global) -> Result<OneTable, AllocError> {
    let mut columns = Seq::new(alloc);
    columns.push(ColumnDef {
        name: named(alloc, "A")?,
        ty: Ty::Int,
        not_null: true,
    })?;
    columns.push(ColumnDef {
        name: named(alloc, "B")?,
        ty: Ty::Text(5),
        not_null: false,
    })?;
    Ok(OneTable {
        table: TableDef {
            number: 7,
            name: named(alloc, "T")?,
            columns,
        },
    })
}

fn column(alloc: Global, name: &str) -> Result<Expression, AllocError> {
    Ok(Expression::Column(named(alloc, name)?))
}

fn text(alloc: Global, t: &str) -> Result<Item, AllocError> {
    Ok(Item::Value(Expression::Text(named(alloc, t)?)))
}

fn item(expression: Expression) -> OutText {
    OutText {
        expression,
        name: None,
    }
}

fn query_of(alloc: Global, shown: Shown, table: &str) -> Result<SelectText, AllocError> {
    let mut from = Seq::new(alloc);
    from.push(FromText {
        table: TableText {
            name: named(alloc, table)?,
            alias: None,
        },
        joins: Seq::new(alloc),
    })?;
    Ok(SelectText {
        distinct: false,
        shown,
        from,
        condition: None,
        group: Seq::new(alloc),
        order: Seq::new(alloc),
    })
}

fn all_of(alloc: Global, table: &str) -> Result<Statement, AllocError> {
    Ok(Statement::Select(Box::new(alloc, query_of(alloc, Shown::All, table)?)?))
}

fn one_of(alloc: Global, expression: Expression) -> Result<Statement, AllocError> {
    let mut items = Seq::new(alloc);
    items.push(item(expression))?;
    Ok(Statement::Select(Box::new(alloc, query_of(alloc, Shown::These(items), "T")?)?))
}

/// `SELECT A, COUNT(*) FROM T GROUP BY A ORDER BY 2`.
fn counted(alloc: Global) -> Result<Statement, AllocError> {
    let mut items = Seq::new(alloc);
    items.push(item(column(alloc, "A")?))?;
    items.push(item(Expression::CountAll))?;
    let mut q = query_of(alloc, Shown::These(items), "T")?;
    q.group.push(GroupText {
        table: None,
        column: named(alloc, "A")?,
    })?;
    q.order.push(OrderText {
        by: OrderBy::Position(2),
        descends: false,
    })?;
    Ok(Statement::Select(Box::new(alloc, q)?))
}

/// `INSERT INTO T (..) VALUES (..)`, a text for each column.
fn inserted(alloc: Global, columns: &[&str]) -> Result<Statement, AllocError> {
    let mut names = Seq::new(alloc);
    let mut tuple = Seq::new(alloc);
    for name in columns {
        names.push(named(alloc, name)?)?;
        tuple.push(text(alloc, "x")?)?;
    }
    let mut tuples = Seq::new(alloc);
    tuples.push(tuple)?;
    Ok(Statement::Insert {
        table: named(alloc, "T")?,
        columns: Some(names),
        tuples,
    })
}

/// `UPDATE T SET name = 'x'`.
fn updated(alloc: Global, name: &str) -> Result<Statement, AllocError> {
    let mut sets = Seq::new(alloc);
    sets.push(SetText {
        column: named(alloc, name)?,
        item: text(alloc, "x")?,
    })?;
    Ok(Statement::Update {
        table: named(alloc, "T")?,
        sets,
        condition: None,
    })
}

/// `DELETE FROM T WHERE name`.
fn deleted(alloc: Global, name: &str) -> Result<Statement, AllocError> {
    Ok(Statement::Delete {
        table: named(alloc, "T")?,
        condition: Some(Box::new(alloc, column(alloc, name)?)?),
    })
}

/// `CREATE TABLE name (A INTEGER)`.
fn created(alloc: Global, name: &str) -> Result<Statement, AllocError> {
    let mut parts = Seq::new(alloc);
    parts.push(TablePart::Column(ColumnText {
        name: named(alloc, "A")?,
        ty: Ty::Int,
        marks: Seq::new(alloc),
    }))?;
    Ok(Statement::CreateTable {
        name: named(alloc, name)?,
        parts,
    })
}

fn dropped(alloc: Global) -> Result<Statement, AllocError> {
    Ok(Statement::Drop {
        what: Dropped::Table,
        name: named(alloc, "T")?,
    })
}

/// The refusal, if there is one.
fn refusal(alloc: Global, s: Statement, d: &OneTable) -> Result<Option<SqlState>, AllocError> {
    match bind(alloc, &s, d) {
        Ok(_bound) => Ok(None),
        Err(BindAnswer::Sql(why)) => Ok(Some(why)),
        Err(BindAnswer::Memory) => Err(AllocError),
    }
}

#[test]
fn tells_what_is_wrong(rt: HostRuntime) -> Result<(), Fail> {
    let alloc = rt.alloc();
    let d = one_table(alloc)?;
    assert_eq!(rt; refusal(alloc, all_of(alloc, "T")?, &d)?, None);
    assert_eq!(rt;
        refusal(alloc, all_of(alloc, "U")?, &d)?,
        Some(SqlState::NoTable)
    );
    assert_eq!(rt;
        refusal(alloc, one_of(alloc, column(alloc, "C")?)?, &d)?,
        Some(SqlState::NoColumn)
    );
    assert_eq!(rt; refusal(alloc, inserted(alloc, &["B"])?, &d)?, None);
    Ok(())
}

#[test]
fn tells_what_is_wrong_with_changes(rt: HostRuntime) -> Result<(), Fail> {
    let alloc = rt.alloc();
    let d = one_table(alloc)?;
    assert_eq!(rt;
        refusal(alloc, inserted(alloc, &["B", "B"])?, &d)?,
        Some(SqlState::NameTwice)
    );
    assert_eq!(rt;
        refusal(alloc, inserted(alloc, &["A"])?, &d)?,
        Some(SqlState::NotStorable)
    );
    assert_eq!(rt; refusal(alloc, updated(alloc, "B")?, &d)?, None);
    assert_eq!(rt;
        refusal(alloc, updated(alloc, "C")?, &d)?,
        Some(SqlState::NotInTarget)
    );
    assert_eq!(rt;
        refusal(alloc, deleted(alloc, "A")?, &d)?,
        Some(SqlState::WrongOperand)
    );
    Ok(())
}

#[test]
fn tells_what_is_wrong_with_definitions(rt: HostRuntime) -> Result<(), Fail> {
    let alloc = rt.alloc();
    let d = one_table(alloc)?;
    assert_eq!(rt; refusal(alloc, created(alloc, "U")?, &d)?, None);
    assert_eq!(rt;
        refusal(alloc, created(alloc, "T")?, &d)?,
        Some(SqlState::NameExists)
    );
    assert_eq!(rt;
        refusal(alloc, dropped(alloc)?, &d)?,
        Some(SqlState::NotBuilt)
    );
    assert_eq!(rt; refusal(alloc, Statement::Commit, &d)?, None);
    Ok(())
}

/// The query is of table 7; its groups have the key at place 0; its second column is the first behind the key, and orders the answer.
fn is_counted(q: &BoundSelect) -> bool {
    let Some(key) = q.order.as_slice().get(0) else {
        return false;
    };
    let Some(out) = q.outs.as_slice().get(1) else {
        return false;
    };
    let Some(grouping) = &q.grouping else {
        return false;
    };
    let is_first = match &out.expression.node {
        Node::Column(place) => *place == 1,
        _ => false,
    };
    is_first
        && key.place == 1
        && !grouping.whole
        && grouping.keys.as_slice() == [0].as_slice()
        && q.tables.as_slice() == [7].as_slice()
        && out.name.as_slice() == "2".as_bytes()
}

#[test]
fn binds_a_query_of_groups(rt: HostRuntime) -> Result<(), Fail> {
    let alloc = rt.alloc();
    let d = one_table(alloc)?;
    match bind(alloc, &counted(alloc)?, &d) {
        Ok(BoundStatement::Select(q)) => assert!(rt; is_counted(&q)),
        Ok(_other) => assert!(rt; false),
        Err(_why) => assert!(rt; false),
    }
    Ok(())
}
