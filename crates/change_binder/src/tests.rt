//! Changes bound to T, which has A INTEGER and B VARCHAR(5), worked by hand.

use crate::insert::{targets, tuple};
use crate::update::sets;
use dby_types::copies::copy_text;
use dby_types::definition::ColumnDef;
use dby_types::seq::Seq;
use dby_types::state::SqlState;
use dby_types::value::{Ty, Value};
use expr_binder::names::Source;
use sql_ast::bound::Node;
use sql_ast::expression::{Expression, Sum};
use sql_ast::statement::{Item, SetText};
use std::alloc::{AllocError, Global};
use std::test::Fail;

fn defined(alloc: Global, name: &[u8], ty: Ty) -> Result<ColumnDef, AllocError> {
    Ok(ColumnDef {
        name: copy_text(alloc, name)?,
        ty,
        not_null: false,
    })
}

fn number(n: u64) -> Item {
    Item::Value(Expression::Number(Sum::Plus, n))
}

/// `(B) VALUES ('x')` is NULL in A; a second value is one too many.
#[test]
fn puts_tuples_in_the_tables_order(rt: HostRuntime) -> Result<(), Fail> {
    let alloc = rt.alloc();
    let columns = [
        defined(alloc, "A".as_bytes(), Ty::Int)?,
        defined(alloc, "B".as_bytes(), Ty::Text(5))?,
    ];
    let mut names = Seq::new(alloc);
    names.push(copy_text(alloc, "B".as_bytes())?)?;
    let mut fault = None;
    let spots = targets(alloc, columns.as_slice(), &Some(names), &mut fault)?;
    let x = Item::Value(Expression::Text(copy_text(alloc, "x".as_bytes())?));
    let one = [x];
    let row = tuple(
        alloc,
        columns.as_slice(),
        spots.as_slice(),
        one.as_slice(),
        &mut fault,
    )?;
    assert_eq!(rt; fault, None);
    assert_eq!(rt; row.len(), 2);
    match row.as_slice().get(0) {
        Some(a) => match &a.node {
            Node::Literal(value) => assert_eq!(rt; *value, Value::Null),
            _ => assert!(rt; false),
        },
        None => assert!(rt; false),
    }
    let two = [Item::Null, number(1)];
    tuple(
        alloc,
        columns.as_slice(),
        spots.as_slice(),
        two.as_slice(),
        &mut fault,
    )?;
    assert_eq!(rt; fault, Some(SqlState::ValueCount));
    Ok(())
}

/// A number can't be stored in B; that C is no column is told before it.
#[test]
fn tells_what_set_may_not_do(rt: HostRuntime) -> Result<(), Fail> {
    let alloc = rt.alloc();
    let columns = [
        defined(alloc, "A".as_bytes(), Ty::Int)?,
        defined(alloc, "B".as_bytes(), Ty::Text(5))?,
    ];
    let sources = [Source {
        exposed: "T".as_bytes(),
        columns: columns.as_slice(),
    }];
    let to_b = [SetText {
        column: copy_text(alloc, "B".as_bytes())?,
        item: number(1),
    }];
    let mut fault = None;
    let bound = sets(
        alloc,
        columns.as_slice(),
        sources.as_slice(),
        to_b.as_slice(),
        &mut fault,
    )?;
    assert_eq!(rt; bound.len(), 1);
    assert_eq!(rt; fault, Some(SqlState::NotStorable));
    let to_c = [SetText {
        column: copy_text(alloc, "C".as_bytes())?,
        item: Item::Null,
    }];
    sets(
        alloc,
        columns.as_slice(),
        sources.as_slice(),
        to_c.as_slice(),
        &mut fault,
    )?;
    assert_eq!(rt; fault, Some(SqlState::NotInTarget));
    Ok(())
}
