//! Expressions bound over two tables, worked by hand: T has A INTEGER and B VARCHAR(5), U has B BOOLEAN.

ghost use Rattle.std.specs.Prelude.{◌≡◌, length, IfOk};

use crate::condition::condition;
use crate::expression::expression;
use crate::names::{Source, Spot, column, column_of};
use crate::walk::begin;
use dby_types::copies::copy_text;
use dby_types::definition::ColumnDef;
use dby_types::seq::Seq;
use dby_types::state::SqlState;
use dby_types::value::Ty;
use sql_ast::bound::Node;
use sql_ast::expression::{Comparison, Expression, Sum};
use std::alloc::{AllocError, Global};
use std::test::Fail;

fn defined(alloc: Global, name: &[u8], ty: Ty) -> Result<ColumnDef, AllocError> {
    Ok(ColumnDef {
        name: copy_text(alloc, name)?,
        ty,
        not_null: false,
    })
}

fn named(alloc: Global, name: &[u8]) -> Result<Expression, AllocError> {
    Ok(Expression::Column(copy_text(alloc, name)?))
}

/// `a op 1`.
fn compared(alloc: Global, op: Comparison, a: Expression) -> Result<Expression, AllocError> {
    let one = Box::new(alloc, Expression::Number(Sum::Plus, 1))?;
    Ok(Expression::Compare(op, Box::new(alloc, a)?, one))
}

#[test]
fn finds_what_names_stand_for(rt: HostRuntime) -> Result<(), Fail> {
    let alloc = rt.alloc();
    let t = [
        defined(alloc, "A".as_bytes(), Ty::Int)?,
        defined(alloc, "B".as_bytes(), Ty::Text(5))?,
    ];
    let u = [defined(alloc, "B".as_bytes(), Ty::Bool)?];
    let sources = [
        Source {
            exposed: "T".as_bytes(),
            columns: t.as_slice(),
        },
        Source {
            exposed: "U".as_bytes(),
            columns: u.as_slice(),
        },
    ];
    let first = Spot {
        place: 0,
        ty: Ty::Int,
    };
    assert_eq!(rt; column(sources.as_slice(), "A".as_bytes()), Ok(first));
    assert_eq!(rt;
        column(sources.as_slice(), "B".as_bytes()),
        Err(SqlState::AmbiguousColumn)
    );
    assert_eq!(rt;
        column(sources.as_slice(), "C".as_bytes()),
        Err(SqlState::NoColumn)
    );
    let third = Spot {
        place: 2,
        ty: Ty::Bool,
    };
    assert_eq!(rt;
        column_of(sources.as_slice(), "U".as_bytes(), "B".as_bytes()),
        Ok(third)
    );
    assert_eq!(rt;
        column_of(sources.as_slice(), "U".as_bytes(), "A".as_bytes()),
        Err(SqlState::NoColumn)
    );
    Ok(())
}

#[test]
fn gives_each_node_its_type(rt: HostRuntime) -> Result<(), Fail> {
    let alloc = rt.alloc();
    let t = [defined(alloc, "A".as_bytes(), Ty::Int)?];
    let sources = [Source {
        exposed: "T".as_bytes(),
        columns: t.as_slice(),
    }];
    let mut walk = begin(alloc, 0);
    let e = compared(alloc, Comparison::Less, named(alloc, "A".as_bytes())?)?;
    let x = expression(alloc, &e, sources.as_slice(), &None, &mut walk)?;
    assert_eq!(rt; x.ty, Ty::Bool);
    assert_eq!(rt; walk.fault, None);
    let grouped = Some(Seq::new(alloc));
    let y = expression(
        alloc,
        &Expression::CountAll,
        sources.as_slice(),
        &grouped,
        &mut walk,
    )?;
    assert_eq!(rt; y.ty, Ty::Big);
    assert_eq!(rt; walk.next, 1);
    assert_eq!(rt; walk.totals.len(), 1);
    match y.node {
        Node::Column(place) => assert_eq!(rt; place, 0),
        _ => assert!(rt; false),
    }
    Ok(())
}

#[test]
fn tells_the_first_of_the_earliest_class(rt: HostRuntime) -> Result<(), Fail> {
    let alloc = rt.alloc();
    let t = [defined(alloc, "B".as_bytes(), Ty::Text(5))?];
    let sources = [Source {
        exposed: "T".as_bytes(),
        columns: t.as_slice(),
    }];
    let mut walk = begin(alloc, 0);
    let text = compared(alloc, Comparison::Equal, named(alloc, "B".as_bytes())?)?;
    expression(alloc, &text, sources.as_slice(), &None, &mut walk)?;
    assert_eq!(rt; walk.fault, Some(SqlState::NotComparable));
    expression(
        alloc,
        &Expression::CountAll,
        sources.as_slice(),
        &None,
        &mut walk,
    )?;
    assert_eq!(rt; walk.fault, Some(SqlState::NotComparable));
    let missing = named(alloc, "C".as_bytes())?;
    expression(alloc, &missing, sources.as_slice(), &None, &mut walk)?;
    assert_eq!(rt; walk.fault, Some(SqlState::NoColumn));
    Ok(())
}

#[test]
fn splits_conditions_at_their_ands(rt: HostRuntime) -> Result<(), Fail> {
    let alloc = rt.alloc();
    let t = [defined(alloc, "A".as_bytes(), Ty::Int)?];
    let sources = [Source {
        exposed: "T".as_bytes(),
        columns: t.as_slice(),
    }];
    let inner = Expression::And(
        Box::new(alloc, Expression::Truth(true))?,
        Box::new(alloc, Expression::Truth(false))?,
    );
    let brackets = Expression::Brackets(Box::new(alloc, inner)?);
    let left = compared(alloc, Comparison::Greater, named(alloc, "A".as_bytes())?)?;
    let whole = Expression::And(Box::new(alloc, left)?, Box::new(alloc, brackets)?);
    let mut walk = begin(alloc, 0);
    let mut conjuncts = Seq::new(alloc);
    condition(alloc, &whole, sources.as_slice(), &mut walk, &mut conjuncts)?;
    assert_eq!(rt; conjuncts.len(), 3);
    assert_eq!(rt; walk.fault, None);
    let number = Expression::Number(Sum::Minus, 1);
    condition(
        alloc,
        &number,
        sources.as_slice(),
        &mut walk,
        &mut conjuncts,
    )?;
    assert_eq!(rt; walk.fault, Some(SqlState::WrongOperand));
    Ok(())
}
