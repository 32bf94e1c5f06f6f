//! The names of select items.

ghost use Rattle.std.specs.Prelude.{◌≡◌, IfOk};
ghost use Rattle.std.specs.Fmt.{decimal};
ghost use Rattle.std.specs.Option.{option_copied};
ghost use Rattle.sql_binding.specs.Items as meaning;

use dby_types::copies::copy_text;
use dby_types::value::Name;
use itoa::Buffer;
use sql_ast::expression::Expression;
use sql_ast::statement::OutText;
use std::alloc::{AllocError, Global};

/// The name of a column that stands alone, brackets around it apart.
fn own_name(e: &Expression) -> Option<&[u8]>
    ensures { option_copied result ≡ meaning.own_name e.now }
{
    match e {
        Expression::Column(name) => Some(name.as_slice()),
        Expression::ColumnOf(_, name) => Some(name.as_slice()),
        Expression::Brackets(a) => own_name(a),
        _ => None,
    }
}

/// A position from 1, in decimal.
fn position_name(alloc: Global, position: usize) -> Result<Name, AllocError>
    ensures { IfOk result (λ name. name ≡ decimal position) }
{
    let mut digits = Buffer::new();
    copy_text(alloc, digits.format(position).as_bytes())
}

/// The name of a select item: the one that it is given, else its column's, else its position.
pub fn out_name(alloc: Global, position: usize, item: &OutText) -> Result<Name, AllocError>
    ensures { IfOk result (λ name. name ≡ meaning.out_name position item.now) }
{
    match &item.name {
        Some(name) => copy_text(alloc, name.as_slice()),
        None => match own_name(&item.expression) {
            Some(name) => copy_text(alloc, name),
            None => position_name(alloc, position),
        },
    }
}
