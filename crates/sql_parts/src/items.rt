//! The parts of INSERT and UPDATE.

ghost use Rattle.sql_grammar.specs.Grammar as g;
ghost use Rattle.sql_tokens.specs.Reading.{Reads};
ghost use Rattle.sql_parts.specs.Items.{item_said, set_said, tuple_said};
ghost use Rattle.sql_parts.specs.Something.{item_something, set_something, tuple_something};

use crate::list::{Part, listed};
use sql_ast::statement::{Item, Items, SetText};
use sql_grammar::word::Class;
use sql_lexer::token::Token;
use sql_tokens::failing::Failing;
use sql_tokens::token::{is_next, name, token};
use sql_walk::walking::expression;
use std::alloc::Global;

/// A value of a tuple or of SET.
#[tactic(auto, using(sql_tokens::proofs::Orders::choices), unfolding(sql_grammar::specs::Grammar::item))]
fn item(alloc: Global, tokens: &[Token], at: &mut usize) -> Result<Item, Failing>
    ensures { Reads g.item item_said tokens.now at.old at.new result }
{
    if is_next(tokens, *at, Class::Null) {
        token(tokens, at, Class::Null)?;
        return Ok(Item::Null);
    }
    let value = expression(alloc, tokens, at)?;
    Ok(Item::Value(value))
}

impl Part for Item {
    ghost rule = { g.item };

    ghost says = { item_said };

    fn read(alloc: Global, tokens: &[Token], at: &mut usize) -> Result<Item, Failing> {
        item(alloc, tokens, at)
    }

    ghost is_something = { item_something };
}

/// The values of a row, in brackets.
#[tactic(auto, using(sql_tokens::proofs::Orders::sequences), unfolding(sql_grammar::specs::Grammar::tuple))]
fn tuple(alloc: Global, tokens: &[Token], at: &mut usize) -> Result<Items, Failing>
    ensures { Reads g.tuple tuple_said tokens.now at.old at.new result }
{
    token(tokens, at, Class::Open)?;
    let items = listed::<Item>(alloc, tokens, at)?;
    token(tokens, at, Class::Close)?;
    Ok(items)
}

impl Part for Items {
    ghost rule = { g.tuple };

    ghost says = { tuple_said };

    fn read(alloc: Global, tokens: &[Token], at: &mut usize) -> Result<Items, Failing> {
        tuple(alloc, tokens, at)
    }

    ghost is_something = { tuple_something };
}

/// A column and its new value.
#[tactic(auto, using(sql_tokens::proofs::Orders::sequences), unfolding(sql_grammar::specs::Grammar::set_part))]
fn set_part(alloc: Global, tokens: &[Token], at: &mut usize) -> Result<SetText, Failing>
    ensures { Reads g.set_part set_said tokens.now at.old at.new result }
{
    let column = name(alloc, tokens, at)?;
    token(tokens, at, Class::Equal)?;
    let item = item(alloc, tokens, at)?;
    Ok(SetText { column, item })
}

impl Part for SetText {
    ghost rule = { g.set_part };

    ghost says = { set_said };

    fn read(alloc: Global, tokens: &[Token], at: &mut usize) -> Result<SetText, Failing> {
        set_part(alloc, tokens, at)
    }

    ghost is_something = { set_something };
}
