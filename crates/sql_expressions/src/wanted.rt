//! A token where an operand is wanted.

ghost use Rattle.std.specs.Prelude.{◌≡◌, [], ◌∷◌, IfOk, Some};
ghost use Rattle.sql_grammar.specs.Syntax as s;
ghost use Rattle.sql_grammar.specs.Machine as m;
ghost use Rattle.sql_grammar.specs.Tokens as t;
ghost use Rattle.sql_expressions.specs.Shape.{level_of, next_of, opener_of, outer_of, went_of};
ghost use Rattle.sql_expressions.specs.declared.level.Place.TheVariants.{First};

use crate::level::{Denial, Level, Mode, Opener, Place, fresh, has_product, has_sum, is_fresh};
use crate::part::Part;
use dby_types::copies::copy_text;
use sql_ast::expression::{Aggregate, Product, Sum};
use sql_grammar::symbol::Symbol;
use std::alloc::{AllocError, Global};

/// NOT in front of a predicate, where its operand is wanted. Whether it was taken.
#[tactic(auto, using(crate::proofs::Turning::length_more, crate::proofs::Turning::turned_more))]
fn negated_first(level: &mut Level) -> Result<bool, AllocError>
    requires { level.old.place ≡ First }
    ensures { IfOk result (λ went. (out : m.Outer) → went_of went level.new out ≡ m.negated (level_of level.old) out) }
{
    if has_sum(&level.sum) {
        return Ok(false);
    }
    if has_product(&level.term) {
        return Ok(false);
    }
    if let Some(_sign) = level.signs.pop() {
        return Ok(false);
    }
    level.nots.push(Denial)?;
    Ok(true)
}

fn negated(level: &mut Level) -> Result<bool, AllocError>
    ensures { IfOk result (λ went. (out : m.Outer) → went_of went level.new out ≡ m.negated (level_of level.old) out) }
{
    match &level.place {
        Place::First => negated_first(level),
        Place::Right(_, _) => Ok(false),
        Place::Low(_, _) => Ok(false),
        Place::High(_, _, _) => Ok(false),
        Place::Member(_, _, _) => Ok(false),
    }
}

fn wanted_not(level: &mut Level) -> Result<Option<Mode>, AllocError>
    ensures { IfOk result (λ next. (out : m.Outer) → next_of next level.new out ≡ m.negated (level_of level.old) out) }
{
    if negated(level)? {
        Ok(Some(Mode::Operand))
    } else {
        Ok(None)
    }
}

#[tactic(auto, using(crate::proofs::Turning::turned_more))]
fn wanted_sum(sign: Sum, level: &mut Level) -> Result<Option<Mode>, AllocError>
    ensures { IfOk result (λ next. (out : m.Outer) → next_of next level.new out ≡ Some (m.state m.Operand (m.signed_by sign (level_of level.old)) out)) }
{
    level.signs.push(sign)?;
    Ok(Some(Mode::Operand))
}

/// A number takes the sign directly before it.
#[tactic(auto, using(crate::proofs::Turning::turned_more))]
fn wanted_number(n: u64, level: &mut Level) -> Mode
    ensures { (out : m.Outer) → next_of (Some result) level.new out ≡ Some (m.number_step n (level_of level.old) out) }
{
    match level.signs.pop() {
        None => Mode::Whole(Part::number(Sum::Plus, n)),
        Some(sign) => Mode::Whole(Part::number(sign, n)),
    }
}

/// 2^63 stands behind a minus alone.
#[tactic(auto, using(crate::proofs::Turning::turned_more))]
fn wanted_huge(level: &mut Level) -> Option<Mode>
    ensures { (out : m.Outer) → next_of result level.new out ≡ m.huge_step (level_of level.old) out }
{
    match level.signs.pop() {
        None => None,
        Some(Sum::Plus) => None,
        Some(Sum::Minus) => Some(Mode::Whole(Part::number(Sum::Minus, 9223372036854775808))),
    }
}

/// `*` behind `COUNT (`.
#[tactic(auto, using(crate::proofs::Turning::outer_more))]
fn take_star(level: &mut Level, outer: &mut Vec<(Opener, Level)>) -> Option<Mode>
    requires { level_of level.old ≡ m.fresh }
    ensures { next_of result level.new (outer_of [] outer.new.items) ≡ m.star_step s.times (level_of level.old) (outer_of [] outer.old.items) }
{
    match outer.pop() {
        None => None,
        Some((Opener::Bracket, _outside)) => None,
        Some((Opener::Calling(Aggregate::Count), outside)) => {
            *level = outside;
            Some(Mode::AtStar)
        }
        Some((Opener::Calling(Aggregate::Sum), _outside)) => None,
        Some((Opener::Calling(Aggregate::Min), _outside)) => None,
        Some((Opener::Calling(Aggregate::Max), _outside)) => None,
    }
}

#[tactic(auto, using(crate::proofs::Turning::fresh_is, crate::proofs::Turning::star_plain))]
fn wanted_product(
    product: Product,
    level: &mut Level,
    outer: &mut Vec<(Opener, Level)>,
) -> Option<Mode>
    ensures { next_of result level.new (outer_of [] outer.new.items) ≡ m.star_step product (level_of level.old) (outer_of [] outer.old.items) }
{
    match product {
        Product::Over => None,
        Product::Times => {
            if is_fresh(level) {
                take_star(level, outer)
            } else {
                None
            }
        }
    }
}

/// `(` in an operand's place.
#[tactic(auto, using(crate::proofs::Turning::outer_more))]
pub fn enter(
    alloc: Global,
    opener: Opener,
    level: &mut Level,
    outer: &mut Vec<(Opener, Level)>,
) -> Result<Mode, AllocError>
    ensures { IfOk result (λ next. next_of (Some next) level.new (outer_of [] outer.new.items) ≡ Some (m.state m.Operand m.fresh ((opener_of opener, level_of level.old) ∷ outer_of [] outer.old.items))) }
{
    let mut outside = fresh(alloc);
    std::mem::swap(&mut outside, level);
    outer.push((opener, outside))?;
    Ok(Mode::Operand)
}

/// The token where an operand is wanted.
pub fn wanted(
    alloc: Global,
    symbol: Symbol,
    text: &[u8],
    level: &mut Level,
    outer: &mut Vec<(Opener, Level)>,
) -> Result<Option<Mode>, AllocError>
    ensures { IfOk result (λ next. next_of next level.new (outer_of [] outer.new.items) ≡ m.operand (t.token_from symbol text.now) (level_of level.old) (outer_of [] outer.old.items)) }
{
    match symbol {
        Symbol::Not => wanted_not(level),
        Symbol::Sum(sign) => wanted_sum(sign, level),
        Symbol::Number(n) => Ok(Some(wanted_number(n, level))),
        Symbol::Huge => Ok(wanted_huge(level)),
        Symbol::Text => Ok(Some(Mode::Whole(Part::text(copy_text(alloc, text)?)))),
        Symbol::Truth(truth) => Ok(Some(Mode::Whole(Part::truth(truth)))),
        Symbol::Name(_word) => Ok(Some(Mode::Named(copy_text(alloc, text)?))),
        Symbol::Open => Ok(Some(enter(alloc, Opener::Bracket, level, outer)?)),
        Symbol::Call(aggregate) => Ok(Some(Mode::AtCall(aggregate))),
        Symbol::Product(product) => Ok(wanted_product(product, level, outer)),
        _ => Ok(None),
    }
}
