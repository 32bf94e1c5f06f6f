//! A token behind an operand or behind a predicate.

ghost use Rattle.std.specs.Prelude.{◌≡◌, true, [], IfOk};
ghost use Rattle.sql_grammar.specs.Syntax as s;
ghost use Rattle.sql_grammar.specs.Machine as m;
ghost use Rattle.sql_expressions.specs.Shape.{closed_by, is_member, level_of, mode_of, next_of, opener_of, outer_of, pair_of, place_of, tree_at};
ghost use Rattle.sql_expressions.specs.View.{tree_of, trees_from};

use crate::level::{Level, Mode, Opener, Place, ended, factor, is_member, sum, take_and, term};
use crate::members::Members;
use crate::part::Part;
use sql_ast::expression::{Comparison, Product, Sum};
use std::alloc::{AllocError, Global};

/// The operand that was read last, if it is whole.
pub fn last(mode: Mode) -> Option<Part>
    ensures { tree_at result ≡ m.whole_of (mode_of mode) }
{
    match mode {
        Mode::Whole(e) => Some(e),
        Mode::Named(name) => Some(Part::column(name)),
        Mode::Operand => None,
        Mode::Tested(_e) => None,
        Mode::Dotted(_name) => None,
        Mode::AtIs(_e) => None,
        Mode::AtIsNot(_e) => None,
        Mode::AtNot(_e) => None,
        Mode::AtIn(_negated, _e) => None,
        Mode::AtCall(_aggregate) => None,
        Mode::AtStar => None,
    }
}

fn last_term(alloc: Global, mode: Mode, level: &mut Level) -> Result<Option<Part>, AllocError>
    ensures { IfOk result (λ x. pair_of x level.new ≡ m.term_at (mode_of mode) (level_of level.old)) }
{
    match last(mode) {
        None => Ok(None),
        Some(e) => {
            let whole = factor(alloc, e, level)?;
            Ok(Some(term(alloc, whole, level)?))
        }
    }
}

fn last_sum(alloc: Global, mode: Mode, level: &mut Level) -> Result<Option<Part>, AllocError>
    ensures { IfOk result (λ x. pair_of x level.new ≡ m.sum_at (mode_of mode) (level_of level.old)) }
{
    match last_term(alloc, mode, level)? {
        None => Ok(None),
        Some(e) => Ok(Some(sum(alloc, e, level)?)),
    }
}

/// The sum that was read last, if it is the first of its predicate.
fn last_first(alloc: Global, mode: Mode, level: &mut Level) -> Result<Option<Part>, AllocError>
    ensures { IfOk result (λ x. pair_of x level.new ≡ m.first_at (mode_of mode) (level_of level.old)) }
{
    match last_sum(alloc, mode, level)? {
        None => Ok(None),
        Some(e) => match &level.place {
            Place::First => Ok(Some(e)),
            Place::Right(_, _) => Ok(None),
            Place::Low(_, _) => Ok(None),
            Place::High(_, _, _) => Ok(None),
            Place::Member(_, _, _) => Ok(None),
        },
    }
}

/// The sum or the predicate that was read last.
pub fn last_operand(
    alloc: Global,
    mode: Mode,
    level: &mut Level,
) -> Result<Option<Part>, AllocError>
    ensures { IfOk result (λ x. pair_of x level.new ≡ m.operand_at (mode_of mode) (level_of level.old)) }
{
    match mode {
        Mode::Tested(e) => Ok(Some(e)),
        Mode::Whole(e) => last_sum(alloc, Mode::Whole(e), level),
        Mode::Named(name) => last_sum(alloc, Mode::Named(name), level),
        Mode::Operand => Ok(None),
        Mode::Dotted(_name) => Ok(None),
        Mode::AtIs(_e) => Ok(None),
        Mode::AtIsNot(_e) => Ok(None),
        Mode::AtNot(_e) => Ok(None),
        Mode::AtIn(_negated, _e) => Ok(None),
        Mode::AtCall(_aggregate) => Ok(None),
        Mode::AtStar => Ok(None),
    }
}

pub fn behind_product(
    alloc: Global,
    product: Product,
    mode: Mode,
    level: &mut Level,
) -> Result<Option<Mode>, AllocError>
    ensures { IfOk result (λ next. (out : m.Outer) → next_of next level.new out ≡ m.behind (s.product product) (mode_of mode) (level_of level.old) out) }
{
    match last_term(alloc, mode, level)? {
        None => Ok(None),
        Some(e) => {
            level.term = Some((e, product));
            Ok(Some(Mode::Operand))
        }
    }
}

pub fn behind_sum(
    alloc: Global,
    sign: Sum,
    mode: Mode,
    level: &mut Level,
) -> Result<Option<Mode>, AllocError>
    ensures { IfOk result (λ next. (out : m.Outer) → next_of next level.new out ≡ m.behind (s.sum sign) (mode_of mode) (level_of level.old) out) }
{
    match last_sum(alloc, mode, level)? {
        None => Ok(None),
        Some(e) => {
            level.sum = Some((e, sign));
            Ok(Some(Mode::Operand))
        }
    }
}

pub fn behind_compare(
    alloc: Global,
    comparison: Comparison,
    mode: Mode,
    level: &mut Level,
) -> Result<Option<Mode>, AllocError>
    ensures { IfOk result (λ next. (out : m.Outer) → next_of next level.new out ≡ m.behind (s.compare comparison) (mode_of mode) (level_of level.old) out) }
{
    match last_first(alloc, mode, level)? {
        None => Ok(None),
        Some(e) => {
            level.place = Place::Right(comparison, e);
            Ok(Some(Mode::Operand))
        }
    }
}

pub fn behind_is(alloc: Global, mode: Mode, level: &mut Level) -> Result<Option<Mode>, AllocError>
    ensures { IfOk result (λ next. (out : m.Outer) → next_of next level.new out ≡ m.behind s.is (mode_of mode) (level_of level.old) out) }
{
    match last_first(alloc, mode, level)? {
        None => Ok(None),
        Some(e) => Ok(Some(Mode::AtIs(e))),
    }
}

pub fn behind_not(alloc: Global, mode: Mode, level: &mut Level) -> Result<Option<Mode>, AllocError>
    ensures { IfOk result (λ next. (out : m.Outer) → next_of next level.new out ≡ m.behind s.not (mode_of mode) (level_of level.old) out) }
{
    match last_first(alloc, mode, level)? {
        None => Ok(None),
        Some(e) => Ok(Some(Mode::AtNot(e))),
    }
}

pub fn behind_between(
    alloc: Global,
    mode: Mode,
    level: &mut Level,
) -> Result<Option<Mode>, AllocError>
    ensures { IfOk result (λ next. (out : m.Outer) → next_of next level.new out ≡ m.behind s.between (mode_of mode) (level_of level.old) out) }
{
    match last_first(alloc, mode, level)? {
        None => Ok(None),
        Some(e) => {
            level.place = Place::Low(false, e);
            Ok(Some(Mode::Operand))
        }
    }
}

pub fn behind_in(alloc: Global, mode: Mode, level: &mut Level) -> Result<Option<Mode>, AllocError>
    ensures { IfOk result (λ next. (out : m.Outer) → next_of next level.new out ≡ m.behind s.in_ (mode_of mode) (level_of level.old) out) }
{
    match last_first(alloc, mode, level)? {
        None => Ok(None),
        Some(e) => Ok(Some(Mode::AtIn(false, e))),
    }
}

pub fn behind_and(alloc: Global, mode: Mode, level: &mut Level) -> Result<Option<Mode>, AllocError>
    ensures { IfOk result (λ next. (out : m.Outer) → next_of next level.new out ≡ m.behind s.and (mode_of mode) (level_of level.old) out) }
{
    let Some(operand) = last_operand(alloc, mode, level)? else {
        return Ok(None);
    };
    if take_and(alloc, operand, level)? {
        Ok(Some(Mode::Operand))
    } else {
        Ok(None)
    }
}

/// The expression that was read, if it may end here.
pub fn last_expression(
    alloc: Global,
    mode: Mode,
    level: &mut Level,
) -> Result<Option<Part>, AllocError>
    ensures { IfOk result (λ x. pair_of x level.new ≡ m.expr_at (mode_of mode) (level_of level.old)) }
{
    match last_operand(alloc, mode, level)? {
        None => Ok(None),
        Some(operand) => ended(alloc, operand, level),
    }
}

pub fn behind_or(alloc: Global, mode: Mode, level: &mut Level) -> Result<Option<Mode>, AllocError>
    ensures { IfOk result (λ next. (out : m.Outer) → next_of next level.new out ≡ m.behind s.or (mode_of mode) (level_of level.old) out) }
{
    match last_expression(alloc, mode, level)? {
        None => Ok(None),
        Some(left) => {
            level.or = Some(left);
            Ok(Some(Mode::Operand))
        }
    }
}

#[tactic(auto, using(crate::proofs::MemberLists::trees_snoc))]
pub fn behind_comma(
    alloc: Global,
    mode: Mode,
    level: &mut Level,
) -> Result<Option<Mode>, AllocError>
    ensures { IfOk result (λ next. (out : m.Outer) → next_of next level.new out ≡ m.behind s.comma (mode_of mode) (level_of level.old) out) }
{
    let Some(e) = last_sum(alloc, mode, level)? else {
        return Ok(None);
    };
    let mut place = Place::First;
    std::mem::swap(&mut place, &mut level.place);
    match place {
        Place::Member(negated, a, members) => {
            level.place = Place::Member(negated, a, members.with(e)?);
            Ok(Some(Mode::Operand))
        }
        Place::First => Ok(None),
        Place::Right(_comparison, _a) => Ok(None),
        Place::Low(_negated, _a) => Ok(None),
        Place::High(_negated, _a, _low) => Ok(None),
    }
}

fn opened(alloc: Global, opener: Opener, e: Part) -> Result<Part, AllocError>
    ensures { IfOk result (λ x. tree_of x ≡ m.opened_of (opener_of opener) (tree_of e)) }
{
    match opener {
        Opener::Bracket => Part::brackets(alloc, e),
        Opener::Calling(aggregate) => Part::call(alloc, aggregate, e),
    }
}

/// `)` behind an expression: the level outside is taken up again.
#[tactic(auto, using(crate::proofs::Turning::outer_more))]
fn close_out(
    alloc: Global,
    e: Part,
    level: &mut Level,
    outer: &mut Vec<(Opener, Level)>,
) -> Result<Option<Mode>, AllocError>
    ensures { IfOk result (λ next. next_of next level.new (outer_of [] outer.new.items) ≡ m.close_out (outer_of [] outer.old.items) (tree_of e)) }
{
    match outer.pop() {
        None => Ok(None),
        Some((opener, outside)) => {
            *level = outside;
            Ok(Some(Mode::Whole(opened(alloc, opener, e)?)))
        }
    }
}

/// `)` behind an operand that ends an expression.
fn close_expression(
    alloc: Global,
    operand: Part,
    level: &mut Level,
    outer: &mut Vec<(Opener, Level)>,
) -> Result<Option<Mode>, AllocError>
    ensures { IfOk result (λ next. next_of next level.new (outer_of [] outer.new.items) ≡ closed_by (outer_of [] outer.old.items) (tree_of operand, level_of level.old)) }
{
    match ended(alloc, operand, level)? {
        None => Ok(None),
        Some(e) => close_out(alloc, e, level, outer),
    }
}

/// `)` behind the last member of a list.
#[tactic(auto, using(crate::proofs::MemberLists::trees_snoc))]
fn listed(
    alloc: Global,
    negated: bool,
    a: Part,
    members: Members,
    last: Part,
) -> Result<Part, AllocError>
    ensures { IfOk result (λ x. tree_of x ≡ s.In negated (tree_of a) (s.with (trees_from s.none members) (tree_of last))) }
{
    Part::is_in(alloc, negated, a, members.with(last)?)
}

/// `)` behind the last member of a list, which is a whole predicate then.
fn close_members(
    alloc: Global,
    operand: Part,
    level: &mut Level,
) -> Result<Option<Mode>, AllocError>
    requires { is_member (place_of level.old.place) ≡ true }
    ensures { IfOk result (λ next. (out : m.Outer) → next_of next level.new out ≡ m.close_in out (tree_of operand, level_of level.old)) }
{
    let mut place = Place::First;
    std::mem::swap(&mut place, &mut level.place);
    match place {
        Place::Member(negated, a, members) => {
            let whole = listed(alloc, negated, a, members, operand)?;
            Ok(Some(Mode::Tested(whole)))
        }
        Place::First => Ok(None),
        Place::Right(_comparison, _a) => Ok(None),
        Place::Low(_negated, _a) => Ok(None),
        Place::High(_negated, _a, _low) => Ok(None),
    }
}

#[tactic(auto, using(crate::proofs::Closing::close_plain))]
pub fn behind_close(
    alloc: Global,
    mode: Mode,
    level: &mut Level,
    outer: &mut Vec<(Opener, Level)>,
) -> Result<Option<Mode>, AllocError>
    ensures { IfOk result (λ next. next_of next level.new (outer_of [] outer.new.items) ≡ m.behind s.close (mode_of mode) (level_of level.old) (outer_of [] outer.old.items)) }
{
    let Some(operand) = last_operand(alloc, mode, level)? else {
        return Ok(None);
    };
    if is_member(&level.place) {
        close_members(alloc, operand, level)
    } else {
        close_expression(alloc, operand, level, outer)
    }
}
