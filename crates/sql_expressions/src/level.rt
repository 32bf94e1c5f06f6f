//! What stands to the left of the next token, within one pair of brackets.

ghost use Rattle.std.specs.Prelude.{◌≡◌, ◌==◌, ◌&&◌, not, true, is_some, [], length, IfOk, Some};
ghost use Rattle.sql_grammar.specs.Machine as m;
ghost use Rattle.sql_expressions.specs.Shape.{conjoined, ended_by, is_at_first, is_fresh, is_low, is_member, left_product, left_sum, level_of, pair_of, place_of, tree_at, turned, went_of};
ghost use Rattle.sql_expressions.specs.View.{tree_of};

use crate::members::Members;
use crate::part::Part;
use dby_types::value::Name;
use sql_ast::expression::{Aggregate, Comparison, Product, Sum};
use std::alloc::{AllocError, Global};

/// Where in its predicate a sum stands: in front of all, behind a comparison, behind BETWEEN, behind its AND, in the list of
/// IN.
#[derive(Drop)]
pub enum Place {
    First,
    Right(Comparison, Part),
    Low(bool, Part),
    High(bool, Part, Part),
    Member(bool, Part, Members),
}

/// A NOT that waits for its predicate.
#[derive(Clone, Copy)]
pub struct Denial;

/// What waits for its right side: behind OR, behind AND, the NOTs, the predicate, behind `+` or `-`, behind `*` or `/`, and the
/// signs in their order.
#[derive(Drop)]
pub struct Level {
    pub or: Option<Part>,
    pub and: Option<Part>,
    pub nots: Vec<Denial>,
    pub place: Place,
    pub sum: Option<(Part, Sum)>,
    pub term: Option<(Part, Product)>,
    pub signs: Vec<Sum>,
}

/// What was read last.
#[derive(Drop)]
pub enum Mode {
    /// Nothing: an operand is wanted.
    Operand,
    /// A whole operand.
    Whole(Part),
    /// A whole predicate.
    Tested(Part),
    Named(Name),
    /// A name and a dot.
    Dotted(Name),
    AtIs(Part),
    AtIsNot(Part),
    AtNot(Part),
    AtIn(bool, Part),
    AtCall(Aggregate),
    /// `COUNT(*`.
    AtStar,
}

/// What a pair of brackets belongs to.
#[derive(Clone, Copy)]
pub enum Opener {
    Bracket,
    Calling(Aggregate),
}

/// Nothing stands to the left.
pub fn fresh(alloc: Global) -> Level
    ensures { level_of result ≡ m.fresh }
{
    Level {
        or: None,
        and: None,
        nots: Vec::new(alloc),
        place: Place::First,
        sum: None,
        term: None,
        signs: Vec::new(alloc),
    }
}

fn is_first(place: &Place) -> bool
    ensures { result ≡ is_at_first (place_of place.now) }
{
    match place {
        Place::First => true,
        Place::Right(_, _) => false,
        Place::Low(_, _) => false,
        Place::High(_, _, _) => false,
        Place::Member(_, _, _) => false,
    }
}

fn is_low(place: &Place) -> bool
    ensures { result ≡ is_low (place_of place.now) }
{
    match place {
        Place::Low(_, _) => true,
        Place::First => false,
        Place::Right(_, _) => false,
        Place::High(_, _, _) => false,
        Place::Member(_, _, _) => false,
    }
}

/// Whether a member of a list is read.
pub fn is_member(place: &Place) -> bool
    ensures { result ≡ is_member (place_of place.now) }
{
    match place {
        Place::Member(_, _, _) => true,
        Place::First => false,
        Place::Right(_, _) => false,
        Place::Low(_, _) => false,
        Place::High(_, _, _) => false,
    }
}

fn has_part(left: &Option<Part>) -> bool
    ensures { result ≡ is_some (tree_at left.now) }
{
    match left {
        None => false,
        Some(_part) => true,
    }
}

pub fn has_sum(left: &Option<(Part, Sum)>) -> bool
    ensures { result ≡ is_some (left_sum left.now) }
{
    match left {
        None => false,
        Some(_left) => true,
    }
}

pub fn has_product(left: &Option<(Part, Product)>) -> bool
    ensures { result ≡ is_some (left_product left.now) }
{
    match left {
        None => false,
        Some(_left) => true,
    }
}

fn is_fresh_outside(level: &Level) -> bool
    ensures { result ≡ (not (is_some (tree_at level.now.or)) && (not (is_some (tree_at level.now.and)) && (length level.now.nots.items == 0))) }
{
    !has_part(&level.or) && !has_part(&level.and) && level.nots.is_empty()
}

fn is_fresh_inside(level: &Level) -> bool
    ensures { result ≡ ((is_at_first (place_of level.now.place) && not (is_some (left_sum level.now.sum))) && (not (is_some (left_product level.now.term)) && (length level.now.signs.items == 0))) }
{
    is_first(&level.place)
        && !has_sum(&level.sum)
        && !has_product(&level.term)
        && level.signs.is_empty()
}

/// Whether nothing stands to the left.
#[tactic(auto, using(crate::proofs::Turning::turned_length))]
pub fn is_fresh(level: &Level) -> bool
    ensures { result ≡ is_fresh (level_of level.now) }
{
    is_fresh_outside(level) && is_fresh_inside(level)
}

fn multiplied(alloc: Global, left: Option<(Part, Product)>, right: Part) -> Result<Part, AllocError>
    ensures { IfOk result (λ x. tree_of x ≡ m.product_of (left_product left) (tree_of right)) }
{
    match left {
        None => Ok(right),
        Some((a, product)) => Part::multiply(alloc, product, a, right),
    }
}

fn added(alloc: Global, left: Option<(Part, Sum)>, right: Part) -> Result<Part, AllocError>
    ensures { IfOk result (λ x. tree_of x ≡ m.sum_of (left_sum left) (tree_of right)) }
{
    match left {
        None => Ok(right),
        Some((a, sum)) => Part::add(alloc, sum, a, right),
    }
}

/// The term that the factor ends.
pub fn term(alloc: Global, factor: Part, level: &mut Level) -> Result<Part, AllocError>
    ensures { IfOk result (λ x. Some (tree_of x, level_of level.new) ≡ m.term_in (tree_of factor, level_of level.old)) }
{
    multiplied(alloc, level.term.take(), factor)
}

/// The sum that the term ends.
pub fn sum(alloc: Global, term: Part, level: &mut Level) -> Result<Part, AllocError>
    ensures { IfOk result (λ x. Some (tree_of x, level_of level.new) ≡ m.sum_in (tree_of term, level_of level.old)) }
{
    added(alloc, level.sum.take(), term)
}

/// The predicate that the sum ends, unless it can end none.
pub fn predicate(alloc: Global, sum: Part, level: &mut Level) -> Result<Option<Part>, AllocError>
    ensures { IfOk result (λ x. pair_of x level.new ≡ m.pred_in (tree_of sum, level_of level.old)) }
{
    let mut place = Place::First;
    std::mem::swap(&mut place, &mut level.place);
    match place {
        Place::First => Ok(Some(sum)),
        Place::Right(comparison, a) => Ok(Some(Part::compare(alloc, comparison, a, sum)?)),
        Place::High(negated, a, low) => Ok(Some(Part::between(alloc, negated, a, low, sum)?)),
        Place::Low(_negated, _a) => Ok(None),
        Place::Member(_negated, _a, _members) => Ok(None),
    }
}

/// The predicate behind as many NOTs.
#[tactic(auto, using(crate::proofs::Turning::nots_less))]
fn denied(alloc: Global, nots: Vec<Denial>, predicate: Part) -> Result<Part, AllocError>
    ensures { IfOk result (λ x. tree_of x ≡ m.nots_of (length nots.items) (tree_of predicate)) }
{
    let mut nots = nots;
    let mut whole = predicate;
    while let Some(_not) = nots.pop() {
        whole = Part::not(alloc, whole)?;
    }
    Ok(whole)
}

/// The predicate with the NOTs in front of it.
pub fn negation(alloc: Global, predicate: Part, level: &mut Level) -> Result<Part, AllocError>
    ensures { IfOk result (λ x. Some (tree_of x, level_of level.new) ≡ m.neg_in (tree_of predicate, level_of level.old)) }
{
    let mut nots = Vec::new(alloc);
    std::mem::swap(&mut nots, &mut level.nots);
    denied(alloc, nots, predicate)
}

fn joined(alloc: Global, left: Option<Part>, right: Part) -> Result<Part, AllocError>
    ensures { IfOk result (λ x. tree_of x ≡ m.and_of (tree_at left) (tree_of right)) }
{
    match left {
        None => Ok(right),
        Some(a) => Part::and(alloc, a, right),
    }
}

/// The conjunction that the negation ends.
pub fn conjunction(alloc: Global, negation: Part, level: &mut Level) -> Result<Part, AllocError>
    ensures { IfOk result (λ x. Some (tree_of x, level_of level.new) ≡ m.conj_in (tree_of negation, level_of level.old)) }
{
    joined(alloc, level.and.take(), negation)
}

fn either(alloc: Global, left: Option<Part>, right: Part) -> Result<Part, AllocError>
    ensures { IfOk result (λ x. tree_of x ≡ m.or_of (tree_at left) (tree_of right)) }
{
    match left {
        None => Ok(right),
        Some(a) => Part::or(alloc, a, right),
    }
}

/// The disjunction that the conjunction ends.
pub fn disjunction(alloc: Global, conjunct: Part, level: &mut Level) -> Result<Part, AllocError>
    ensures { IfOk result (λ x. Some (tree_of x, level_of level.new) ≡ m.expr_in (tree_of conjunct, level_of level.old)) }
{
    either(alloc, level.or.take(), conjunct)
}

/// The expression that the operand ends, unless it can end none.
pub fn ended(alloc: Global, operand: Part, level: &mut Level) -> Result<Option<Part>, AllocError>
    ensures { IfOk result (λ x. pair_of x level.new ≡ ended_by (tree_of operand, level_of level.old)) }
{
    let Some(whole) = predicate(alloc, operand, level)? else {
        return Ok(None);
    };
    let negated = negation(alloc, whole, level)?;
    let conjunct = conjunction(alloc, negated, level)?;
    Ok(Some(disjunction(alloc, conjunct, level)?))
}

/// The operand ends a conjunct, if it ends a predicate.
fn conjoin(alloc: Global, operand: Part, level: &mut Level) -> Result<bool, AllocError>
    ensures { IfOk result (λ went. (out : m.Outer) → went_of went level.new out ≡ conjoined out (tree_of operand, level_of level.old)) }
{
    let Some(whole) = predicate(alloc, operand, level)? else {
        return Ok(false);
    };
    let negated = negation(alloc, whole, level)?;
    let joined = conjunction(alloc, negated, level)?;
    level.and = Some(joined);
    Ok(true)
}

/// AND of BETWEEN.
fn take_high(operand: Part, level: &mut Level) -> bool
    requires { is_low (place_of level.old.place) ≡ true }
    ensures { (out : m.Outer) → went_of result level.new out ≡ m.and_in out (tree_of operand, level_of level.old) }
{
    let mut place = Place::First;
    std::mem::swap(&mut place, &mut level.place);
    match place {
        Place::Low(negated, a) => {
            level.place = Place::High(negated, a, operand);
            true
        }
        Place::First => false,
        Place::Right(_comparison, _a) => false,
        Place::High(_negated, _a, _low) => false,
        Place::Member(_negated, _a, _members) => false,
    }
}

/// AND behind an operand: that of BETWEEN, or between two conjuncts. Whether it was taken.
#[tactic(auto, using(crate::proofs::Closing::and_plain))]
pub fn take_and(alloc: Global, operand: Part, level: &mut Level) -> Result<bool, AllocError>
    ensures { IfOk result (λ went. (out : m.Outer) → went_of went level.new out ≡ m.and_in out (tree_of operand, level_of level.old)) }
{
    if is_low(&level.place) {
        Ok(take_high(operand, level))
    } else {
        conjoin(alloc, operand, level)
    }
}

/// The operand behind these signs, the last one first.
#[tactic(auto, using(crate::proofs::Turning::signs_more))]
fn signed(alloc: Global, signs: Vec<Sum>, operand: Part) -> Result<Part, AllocError>
    ensures { IfOk result (λ x. tree_of x ≡ m.signs_of (turned [] signs.items) (tree_of operand)) }
{
    let mut signs = signs;
    let mut whole = operand;
    while let Some(sign) = signs.pop() {
        whole = Part::sign(alloc, sign, whole)?;
    }
    Ok(whole)
}

/// The factor that the operand ends.
pub fn factor(alloc: Global, operand: Part, level: &mut Level) -> Result<Part, AllocError>
    ensures { IfOk result (λ x. Some (tree_of x, level_of level.new) ≡ m.signs_in (tree_of operand, level_of level.old)) }
{
    let mut signs = Vec::new(alloc);
    std::mem::swap(&mut signs, &mut level.signs);
    signed(alloc, signs, operand)
}
