//! How deep the trees are at least that what was read goes on to.

ghost use Rattle.std.specs.Prelude.{◌≡◌, ◌+◌, ℕ, [], ◌∷◌, length, max};
ghost use Rattle.sql_grammar.specs.Depth.{call_up, from_term, level_up, operand_up, outer_up, up_nots, up_place, up_product, up_signs, up_sum, up_tree, wanted_up};
ghost use Rattle.sql_grammar.specs.Depth as d;
ghost use Rattle.sql_grammar.specs.Machine as m;
ghost use Rattle.sql_grammar.specs.Machine.{fresh};
ghost use Rattle.sql_expressions.specs.Capped.{capped};
ghost use Rattle.sql_walk.specs.Heights.{is_counting, is_operand, last_up};
ghost use Rattle.sql_expressions.specs.State.{state_of};
ghost use Rattle.sql_expressions.specs.Shape.{left_product, left_sum, level_of, mode_of, opener_of, outer_of, place_of, tree_at, turned};

use sql_ast::expression::{Aggregate, Product, Sum};
use sql_expressions::level::{Denial, Level, Mode, Opener, Place, is_fresh};
use sql_expressions::machine::Machine;
use sql_expressions::part::{Part, deeper, deepest, joint};

fn raised_by(d: u8, by: u8) -> u8
    ensures { (x : ℕ) → d ≡ capped x → result ≡ capped (x + by) }
{
    if d < 255 - by { d + by } else { 255 }
}

/// As many more.
fn raised(d: u8, by: usize) -> u8
    ensures { (x : ℕ) → d ≡ capped x → result ≡ capped (x + by) }
{
    if by >= 255 {
        return 255;
    }
    raised_by(d, by as u8)
}

fn above_product(left: &Option<(Part, Product)>, d: u8) -> u8
    ensures { (x : ℕ) → d ≡ capped x → result ≡ capped (up_product (left_product left.now) x) }
{
    match left {
        None => d,
        Some((part, _product)) => joint(part.depth(), d),
    }
}

fn above_sum(left: &Option<(Part, Sum)>, d: u8) -> u8
    ensures { (x : ℕ) → d ≡ capped x → result ≡ capped (up_sum (left_sum left.now) x) }
{
    match left {
        None => d,
        Some((part, _sum)) => joint(part.depth(), d),
    }
}

fn above_place(place: &Place, d: u8) -> u8
    ensures { (x : ℕ) → d ≡ capped x → result ≡ capped (up_place (place_of place.now) x) }
{
    match place {
        Place::First => d,
        Place::Right(_comparison, a) => joint(a.depth(), d),
        Place::Low(_negated, a) => joint(a.depth(), d),
        Place::High(_negated, a, low) => joint(deepest(a.depth(), low.depth()), d),
        Place::Member(_negated, a, members) => joint(a.depth(), deepest(members.depth(), d)),
    }
}

fn above_tree(left: &Option<Part>, d: u8) -> u8
    ensures { (x : ℕ) → d ≡ capped x → result ≡ capped (up_tree (tree_at left.now) x) }
{
    match left {
        None => d,
        Some(part) => joint(part.depth(), d),
    }
}

#[tactic(auto, using(crate::proofs::Heights::nots_up))]
fn above_nots(nots: &Vec<Denial>, d: u8) -> u8
    ensures { (x : ℕ) → d ≡ capped x → result ≡ capped (up_nots (length nots.now.items) x) }
{
    raised(d, nots.len())
}

#[tactic(auto, using(crate::proofs::Heights::signs_up))]
fn above_signs(signs: &Vec<Sum>, d: u8) -> u8
    ensures { (x : ℕ) → d ≡ capped x → result ≡ capped (up_signs (turned [] signs.now.items) x) }
{
    raised(d, signs.len())
}

/// The depth of the whole level where its term has this depth.
fn above_term(level: &Level, d: u8) -> u8
    ensures { (x : ℕ) → d ≡ capped x → result ≡ capped (from_term (tree_at level.now.or) (tree_at level.now.and) (length level.now.nots.items) (place_of level.now.place) (left_sum level.now.sum) x) }
{
    let sum = above_sum(&level.sum, d);
    let predicate = above_place(&level.place, sum);
    let negation = above_nots(&level.nots, predicate);
    let conjunct = above_tree(&level.and, negation);
    above_tree(&level.or, conjunct)
}

/// The depth of the whole level where its operand has this depth.
fn above(level: &Level, d: u8) -> u8
    ensures { (x : ℕ) → d ≡ capped x → result ≡ capped (level_up (level_of level.now) x) }
{
    let factor = above_signs(&level.signs, d);
    let term = above_product(&level.term, factor);
    above_term(level, term)
}

/// The least depth behind these signs: a number takes the last one.
#[tactic(auto, using(sql_expressions::proofs::Turning::turned_length))]
fn signed(signs: &Vec<Sum>) -> u8
    ensures { result ≡ capped (max 1 (length (turned [] signs.now.items))) }
{
    let n = signs.len();
    if n < 1 {
        return 1;
    }
    if n < 255 { n as u8 } else { 255 }
}

/// The least depth of the whole level where an operand is wanted.
fn above_wanted(level: &Level) -> u8
    ensures { result ≡ capped (operand_up (level_of level.now)) }
{
    let factor = signed(&level.signs);
    let term = above_product(&level.term, factor);
    above_term(level, term)
}

/// The depth of the whole, where what stands in the innermost brackets has this depth.
#[tactic(auto, using(crate::proofs::Heights::up_end, crate::proofs::Heights::up_next, crate::proofs::Heights::up_all))]
fn enclosed(outer: &[(Opener, Level)], d: u8) -> u8
    ensures { (x : ℕ) → d ≡ capped x → result ≡ capped (outer_up (outer_of [] outer.now) x) }
{
    let mut i = outer.len();
    let mut height = d;
    'each: while i > 0 {
        i -= 1;
        let inside = deeper(height);
        height = above(&outer[i].1, inside);
    }
    height
}

fn counts(opener: Opener) -> bool
    ensures { (k : m.Level) → result ≡ is_counting ((opener_of opener, k) ∷ []) }
{
    match opener {
        Opener::Calling(Aggregate::Count) => true,
        Opener::Calling(Aggregate::Sum) => false,
        Opener::Calling(Aggregate::Min) => false,
        Opener::Calling(Aggregate::Max) => false,
        Opener::Bracket => false,
    }
}

/// Whether the innermost bracket is that of COUNT.
#[tactic(auto, using(crate::proofs::Heights::counting_last))]
fn is_counting(outer: &[(Opener, Level)]) -> bool
    ensures { result ≡ is_counting (outer_of [] outer.now) }
{
    let n = outer.len();
    if n == 0 {
        return false;
    }
    counts(outer[n - 1].0)
}

/// The least depth of the whole behind an opening bracket, or in front of all.
#[tactic(auto, using(crate::proofs::Heights::wanted_counts))]
fn wanted_fresh(outer: &[(Opener, Level)]) -> u8
    ensures { result ≡ capped (wanted_up fresh (outer_of [] outer.now)) }
{
    let least = if is_counting(outer) { 0 } else { 1 };
    enclosed(outer, least)
}

/// The least depth of the whole where an operand is wanted.
#[tactic(auto, using(sql_expressions::proofs::Turning::fresh_is, crate::proofs::Heights::wanted_plain))]
fn wanted(level: &Level, outer: &[(Opener, Level)]) -> u8
    ensures { result ≡ capped (wanted_up (level_of level.now) (outer_of [] outer.now)) }
{
    if is_fresh(level) {
        wanted_fresh(outer)
    } else {
        enclosed(outer, above_wanted(level))
    }
}

/// The least depth of a call of this aggregate.
fn call_height(aggregate: Aggregate) -> u8
    ensures { result ≡ capped (call_up aggregate) }
{
    match aggregate {
        Aggregate::Count => 1,
        _ => 2,
    }
}

/// The depth of the operand or the test that was read last.
fn last(mode: &Mode) -> u8
    ensures { result ≡ capped (last_up (mode_of mode.now)) }
{
    match mode {
        Mode::Operand => 1,
        Mode::Whole(e) => e.depth(),
        Mode::Tested(e) => e.depth(),
        Mode::Named(_name) => 1,
        Mode::Dotted(_name) => 1,
        Mode::AtIs(e) => deeper(e.depth()),
        Mode::AtIsNot(e) => deeper(e.depth()),
        Mode::AtNot(e) => deeper(e.depth()),
        Mode::AtIn(_negated, e) => deeper(e.depth()),
        Mode::AtCall(aggregate) => call_height(*aggregate),
        Mode::AtStar => 1,
    }
}

fn is_operand(mode: &Mode) -> bool
    ensures { result ≡ is_operand (mode_of mode.now) }
{
    match mode {
        Mode::Operand => true,
        Mode::Whole(_e) => false,
        Mode::Tested(_e) => false,
        Mode::Named(_name) => false,
        Mode::Dotted(_name) => false,
        Mode::AtIs(_e) => false,
        Mode::AtIsNot(_e) => false,
        Mode::AtNot(_e) => false,
        Mode::AtIn(_negated, _e) => false,
        Mode::AtCall(_aggregate) => false,
        Mode::AtStar => false,
    }
}

/// The least depth of an expression that goes on so, where 255 stands for all from 255 on.
#[tactic(auto, using(crate::proofs::Heights::floor_operand, crate::proofs::Heights::floor_other))]
pub fn floor(machine: &Machine) -> u8
    ensures { result ≡ capped (d.floor (state_of machine.now)) }
{
    let outer = machine.outer.as_slice();
    if is_operand(&machine.mode) {
        wanted(&machine.level, outer)
    } else {
        enclosed(outer, above(&machine.level, last(&machine.mode)))
    }
}
