//! The machine that reads an expression, token after token.

ghost use Rattle.std.specs.Prelude.{◌≡◌, [], ◌∷◌, ℕ, List, IfOk, Option, Some, None, is_some, if◌then◌else◌};
ghost use Rattle.sql_grammar.specs.Syntax as s;
ghost use Rattle.sql_grammar.specs.Machine as m;
ghost use Rattle.sql_grammar.specs.Tokens as t;
ghost use Rattle.sql_expressions.specs.Shape.{is_dot, level_of, mode_of, next_of, outer_of, tree_at};
ghost use Rattle.sql_expressions.specs.State.{state_of};
ghost use Rattle.sql_expressions.specs.View.{tree_of};

use crate::behind::{
    behind_and, behind_between, behind_close, behind_comma, behind_compare, behind_in, behind_is,
    behind_not, behind_or, behind_product, behind_sum, last_expression,
};
use crate::level::{Level, Mode, Opener, Place, fresh};
use crate::members::Members;
use crate::part::Part;
use crate::wanted::{enter, wanted};
use dby_types::copies::copy_text;
use dby_types::value::Name;
use sql_ast::expression::{Aggregate, Expression, Product};
use sql_grammar::symbol::Symbol;
use std::alloc::{AllocError, Global};

/// No token was taken.
fn refused(_mode: Mode) -> Option<Mode>
    ensures { result ≡ None }
{
    None
}

/// The token behind an operand or a predicate.
fn behind(
    alloc: Global,
    symbol: Symbol,
    mode: Mode,
    level: &mut Level,
    outer: &mut Vec<(Opener, Level)>,
) -> Result<Option<Mode>, AllocError>
    ensures { IfOk result (λ next. (n : List ℕ) → next_of next level.new (outer_of [] outer.new.items) ≡ m.behind (t.token_from symbol n) (mode_of mode) (level_of level.old) (outer_of [] outer.old.items)) }
{
    match symbol {
        Symbol::Product(product) => behind_product(alloc, product, mode, level),
        Symbol::Sum(sign) => behind_sum(alloc, sign, mode, level),
        Symbol::Compare(comparison) => behind_compare(alloc, comparison, mode, level),
        Symbol::Is => behind_is(alloc, mode, level),
        Symbol::Not => behind_not(alloc, mode, level),
        Symbol::Between => behind_between(alloc, mode, level),
        Symbol::In => behind_in(alloc, mode, level),
        Symbol::And => behind_and(alloc, mode, level),
        Symbol::Or => behind_or(alloc, mode, level),
        Symbol::Comma => behind_comma(alloc, mode, level),
        Symbol::Close => behind_close(alloc, mode, level, outer),
        _ => Ok(refused(mode)),
    }
}

fn is_dot(symbol: Symbol) -> bool
    ensures { result ≡ is_dot symbol }
{
    match symbol {
        Symbol::Dot => true,
        _ => false,
    }
}

/// The token behind a name.
#[tactic(auto, using(crate::proofs::Naming::named_dot, crate::proofs::Naming::named_other))]
fn named(
    alloc: Global,
    symbol: Symbol,
    name: Name,
    level: &mut Level,
    outer: &mut Vec<(Opener, Level)>,
) -> Result<Option<Mode>, AllocError>
    ensures { IfOk result (λ next. (n : List ℕ) → next_of next level.new (outer_of [] outer.new.items) ≡ m.named (t.token_from symbol n) name (level_of level.old) (outer_of [] outer.old.items)) }
{
    if is_dot(symbol) {
        Ok(Some(Mode::Dotted(name)))
    } else {
        behind(alloc, symbol, Mode::Named(name), level, outer)
    }
}

/// The token behind a name and a dot.
fn dotted(
    alloc: Global,
    symbol: Symbol,
    text: &[u8],
    table: Name,
) -> Result<Option<Mode>, AllocError>
    ensures { IfOk result (λ next. (k : Level) (out : m.Outer) → next_of next k out ≡ m.dotted (t.token_from symbol text.now) table (level_of k) out) }
{
    match symbol {
        Symbol::Name(_word) => Ok(Some(Mode::Whole(Part::column_of(
            table,
            copy_text(alloc, text)?,
        )))),
        _ => Ok(None),
    }
}

/// The token behind IS.
fn at_is(alloc: Global, symbol: Symbol, e: Part) -> Result<Option<Mode>, AllocError>
    ensures { IfOk result (λ next. (n : List ℕ) (k : Level) (out : m.Outer) → next_of next k out ≡ m.at_is (t.token_from symbol n) (tree_of e) (level_of k) out) }
{
    match symbol {
        Symbol::Null => Ok(Some(Mode::Tested(Part::is_null(alloc, false, e)?))),
        Symbol::Not => Ok(Some(Mode::AtIsNot(e))),
        _ => Ok(None),
    }
}

/// The token behind IS NOT.
fn at_is_not(alloc: Global, symbol: Symbol, e: Part) -> Result<Option<Mode>, AllocError>
    ensures { IfOk result (λ next. (n : List ℕ) (k : Level) (out : m.Outer) → next_of next k out ≡ m.at_is_not (t.token_from symbol n) (tree_of e) (level_of k) out) }
{
    match symbol {
        Symbol::Null => Ok(Some(Mode::Tested(Part::is_null(alloc, true, e)?))),
        _ => Ok(None),
    }
}

/// The token behind the NOT of a test.
fn at_not(symbol: Symbol, e: Part, level: &mut Level) -> Option<Mode>
    ensures { (n : List ℕ) (out : m.Outer) → next_of result level.new out ≡ m.at_not (t.token_from symbol n) (tree_of e) (level_of level.old) out }
{
    match symbol {
        Symbol::Between => {
            level.place = Place::Low(true, e);
            Some(Mode::Operand)
        }
        Symbol::In => Some(Mode::AtIn(true, e)),
        _ => None,
    }
}

/// The token behind IN.
fn at_in(alloc: Global, symbol: Symbol, negated: bool, e: Part, level: &mut Level) -> Option<Mode>
    ensures { (n : List ℕ) (out : m.Outer) → next_of result level.new out ≡ m.at_in (t.token_from symbol n) negated (tree_of e) (level_of level.old) out }
{
    match symbol {
        Symbol::Open => {
            level.place = Place::Member(negated, e, Members::new(alloc));
            Some(Mode::Operand)
        }
        _ => None,
    }
}

/// The token behind an aggregate's name.
fn at_call(
    alloc: Global,
    symbol: Symbol,
    aggregate: Aggregate,
    level: &mut Level,
    outer: &mut Vec<(Opener, Level)>,
) -> Result<Option<Mode>, AllocError>
    ensures { IfOk result (λ next. (n : List ℕ) → next_of next level.new (outer_of [] outer.new.items) ≡ m.at_call (t.token_from symbol n) aggregate (level_of level.old) (outer_of [] outer.old.items)) }
{
    match symbol {
        Symbol::Open => Ok(Some(enter(alloc, Opener::Calling(aggregate), level, outer)?)),
        _ => Ok(None),
    }
}

/// The token behind `COUNT(*`.
fn at_star(symbol: Symbol) -> Option<Mode>
    ensures { (n : List ℕ) (k : Level) (out : m.Outer) → next_of result k out ≡ m.at_star (t.token_from symbol n) (level_of k) out }
{
    match symbol {
        Symbol::Close => Some(Mode::Whole(Part::count_all())),
        _ => None,
    }
}

/// What was read last behind one token more, if it is taken.
fn next(
    alloc: Global,
    symbol: Symbol,
    text: &[u8],
    mode: Mode,
    level: &mut Level,
    outer: &mut Vec<(Opener, Level)>,
) -> Result<Option<Mode>, AllocError>
    ensures { IfOk result (λ next. next_of next level.new (outer_of [] outer.new.items) ≡ m.step (m.state (mode_of mode) (level_of level.old) (outer_of [] outer.old.items)) (t.token_from symbol text.now)) }
{
    match mode {
        Mode::Operand => wanted(alloc, symbol, text, level, outer),
        Mode::Whole(e) => behind(alloc, symbol, Mode::Whole(e), level, outer),
        Mode::Tested(e) => behind(alloc, symbol, Mode::Tested(e), level, outer),
        Mode::Named(name) => named(alloc, symbol, name, level, outer),
        Mode::Dotted(table) => dotted(alloc, symbol, text, table),
        Mode::AtIs(e) => at_is(alloc, symbol, e),
        Mode::AtIsNot(e) => at_is_not(alloc, symbol, e),
        Mode::AtNot(e) => Ok(at_not(symbol, e, level)),
        Mode::AtIn(negated, e) => Ok(at_in(alloc, symbol, negated, e, level)),
        Mode::AtCall(aggregate) => at_call(alloc, symbol, aggregate, level, outer),
        Mode::AtStar => Ok(at_star(symbol)),
    }
}

/// The expression that ends outside of brackets, if one does.
#[tactic(auto, using(crate::proofs::Closing::ended_with))]
fn outside(alloc: Global, mode: Mode, level: Level) -> Result<Option<Expression>, AllocError>
    ensures { IfOk result (λ e. tree_at e ≡ m.ended (m.state (mode_of mode) (level_of level) [])) }
{
    let mut level = level;
    match last_expression(alloc, mode, &mut level)? {
        None => Ok(None),
        Some(whole) => Ok(Some(whole.into_expression())),
    }
}

/// What is read of an expression: what was read last, what stands to its left, and the brackets that are open around it with
/// what stands to the left of each. It is a state of the grammar's machine.
#[derive(Drop)]
pub struct Machine {
    pub mode: Mode,
    pub level: Level,
    pub outer: Vec<(Opener, Level)>,
}

impl Machine {
    /// Nothing is read.
    pub fn new(alloc: Global) -> Machine
        ensures { state_of result ≡ m.start }
    {
        Machine {
            mode: Mode::Operand,
            level: fresh(alloc),
            outer: Vec::new(alloc),
        }
    }

    /// Takes a token, if some expression goes on with it. Else it isn't to be used again.
    pub fn step(&mut self, alloc: Global, symbol: Symbol, text: &[u8]) -> Result<bool, AllocError>
        ensures { IfOk result (λ went. m.step (state_of self.old) (t.token_from symbol text.now) ≡ (if went then Some (state_of self.new) else None)) }
    {
        let mut mode = Mode::Operand;
        std::mem::swap(&mut mode, &mut self.mode);
        match next(alloc, symbol, text, mode, &mut self.level, &mut self.outer)? {
            None => Ok(false),
            Some(next) => {
                self.mode = next;
                Ok(true)
            }
        }
    }

    /// The expression, if one ends here.
    #[tactic(auto, using(crate::proofs::Closing::open_not))]
    pub fn finish(self, alloc: Global) -> Result<Option<Expression>, AllocError>
        ensures { IfOk result (λ e. tree_at e ≡ m.ended (state_of self)) }
    {
        let Machine { mode, level, outer } = self;
        if outer.is_empty() {
            outside(alloc, mode, level)
        } else {
            Ok(None)
        }
    }
}
