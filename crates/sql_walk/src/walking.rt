//! An expression read from tokens up to its end, or to its first fault.

ghost use Rattle.std.specs.Prelude.{◌≡◌, ◌<◌, ◌∷◌, ◌&&◌, List, IfOk, Some, drop, is_some};
ghost use Rattle.sql_grammar.specs.Syntax as s;
ghost use Rattle.sql_grammar.specs.Machine as m;
ghost use Rattle.sql_grammar.specs.Reading as r;
ghost use Rattle.sql_grammar.specs.Rules.{an_expr, tree};
ghost use Rattle.sql_grammar.specs.Tokens as t;
ghost use Rattle.sql_expressions.specs.State.{state_of};
ghost use Rattle.sql_expressions.specs.View.{tree_of};
ghost use Rattle.sql_tokens.specs.Reading.{Reads, Tells};
ghost use Rattle.sql_walk.specs.Walking.{next_of, stopped_of};

use crate::ending::may_end;
use crate::height::floor;
use sql_ast::expression::Expression;
use sql_expressions::machine::Machine;
use sql_grammar::symbol::{class_in, symbol_in, text_in};
use sql_grammar::word::Class;
use sql_lexer::token::Token;
use sql_tokens::failing::Failing;
use std::alloc::{AllocError, Global};

/// What a token does to an expression: it goes on, it ends in front of the token, no expression goes on with it, or none that
/// isn't too deep.
#[derive(Clone, Copy)]
pub enum Next {
    On,
    Ended,
    Wrong,
    Deep,
}

/// How the reading of an expression ends: in front of a token or at the end, or with a token by which no expression goes on, or
/// none that isn't too deep.
#[derive(Clone, Copy)]
pub enum Stopped {
    Ended,
    Wrong,
    Deep,
}

/// Whether a token of this class ends each expression that may end in front of it.
fn stops(class: Class) -> bool
    ensures { result ≡ r.stops class }
{
    match class {
        Class::Comma => true,
        Class::Close => true,
        Class::Key(_) => true,
        Class::Name(_) => true,
        _ => false,
    }
}

/// Whether the expression ends in front of a token of this class.
fn ends_before(machine: &Machine, class: Class) -> bool
    ensures { result ≡ (r.stops class && is_some (m.ended (state_of machine.now))) }
{
    stops(class) && may_end(machine)
}

/// Whether each expression that goes on so is too deep.
fn is_deep(machine: &Machine, limit: u8) -> bool
    requires { limit < 255 }
    ensures { result ≡ r.is_deep (Some limit) (state_of machine.now) }
{
    floor(machine) > limit
}

/// Takes a token, if the expression goes on with it.

fn take(alloc: Global, limit: u8, machine: &mut Machine, token: &Token) -> Result<Next, AllocError>
    requires { limit < 255 }
    ensures { IfOk result (λ n. (rest : List s.Token) → r.walk (Some limit) (state_of machine.old) (t.token_of token.now.kind ∷ rest) ≡ next_of limit n (state_of machine.new) (t.token_of token.now.kind ∷ rest) rest) }
{
    let symbol = symbol_in(&token.kind);
    if ends_before(machine, class_in(symbol)) {
        return Ok(Next::Ended);
    }
    if !machine.step(alloc, symbol, text_in(&token.kind))? {
        return Ok(Next::Wrong);
    }
    if is_deep(machine, limit) {
        return Ok(Next::Deep);
    }
    Ok(Next::On)
}

/// Takes tokens as long as the expression goes on.
fn take_all(
    alloc: Global,
    limit: u8,
    machine: &mut Machine,
    tokens: &[Token],
    at: &mut usize,
) -> Result<Stopped, AllocError>
    requires { limit < 255 }
    ensures { IfOk result (λ s. r.walk (Some limit) (state_of machine.old) (drop at.old (t.seen tokens.now)) ≡ stopped_of s (state_of machine.new) (drop at.new (t.seen tokens.now))) }
{
    'each: while *at < tokens.len() {
        match take(alloc, limit, machine, &tokens[*at])? {
            Next::On => {}
            Next::Ended => return Ok(Stopped::Ended),
            Next::Wrong => return Ok(Stopped::Wrong),
            Next::Deep => return Ok(Stopped::Deep),
        }
        *at += 1;
    }
    Ok(Stopped::Ended)
}

/// The expression that ends here.
fn finished(alloc: Global, machine: Machine) -> Result<Expression, Failing>
    ensures { (rest : List s.Token) → Tells (λ e. tree (tree_of e)) (r.finish (m.ended (state_of machine)) rest) result rest }
{
    let Ok(found) = machine.finish(alloc) else {
        return Err(Failing::Memory);
    };
    match found {
        Some(e) => Ok(e),
        None => Err(Failing::Wrong),
    }
}

/// The expression whose first token has the number `at`, which becomes that of the token behind it, or of the first one that
/// can't stand there.
#[tactic(auto, unfolding(sql_tokens::specs::Reading::reading))]
pub fn expression(alloc: Global, tokens: &[Token], at: &mut usize) -> Result<Expression, Failing>
    ensures { Reads an_expr (λ e. tree (tree_of e)) tokens.now at.old at.new result }
{
    let mut machine = Machine::new(alloc);
    let Ok(stopped) = take_all(alloc, 200, &mut machine, tokens, at) else {
        return Err(Failing::Memory);
    };
    match stopped {
        Stopped::Ended => finished(alloc, machine),
        Stopped::Wrong => Err(Failing::Wrong),
        Stopped::Deep => Err(Failing::Deep),
    }
}
