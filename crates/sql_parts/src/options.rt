//! What may be absent: a word, an alias, a condition, a list behind BY.

ghost use Rattle.std.specs.Prelude.{◌≡◌, ◌∷◌, drop};
ghost use Rattle.sql_grammar.specs.Grammar as g;
ghost use Rattle.sql_grammar.specs.Grammar.{listed, reserved};
ghost use Rattle.sql_grammar.specs.Rules.{maybe, skip, this};
ghost use Rattle.sql_grammar.specs.Reading.{names_begin, starts, took};
ghost use Rattle.sql_grammar.specs.Tokens.{seen};
ghost use Rattle.sql_tokens.specs.Reading.{Reads, reading};
ghost use Rattle.sql_parts.specs.Items.{condition_said};
ghost use Rattle.sql_parts.specs.Lists.{all_said};
ghost use Rattle.sql_parts.specs.Options.{flag, list_said};
ghost use Rattle.sql_parts.specs.Queries.{alias_said};

use crate::list::{Part, listed};
use dby_types::seq::Seq;
use dby_types::value::Name;
use sql_ast::expression::Expression;
use sql_grammar::word::{Class, Key, same};
use sql_lexer::token::Token;
use sql_tokens::failing::Failing;
use sql_tokens::token::{is_name_class, is_next, name, next_class, pass, token};
use sql_walk::walking::expression;
use std::alloc::Global;

/// Passes a token of this class, if it stands next. Whether it stood.
#[tactic(auto, using(crate::proofs::Optional::passes_flag))]
pub fn optional(tokens: &[Token], at: &mut usize, class: Class) -> bool
    ensures { reading (maybe (this class)) (drop at.old (seen tokens.now)) ≡ took (flag result) (drop at.new (seen tokens.now)) }
{
    pass(tokens, at, class)
}

/// Whether an alias stands next.
fn is_alias_next(tokens: &[Token], at: usize) -> bool
    ensures { result ≡ starts (Class.Key Key.As ∷ names_begin) (drop at (seen tokens.now)) }
{
    match next_class(tokens, at) {
        None => false,
        Some(class) => same(class, Class::Key(Key::As)) || is_name_class(class),
    }
}

/// The name that a table or an item of SELECT is given.
#[tactic(auto, using(sql_tokens::proofs::Orders::sequences, sql_tokens::proofs::Orders::options), unfolding(sql_grammar::specs::Grammar::alias))]
pub fn alias(alloc: Global, tokens: &[Token], at: &mut usize) -> Result<Option<Name>, Failing>
    ensures { Reads g.alias alias_said tokens.now at.old at.new result }
{
    if !is_alias_next(tokens, *at) {
        return Ok(None);
    }
    let _stands = optional(tokens, at, Class::Key(Key::As));
    let name = name(alloc, tokens, at)?;
    Ok(Some(name))
}

/// The condition behind WHERE.
#[tactic(auto, using(sql_tokens::proofs::Orders::sequences, sql_tokens::proofs::Orders::options), unfolding(sql_grammar::specs::Grammar::condition))]
pub fn condition(
    alloc: Global,
    tokens: &[Token],
    at: &mut usize,
) -> Result<Option<Expression>, Failing>
    ensures { Reads g.condition condition_said tokens.now at.old at.new result }
{
    if !is_next(tokens, *at, Class::Key(Key::Where)) {
        return Ok(None);
    }
    token(tokens, at, Class::Key(Key::Where))?;
    let condition = expression(alloc, tokens, at)?;
    Ok(Some(condition))
}

/// A list behind two words, the second of which is BY.
#[tactic(auto, using(sql_tokens::proofs::Orders::sequences))]
fn listed_by<P: Part>(
    alloc: Global,
    tokens: &[Token],
    at: &mut usize,
    first: Class,
) -> Result<Seq<P>, Failing>
    ensures { Reads (skip (this first) (skip (reserved Key.By) (listed P.rule))) (λ xs. all_said P.says xs) tokens.now at.old at.new result }
{
    token(tokens, at, first)?;
    token(tokens, at, Class::Key(Key::By))?;
    let parts = listed::<P>(alloc, tokens, at)?;
    Ok(parts)
}

/// The list behind this word and BY, if the word stands next; else no parts.
#[tactic(auto, using(sql_tokens::proofs::Orders::options, crate::proofs::Optional::listed_present))]
pub fn listed_behind<P: Part>(
    alloc: Global,
    tokens: &[Token],
    at: &mut usize,
    first: Class,
) -> Result<Seq<P>, Failing>
    ensures { Reads (maybe (skip (this first) (skip (reserved Key.By) (listed P.rule)))) (λ xs. list_said P.says xs) tokens.now at.old at.new result }
{
    if !is_next(tokens, *at, first) {
        return Ok(Seq::new(alloc));
    }
    let parts = listed_by::<P>(alloc, tokens, at, first)?;
    Ok(parts)
}
