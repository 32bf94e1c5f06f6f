//! Lists of names.

ghost use Rattle.std.specs.Prelude.{refl};
ghost use Rattle.sql_grammar.specs.Grammar as g;
ghost use Rattle.sql_grammar.specs.Rules.{a_name, named};
ghost use Rattle.sql_parts.specs.Lists.{all_said};
ghost use Rattle.sql_tokens.specs.Reading.{Reads};

use crate::list::{Part, listed};
use dby_types::value::{Name, Names};
use sql_grammar::word::Class;
use sql_lexer::token::Token;
use sql_tokens::failing::Failing;
use sql_tokens::token::{name, token};
use std::alloc::Global;

impl Part for Name {
    ghost rule = { a_name };

    ghost says = { λ n. named n };

    fn read(alloc: Global, tokens: &[Token], at: &mut usize) -> Result<Name, Failing> {
        name(alloc, tokens, at)
    }

    ghost is_something = { refl };
}

/// Names in brackets.
#[tactic(auto, using(sql_tokens::proofs::Orders::sequences), unfolding(sql_grammar::specs::Grammar::names))]
pub fn names(alloc: Global, tokens: &[Token], at: &mut usize) -> Result<Names, Failing>
    ensures { Reads g.names (λ ns. all_said (λ n. named n) ns) tokens.now at.old at.new result }
{
    token(tokens, at, Class::Open)?;
    let names = listed::<Name>(alloc, tokens, at)?;
    token(tokens, at, Class::Close)?;
    Ok(names)
}
