//! SELECT.

ghost use Rattle.std.specs.Prelude.{◌≡◌, [], ◌∷◌, drop, true, IfOk, MatchResult};
ghost use Rattle.sql_grammar.specs.Grammar as g;
ghost use Rattle.sql_grammar.specs.Reading.{starts};
ghost use Rattle.sql_grammar.specs.Tokens.{seen};
ghost use Rattle.sql_tokens.specs.Reading.{Reads};
ghost use Rattle.sql_parser.specs.Statements.{statement_said};

use sql_ast::statement::{SelectText, Statement};
use sql_grammar::word::{Class, Key};
use sql_lexer::token::Token;
use sql_parts::queries::select;
use sql_tokens::failing::Failing;
use std::alloc::Global;

/// A query in a box of its own.
fn boxed(alloc: Global, query: SelectText) -> Result<Box<SelectText>, Failing>
    ensures ok { IfOk result (λ b. b.value ≡ query) }
    ensures err { MatchResult result (λ b. Unit {0}) (λ e. e ≡ Failing.Memory) }
{
    match Box::new(alloc, query) {
        Ok(query) => Ok(query),
        Err(_) => Err(Failing::Memory),
    }
}

/// SELECT.
#[tactic(auto, using(crate::proofs::Forms::select_form, sql_tokens::proofs::Orders::failed))]
pub fn query(alloc: Global, tokens: &[Token], at: &mut usize) -> Result<Statement, Failing>
    requires { starts (Class.Key Key.Select ∷ []) (drop at.old (seen tokens.now)) ≡ true }
    ensures { Reads g.statement statement_said tokens.now at.old at.new result }
{
    let text = select(alloc, tokens, at)?;
    let query = boxed(alloc, text)?;
    Ok(Statement::Select(query))
}
