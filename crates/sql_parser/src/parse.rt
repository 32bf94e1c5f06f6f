//! A statement's text, read whole.

ghost use Rattle.std.specs.Prelude.{◌≡◌, ◌<◌, ◌≤◌, ◌^◌, length, drop, All, IfOk, IfErr, MatchResult};
ghost use Rattle.sql_grammar.specs.Grammar as g;
ghost use Rattle.sql_grammar.specs.Rules.{Parsed};
ghost use Rattle.sql_grammar.specs.Tokens.{seen, tokens_in};
ghost use Rattle.sql_grammar.specs.Reading.{bind};
ghost use Rattle.sql_grammar.specs.Verdict.{IsStatement, at_end};
ghost use Rattle.sql_tokens.specs.Reading.{Tells, reading};
ghost use Rattle.sql_parser.specs.Answers.{Answered, IsCause, limit, place};
ghost use Rattle.sql_parser.specs.Statements.{statement_said};

use crate::statement::statement;
use sql_ast::statement::Statement;
use sql_lexer::token::Token;
use sql_lexer::tokens::tokens;
use sql_tokens::failing::Failing;
use std::alloc::Global;

/// Why a text isn't read: its first token with which no statement goes on stands at this byte, or at the text's end; or each
/// statement that goes on so has an expression deeper than 200; or memory is wanting.
#[derive(Clone, Copy, Debug, PartialEq, Eq)]
pub enum ParseAnswer {
    Syntax { at: u32 },
    Deep,
    Memory,
}

/// A statement with nothing behind it.
#[tactic(auto, using(crate::proofs::Endings::ends, crate::proofs::Endings::goes_on, sql_tokens::proofs::Orders::failed, sql_tokens::proofs::Orders::fails_on))]
fn alone(alloc: Global, tokens: &[Token], at: &mut usize) -> Result<Statement, Failing>
    ensures { Tells statement_said (bind (reading g.statement (drop at.old (seen tokens.now))) at_end) result (drop at.new (seen tokens.now)) }
{
    let statement = statement(alloc, tokens, at)?;
    if *at < tokens.len() {
        return Err(Failing::Wrong);
    }
    Ok(statement)
}

/// Where the token of this number stands, in a text that ends here.
fn place(tokens: &[Token], n: usize, end: u32) -> u32
    ensures { result ≡ place end (drop n tokens.now) }
{
    if n < tokens.len() {
        tokens[n].span.from
    } else {
        end
    }
}

/// The statement of these tokens, of a text that ends here.
fn read(alloc: Global, tokens: &[Token], end: u32) -> Result<Statement, ParseAnswer>
    ensures { Answered tokens.now end result }
{
    let mut at: usize = 0;
    match alone(alloc, tokens, &mut at) {
        Ok(statement) => Ok(statement),
        Err(Failing::Wrong) => Err(ParseAnswer::Syntax {
            at: place(tokens, at, end),
        }),
        Err(Failing::Deep) => Err(ParseAnswer::Deep),
        Err(Failing::Memory) => Err(ParseAnswer::Memory),
    }
}

/// The statement that a text is, with the tree that the grammar gives it.
///
/// Else `Syntax` tells the byte where the first token stands with which no statement goes on, or the text's end where one would go
/// on; `Deep`, that the first token which can't stand goes on with expressions deeper than 200 alone; `Memory`, that memory is
/// wanting.
#[tactic(auto, using(crate::proofs::Verdicts::told_ok, crate::proofs::Verdicts::told_err, crate::proofs::Verdicts::told_exact))]
pub fn parse(alloc: Global, text: &str) -> Result<Statement, ParseAnswer>
    requires { length text.now < 2 ^ 32 }
    ensures ok { IfOk result (λ s. IsStatement limit (tokens_in text.now) (statement_said s)) }
    ensures err { IfErr result (λ e. IsCause text.now e) }
    ensures exact { (v : Parsed) → IsStatement limit (tokens_in text.now) v → MatchResult result (λ s. statement_said s ≡ v) (λ e. e ≡ ParseAnswer.Memory) }
{
    let Ok(found) = tokens(alloc, text) else {
        return Err(ParseAnswer::Memory);
    };
    read(alloc, found.as_slice(), text.len() as u32)
}
