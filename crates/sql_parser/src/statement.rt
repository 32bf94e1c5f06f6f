//! A statement: its first token says which form it has.

ghost use Rattle.sql_grammar.specs.Grammar as g;
ghost use Rattle.sql_tokens.specs.Reading.{Reads};
ghost use Rattle.sql_parser.specs.Statements.{statement_said};

use crate::changes::{delete, insert, update};
use crate::definitions::{create, drop_statement};
use crate::queries::query;
use crate::settings::{autocommit, commit, isolation, lock, rollback};
use sql_ast::statement::Statement;
use sql_grammar::word::{Class, Key, Word};
use sql_lexer::token::Token;
use sql_tokens::failing::Failing;
use sql_tokens::token::is_next;
use std::alloc::Global;

/// A statement.
#[tactic(auto, using(crate::proofs::Forms::no_form))]
pub fn statement(alloc: Global, tokens: &[Token], at: &mut usize) -> Result<Statement, Failing>
    ensures { Reads g.statement statement_said tokens.now at.old at.new result }
{
    if is_next(tokens, *at, Class::Key(Key::Insert)) {
        return insert(alloc, tokens, at);
    }
    if is_next(tokens, *at, Class::Key(Key::Select)) {
        return query(alloc, tokens, at);
    }
    if is_next(tokens, *at, Class::Key(Key::Update)) {
        return update(alloc, tokens, at);
    }
    if is_next(tokens, *at, Class::Key(Key::Delete)) {
        return delete(alloc, tokens, at);
    }
    if is_next(tokens, *at, Class::Key(Key::Commit)) {
        return commit(tokens, at);
    }
    if is_next(tokens, *at, Class::Key(Key::Rollback)) {
        return rollback(tokens, at);
    }
    if is_next(tokens, *at, Class::Key(Key::Create)) {
        return create(alloc, tokens, at);
    }
    if is_next(tokens, *at, Class::Key(Key::Drop)) {
        return drop_statement(alloc, tokens, at);
    }
    if is_next(tokens, *at, Class::Name(Word::Lock)) {
        return lock(alloc, tokens, at);
    }
    if is_next(tokens, *at, Class::Key(Key::Set)) {
        return isolation(tokens, at);
    }
    if is_next(tokens, *at, Class::Name(Word::Autocommit)) {
        return autocommit(tokens, at);
    }
    Err(Failing::Wrong)
}
