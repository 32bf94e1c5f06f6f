//! LOCK TABLE, SET ISOLATION, AUTOCOMMIT, COMMIT and ROLLBACK.

ghost use Rattle.std.specs.Prelude.{◌≡◌, [], ◌∷◌, drop, true};
ghost use Rattle.sql_grammar.specs.Grammar as g;
ghost use Rattle.sql_grammar.specs.Grammar.{reserved, worded};
ghost use Rattle.sql_grammar.specs.Rules.{either, keep, maybe, nothing, silent, skip, this};
ghost use Rattle.sql_grammar.specs.Reading.{starts};
ghost use Rattle.sql_grammar.specs.Tokens.{seen};
ghost use Rattle.sql_tokens.specs.Reading.{Reads};
ghost use Rattle.sql_parser.specs.Statements.{level_said, mode_said, on_said, statement_said};

use dby_types::number::Level;
use sql_ast::statement::{Statement, TableMode};
use sql_grammar::word::{Class, Key, Word};
use sql_lexer::token::Token;
use sql_parts::options::optional;
use sql_tokens::failing::Failing;
use sql_tokens::token::{is_next, name, token};
use std::alloc::Global;

/// SHARE or EXCLUSIVE.
#[tactic(auto, using(sql_tokens::proofs::Orders::choices))]
fn mode(tokens: &[Token], at: &mut usize) -> Result<TableMode, Failing>
    ensures { Reads (either (worded Word.Share) (worded Word.Exclusive)) mode_said tokens.now at.old at.new result }
{
    if is_next(tokens, *at, Class::Name(Word::Share)) {
        token(tokens, at, Class::Name(Word::Share))?;
        return Ok(TableMode::Share);
    }
    token(tokens, at, Class::Name(Word::Exclusive))?;
    Ok(TableMode::Exclusive)
}

/// IN, a mode, and MODE.
#[tactic(auto, using(sql_tokens::proofs::Orders::sequences))]
fn in_mode(tokens: &[Token], at: &mut usize) -> Result<TableMode, Failing>
    ensures { Reads (skip (this Class.In) (keep (either (worded Word.Share) (worded Word.Exclusive)) (worded Word.Mode))) mode_said tokens.now at.old at.new result }
{
    token(tokens, at, Class::In)?;
    let mode = mode(tokens, at)?;
    token(tokens, at, Class::Name(Word::Mode))?;
    Ok(mode)
}

/// LOCK TABLE.
#[tactic(auto, using(crate::proofs::Forms::lock_form, sql_tokens::proofs::Orders::sequences), unfolding(sql_grammar::specs::Grammar::lock))]
pub fn lock(alloc: Global, tokens: &[Token], at: &mut usize) -> Result<Statement, Failing>
    requires { starts (Class.Name Word.Lock ∷ []) (drop at.old (seen tokens.now)) ≡ true }
    ensures { Reads g.statement statement_said tokens.now at.old at.new result }
{
    token(tokens, at, Class::Name(Word::Lock))?;
    token(tokens, at, Class::Key(Key::Table))?;
    let table = name(alloc, tokens, at)?;
    let mode = in_mode(tokens, at)?;
    Ok(Statement::LockTable { table, mode })
}

/// UR, CS, RS or RR.
#[tactic(auto, using(sql_tokens::proofs::Orders::choices), unfolding(sql_grammar::specs::Grammar::level))]
fn level(tokens: &[Token], at: &mut usize) -> Result<Level, Failing>
    ensures { Reads g.level level_said tokens.now at.old at.new result }
{
    if is_next(tokens, *at, Class::Name(Word::Ur)) {
        token(tokens, at, Class::Name(Word::Ur))?;
        return Ok(Level::Ur);
    }
    if is_next(tokens, *at, Class::Name(Word::Cs)) {
        token(tokens, at, Class::Name(Word::Cs))?;
        return Ok(Level::Cs);
    }
    if is_next(tokens, *at, Class::Name(Word::Rs)) {
        token(tokens, at, Class::Name(Word::Rs))?;
        return Ok(Level::Rs);
    }
    token(tokens, at, Class::Name(Word::Rr))?;
    Ok(Level::Rr)
}

/// ISOLATION, and the level behind it.
#[tactic(auto, using(sql_tokens::proofs::Orders::sequences))]
fn isolation_level(tokens: &[Token], at: &mut usize) -> Result<Level, Failing>
    ensures { Reads (skip (worded Word.Isolation) (skip (maybe (this Class.Equal)) g.level)) level_said tokens.now at.old at.new result }
{
    token(tokens, at, Class::Name(Word::Isolation))?;
    let _equals = optional(tokens, at, Class::Equal);
    let level = level(tokens, at)?;
    Ok(level)
}

/// SET ISOLATION.
#[tactic(auto, using(crate::proofs::Forms::isolation_form, sql_tokens::proofs::Orders::sequences), unfolding(sql_grammar::specs::Grammar::isolation))]
pub fn isolation(tokens: &[Token], at: &mut usize) -> Result<Statement, Failing>
    requires { starts (Class.Key Key.Set ∷ []) (drop at.old (seen tokens.now)) ≡ true }
    ensures { Reads g.statement statement_said tokens.now at.old at.new result }
{
    token(tokens, at, Class::Key(Key::Set))?;
    let _current = optional(tokens, at, Class::Name(Word::Current));
    let level = isolation_level(tokens, at)?;
    Ok(Statement::SetIsolation(level))
}

/// ON or OFF: whether it is ON.
#[tactic(auto, using(sql_tokens::proofs::Orders::choices))]
fn on(tokens: &[Token], at: &mut usize) -> Result<bool, Failing>
    ensures { Reads (either (reserved Key.On) (worded Word.Off)) on_said tokens.now at.old at.new result }
{
    if is_next(tokens, *at, Class::Key(Key::On)) {
        token(tokens, at, Class::Key(Key::On))?;
        return Ok(true);
    }
    token(tokens, at, Class::Name(Word::Off))?;
    Ok(false)
}

/// AUTOCOMMIT.
#[tactic(auto, using(crate::proofs::Forms::autocommit_form, sql_tokens::proofs::Orders::sequences), unfolding(sql_grammar::specs::Grammar::autocommit))]
pub fn autocommit(tokens: &[Token], at: &mut usize) -> Result<Statement, Failing>
    requires { starts (Class.Name Word.Autocommit ∷ []) (drop at.old (seen tokens.now)) ≡ true }
    ensures { Reads g.statement statement_said tokens.now at.old at.new result }
{
    token(tokens, at, Class::Name(Word::Autocommit))?;
    let on = on(tokens, at)?;
    Ok(Statement::Autocommit(on))
}

/// A word, and WORK, if it follows.
#[tactic(auto, using(sql_tokens::proofs::Orders::sequences, sql_tokens::proofs::Orders::silent_ok, sql_tokens::proofs::Orders::silent_fails))]
fn with_work(tokens: &[Token], at: &mut usize, key: Key) -> Result<(), Failing>
    ensures { Reads (silent (skip (reserved key) (maybe (worded Word.Work)))) (λ x. nothing) tokens.now at.old at.new result }
{
    token(tokens, at, Class::Key(key))?;
    let _work = optional(tokens, at, Class::Name(Word::Work));
    Ok(())
}

/// COMMIT.
#[tactic(auto, using(crate::proofs::Forms::commit_form, sql_tokens::proofs::Orders::failed), unfolding(sql_grammar::specs::Grammar::commit))]
pub fn commit(tokens: &[Token], at: &mut usize) -> Result<Statement, Failing>
    requires { starts (Class.Key Key.Commit ∷ []) (drop at.old (seen tokens.now)) ≡ true }
    ensures { Reads g.statement statement_said tokens.now at.old at.new result }
{
    with_work(tokens, at, Key::Commit)?;
    Ok(Statement::Commit)
}

/// ROLLBACK.
#[tactic(auto, using(crate::proofs::Forms::rollback_form, sql_tokens::proofs::Orders::failed), unfolding(sql_grammar::specs::Grammar::rollback))]
pub fn rollback(tokens: &[Token], at: &mut usize) -> Result<Statement, Failing>
    requires { starts (Class.Key Key.Rollback ∷ []) (drop at.old (seen tokens.now)) ≡ true }
    ensures { Reads g.statement statement_said tokens.now at.old at.new result }
{
    with_work(tokens, at, Key::Rollback)?;
    Ok(Statement::Rollback)
}
