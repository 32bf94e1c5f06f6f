//! INSERT, UPDATE and DELETE.

ghost use Rattle.std.specs.Prelude.{◌≡◌, [], ◌∷◌, drop, true, IfOk, MatchResult};
ghost use Rattle.sql_grammar.specs.Grammar as g;
ghost use Rattle.sql_grammar.specs.Grammar.{listed, reserved};
ghost use Rattle.sql_grammar.specs.Rules.{and_then, maybe, pair, skip};
ghost use Rattle.sql_grammar.specs.Reading.{starts};
ghost use Rattle.sql_grammar.specs.Tokens.{seen};
ghost use Rattle.sql_tokens.specs.Reading.{Reads};
ghost use Rattle.sql_parts.specs.Items.{condition_said, set_said, tuple_said};
ghost use Rattle.sql_parts.specs.Lists.{all_said};
ghost use Rattle.sql_parser.specs.Statements.{columns_said, statement_said, where_said};

use dby_types::seq::Seq;
use dby_types::value::Names;
use sql_ast::expression::Expression;
use sql_ast::statement::{Items, SetText, Statement};
use sql_grammar::word::{Class, Key};
use sql_lexer::token::Token;
use sql_parts::list::listed;
use sql_parts::names::names;
use sql_parts::options::condition;
use sql_tokens::failing::Failing;
use sql_tokens::token::{is_next, name, token};
use std::alloc::Global;

/// The columns of INSERT, in brackets, if they are named.
#[tactic(auto, using(sql_tokens::proofs::Orders::options), unfolding(sql_grammar::specs::Grammar::names))]
fn columns(alloc: Global, tokens: &[Token], at: &mut usize) -> Result<Option<Names>, Failing>
    ensures { Reads (maybe g.names) columns_said tokens.now at.old at.new result }
{
    if !is_next(tokens, *at, Class::Open) {
        return Ok(None);
    }
    let columns = names(alloc, tokens, at)?;
    Ok(Some(columns))
}

/// VALUES, and the rows behind it.
#[tactic(auto, using(sql_tokens::proofs::Orders::sequences))]
fn values(alloc: Global, tokens: &[Token], at: &mut usize) -> Result<Seq<Items>, Failing>
    ensures { Reads (skip (reserved Key.Values) (listed g.tuple)) (λ rows. all_said tuple_said rows) tokens.now at.old at.new result }
{
    token(tokens, at, Class::Key(Key::Values))?;
    let rows = listed::<Items>(alloc, tokens, at)?;
    Ok(rows)
}

/// What INSERT puts, and into which columns.
#[derive(Drop)]
struct Inserted {
    columns: Option<Names>,
    tuples: Seq<Items>,
}

/// The columns of INSERT, and its rows.
#[tactic(auto, using(sql_tokens::proofs::Orders::sequences))]
fn inserted_rows(alloc: Global, tokens: &[Token], at: &mut usize) -> Result<Inserted, Failing>
    ensures { Reads (and_then (maybe g.names) (skip (reserved Key.Values) (listed g.tuple))) (λ i. pair (columns_said i.columns) (all_said tuple_said i.tuples)) tokens.now at.old at.new result }
{
    let columns = columns(alloc, tokens, at)?;
    let tuples = values(alloc, tokens, at)?;
    Ok(Inserted { columns, tuples })
}

/// INSERT.
#[tactic(auto, using(crate::proofs::Forms::insert_form, sql_tokens::proofs::Orders::sequences), unfolding(sql_grammar::specs::Grammar::insert))]
pub fn insert(alloc: Global, tokens: &[Token], at: &mut usize) -> Result<Statement, Failing>
    requires { starts (Class.Key Key.Insert ∷ []) (drop at.old (seen tokens.now)) ≡ true }
    ensures { Reads g.statement statement_said tokens.now at.old at.new result }
{
    token(tokens, at, Class::Key(Key::Insert))?;
    token(tokens, at, Class::Key(Key::Into))?;
    let table = name(alloc, tokens, at)?;
    let Inserted { columns, tuples } = inserted_rows(alloc, tokens, at)?;
    Ok(Statement::Insert {
        table,
        columns,
        tuples,
    })
}

/// A condition in a box of its own.
fn boxed(alloc: Global, condition: Option<Expression>) -> Result<Option<Box<Expression>>, Failing>
    ensures ok { IfOk result (λ c. where_said c ≡ condition_said condition) }
    ensures err { MatchResult result (λ c. Unit {0}) (λ e. e ≡ Failing.Memory) }
{
    match condition {
        None => Ok(None),
        Some(condition) => match Box::new(alloc, condition) {
            Ok(condition) => Ok(Some(condition)),
            Err(_) => Err(Failing::Memory),
        },
    }
}

/// The rows that UPDATE or DELETE names.
#[tactic(auto, using(sql_tokens::proofs::Orders::failed, crate::proofs::Boxed::boxed_told))]
fn rows(alloc: Global, tokens: &[Token], at: &mut usize) -> Result<Option<Box<Expression>>, Failing>
    ensures { Reads g.condition where_said tokens.now at.old at.new result }
{
    let condition = condition(alloc, tokens, at)?;
    let rows = boxed(alloc, condition)?;
    Ok(rows)
}

/// What UPDATE sets, and of which rows.
#[derive(Drop)]
struct Sets {
    sets: Seq<SetText>,
    rows: Option<Box<Expression>>,
}

/// SET, and what follows it.
#[tactic(auto, using(sql_tokens::proofs::Orders::sequences))]
fn set_rows(alloc: Global, tokens: &[Token], at: &mut usize) -> Result<Sets, Failing>
    ensures { Reads (skip (reserved Key.Set) (and_then (listed g.set_part) g.condition)) (λ s. pair (all_said set_said s.sets) (where_said s.rows)) tokens.now at.old at.new result }
{
    token(tokens, at, Class::Key(Key::Set))?;
    let sets = listed::<SetText>(alloc, tokens, at)?;
    let rows = rows(alloc, tokens, at)?;
    Ok(Sets { sets, rows })
}

/// UPDATE.
#[tactic(auto, using(crate::proofs::Forms::update_form, sql_tokens::proofs::Orders::sequences), unfolding(sql_grammar::specs::Grammar::update))]
pub fn update(alloc: Global, tokens: &[Token], at: &mut usize) -> Result<Statement, Failing>
    requires { starts (Class.Key Key.Update ∷ []) (drop at.old (seen tokens.now)) ≡ true }
    ensures { Reads g.statement statement_said tokens.now at.old at.new result }
{
    token(tokens, at, Class::Key(Key::Update))?;
    let table = name(alloc, tokens, at)?;
    let Sets { sets, rows } = set_rows(alloc, tokens, at)?;
    Ok(Statement::Update {
        table,
        sets,
        condition: rows,
    })
}

/// DELETE.
#[tactic(auto, using(crate::proofs::Forms::delete_form, sql_tokens::proofs::Orders::sequences), unfolding(sql_grammar::specs::Grammar::delete))]
pub fn delete(alloc: Global, tokens: &[Token], at: &mut usize) -> Result<Statement, Failing>
    requires { starts (Class.Key Key.Delete ∷ []) (drop at.old (seen tokens.now)) ≡ true }
    ensures { Reads g.statement statement_said tokens.now at.old at.new result }
{
    token(tokens, at, Class::Key(Key::Delete))?;
    token(tokens, at, Class::Key(Key::From))?;
    let table = name(alloc, tokens, at)?;
    let condition = rows(alloc, tokens, at)?;
    Ok(Statement::Delete { table, condition })
}
