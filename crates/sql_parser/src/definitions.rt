//! CREATE and DROP.

ghost use Rattle.std.specs.Prelude.{◌≡◌, [], ◌∷◌, drop, true};
ghost use Rattle.sql_grammar.specs.Grammar as g;
ghost use Rattle.sql_grammar.specs.Grammar.{bracketed, comma, reserved, worded};
ghost use Rattle.sql_grammar.specs.Rules.{a_name, and_then, either, many, named, pair, skip};
ghost use Rattle.sql_grammar.specs.Reading.{starts};
ghost use Rattle.sql_grammar.specs.Tokens.{seen};
ghost use Rattle.sql_tokens.specs.Reading.{Reads};
ghost use Rattle.sql_parts.specs.Tables.{names_said, parts_said};
ghost use Rattle.sql_parser.specs.Statements.{dropped_said, index_said, statement_said, table_said};

use dby_types::seq::Seq;
use dby_types::value::{Name, Names};
use sql_ast::statement::{Dropped, Statement, TablePart};
use sql_grammar::word::{Class, Key, Word};
use sql_lexer::token::Token;
use sql_parts::names::names;
use sql_parts::options::optional;
use sql_parts::table::table_parts;
use sql_tokens::failing::Failing;
use sql_tokens::token::{is_next, name, token};
use std::alloc::Global;

/// A table's parts, in brackets.
#[tactic(auto, using(sql_tokens::proofs::Orders::sequences))]
fn bracketed_parts(
    alloc: Global,
    tokens: &[Token],
    at: &mut usize,
) -> Result<Seq<TablePart>, Failing>
    ensures { Reads (bracketed (and_then g.column (many (skip comma g.table_part)))) parts_said tokens.now at.old at.new result }
{
    token(tokens, at, Class::Open)?;
    let parts = table_parts(alloc, tokens, at)?;
    token(tokens, at, Class::Close)?;
    Ok(parts)
}

/// What stands behind CREATE, of a table.
#[derive(Drop)]
struct TableText {
    name: Name,
    parts: Seq<TablePart>,
}

/// TABLE, and what follows it.
#[tactic(auto, using(sql_tokens::proofs::Orders::sequences), unfolding(sql_grammar::specs::Grammar::create_table))]
fn table(alloc: Global, tokens: &[Token], at: &mut usize) -> Result<TableText, Failing>
    ensures { Reads g.create_table (λ t. table_said t.name t.parts) tokens.now at.old at.new result }
{
    token(tokens, at, Class::Key(Key::Table))?;
    let name = name(alloc, tokens, at)?;
    let parts = bracketed_parts(alloc, tokens, at)?;
    Ok(TableText { name, parts })
}

/// The table of an index, and its columns.
#[derive(Drop)]
struct On {
    table: Name,
    columns: Names,
}

/// ON, and what follows it.
#[tactic(auto, using(sql_tokens::proofs::Orders::sequences))]
fn on_table(alloc: Global, tokens: &[Token], at: &mut usize) -> Result<On, Failing>
    ensures { Reads (skip (reserved Key.On) (and_then a_name g.names)) (λ o. pair (named o.table) (names_said o.columns)) tokens.now at.old at.new result }
{
    token(tokens, at, Class::Key(Key::On))?;
    let table = name(alloc, tokens, at)?;
    let columns = names(alloc, tokens, at)?;
    Ok(On { table, columns })
}

/// What stands behind CREATE, of an index.
#[derive(Drop)]
struct IndexText {
    unique: bool,
    name: Name,
    on: On,
}

/// UNIQUE or INDEX, and what follows it.
#[tactic(auto, using(sql_tokens::proofs::Orders::sequences), unfolding(sql_grammar::specs::Grammar::create_index))]
fn index(alloc: Global, tokens: &[Token], at: &mut usize) -> Result<IndexText, Failing>
    ensures { Reads g.create_index (λ i. index_said i.unique i.name i.on.table i.on.columns) tokens.now at.old at.new result }
{
    let unique = optional(tokens, at, Class::Key(Key::Unique));
    token(tokens, at, Class::Name(Word::Index))?;
    let name = name(alloc, tokens, at)?;
    let on = on_table(alloc, tokens, at)?;
    Ok(IndexText { unique, name, on })
}

/// CREATE.
#[tactic(auto, using(crate::proofs::Forms::create_form, sql_tokens::proofs::Orders::sequences, sql_tokens::proofs::Orders::choices), unfolding(sql_grammar::specs::Grammar::create, sql_grammar::specs::Grammar::create_table))]
pub fn create(alloc: Global, tokens: &[Token], at: &mut usize) -> Result<Statement, Failing>
    requires { starts (Class.Key Key.Create ∷ []) (drop at.old (seen tokens.now)) ≡ true }
    ensures { Reads g.statement statement_said tokens.now at.old at.new result }
{
    token(tokens, at, Class::Key(Key::Create))?;
    if is_next(tokens, *at, Class::Key(Key::Table)) {
        let TableText { name, parts } = table(alloc, tokens, at)?;
        return Ok(Statement::CreateTable { name, parts });
    }
    let IndexText { unique, name, on } = index(alloc, tokens, at)?;
    let On { table, columns } = on;
    Ok(Statement::CreateIndex {
        unique,
        name,
        table,
        columns,
    })
}

/// TABLE or INDEX.
#[tactic(auto, using(sql_tokens::proofs::Orders::choices))]
fn dropped(tokens: &[Token], at: &mut usize) -> Result<Dropped, Failing>
    ensures { Reads (either (reserved Key.Table) (worded Word.Index)) dropped_said tokens.now at.old at.new result }
{
    if is_next(tokens, *at, Class::Key(Key::Table)) {
        token(tokens, at, Class::Key(Key::Table))?;
        return Ok(Dropped::Table);
    }
    token(tokens, at, Class::Name(Word::Index))?;
    Ok(Dropped::Index)
}

/// DROP.
#[tactic(auto, using(crate::proofs::Forms::drop_form, sql_tokens::proofs::Orders::sequences), unfolding(sql_grammar::specs::Grammar::drop_rule))]
pub fn drop_statement(alloc: Global, tokens: &[Token], at: &mut usize) -> Result<Statement, Failing>
    requires { starts (Class.Key Key.Drop ∷ []) (drop at.old (seen tokens.now)) ≡ true }
    ensures { Reads g.statement statement_said tokens.now at.old at.new result }
{
    token(tokens, at, Class::Key(Key::Drop))?;
    let what = dropped(tokens, at)?;
    let name = name(alloc, tokens, at)?;
    Ok(Statement::Drop { what, name })
}
