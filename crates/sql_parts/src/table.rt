//! The parts of CREATE TABLE.

ghost use Rattle.std.specs.Prelude.{◌≡◌, [], ◌∷◌, drop, IfOk, MatchResult};
ghost use Rattle.sql_grammar.specs.Grammar as g;
ghost use Rattle.sql_grammar.specs.Grammar.{bracketed, comma, reserved, worded};
ghost use Rattle.sql_grammar.specs.Reading.{starts};
ghost use Rattle.sql_grammar.specs.Tokens.{seen};
ghost use Rattle.sql_grammar.specs.Rules.{a_size, and_then, counted, either, many, nothing, silent, skip};
ghost use Rattle.sql_tokens.specs.Reading.{Reads};
ghost use Rattle.sql_parts.specs.Tables.{column_said, mark_said, names_said, part_said, parts_said, type_said};
ghost use Rattle.sql_parts.specs.Something.{mark_something, part_something};

use crate::list::{Part, Repeating, more, put, repeated};
use crate::names::names;
use dby_types::seq::Seq;
use dby_types::value::{Names, Ty};
use sql_ast::statement::{ColumnMark, ColumnText, TablePart};
use sql_grammar::word::{Class, Key, Word, same};
use sql_lexer::token::Token;
use sql_tokens::failing::Failing;
use sql_tokens::token::{is_name_next, is_next, name, next_class, size, token};
use std::alloc::Global;

/// What follows a column's type.
#[tactic(auto, using(sql_tokens::proofs::Orders::sequences, sql_tokens::proofs::Orders::choices), unfolding(sql_grammar::specs::Grammar::mark))]
fn mark(tokens: &[Token], at: &mut usize) -> Result<ColumnMark, Failing>
    ensures { Reads g.mark mark_said tokens.now at.old at.new result }
{
    if is_next(tokens, *at, Class::Not) {
        token(tokens, at, Class::Not)?;
        token(tokens, at, Class::Null)?;
        return Ok(ColumnMark::NotNull);
    }
    if is_next(tokens, *at, Class::Key(Key::Primary)) {
        token(tokens, at, Class::Key(Key::Primary))?;
        token(tokens, at, Class::Name(Word::Key))?;
        return Ok(ColumnMark::PrimaryKey);
    }
    token(tokens, at, Class::Key(Key::Unique))?;
    Ok(ColumnMark::Unique)
}

/// The length of a VARCHAR, in brackets.
#[tactic(auto, using(sql_tokens::proofs::Orders::sequences))]
fn length(tokens: &[Token], at: &mut usize) -> Result<u16, Failing>
    ensures { Reads (skip (reserved Key.Varchar) (bracketed a_size)) (λ n. counted n) tokens.now at.old at.new result }
{
    token(tokens, at, Class::Key(Key::Varchar))?;
    token(tokens, at, Class::Open)?;
    let n = size(tokens, at)?;
    token(tokens, at, Class::Close)?;
    Ok(n)
}

/// INTEGER or INT.
#[tactic(auto, using(sql_tokens::proofs::Orders::choices, sql_tokens::proofs::Orders::silent_ok, sql_tokens::proofs::Orders::silent_fails))]
fn integer(tokens: &[Token], at: &mut usize) -> Result<(), Failing>
    ensures { Reads (silent (either (reserved Key.Integer) (reserved Key.Int))) (λ x. nothing) tokens.now at.old at.new result }
{
    if is_next(tokens, *at, Class::Key(Key::Integer)) {
        token(tokens, at, Class::Key(Key::Integer))?;
        return Ok(());
    }
    token(tokens, at, Class::Key(Key::Int))?;
    Ok(())
}

/// Whether INTEGER or INT stands next.
fn is_integer_next(tokens: &[Token], at: usize) -> bool
    ensures { result ≡ starts (Class.Key Key.Integer ∷ Class.Key Key.Int ∷ []) (drop at (seen tokens.now)) }
{
    match next_class(tokens, at) {
        None => false,
        Some(class) => same(class, Class::Key(Key::Integer)) || same(class, Class::Key(Key::Int)),
    }
}

/// A column's type.
#[tactic(auto, using(sql_tokens::proofs::Orders::choices), unfolding(sql_grammar::specs::Grammar::type_rule))]
fn type_text(tokens: &[Token], at: &mut usize) -> Result<Ty, Failing>
    ensures { Reads g.type_rule type_said tokens.now at.old at.new result }
{
    if is_next(tokens, *at, Class::Key(Key::Smallint)) {
        token(tokens, at, Class::Key(Key::Smallint))?;
        return Ok(Ty::Small);
    }
    if is_integer_next(tokens, *at) {
        integer(tokens, at)?;
        return Ok(Ty::Int);
    }
    if is_next(tokens, *at, Class::Key(Key::Bigint)) {
        token(tokens, at, Class::Key(Key::Bigint))?;
        return Ok(Ty::Big);
    }
    if is_next(tokens, *at, Class::Key(Key::Boolean)) {
        token(tokens, at, Class::Key(Key::Boolean))?;
        return Ok(Ty::Bool);
    }
    let n = length(tokens, at)?;
    Ok(Ty::Text(n))
}

impl Part for ColumnMark {
    ghost rule = { g.mark };

    ghost says = { mark_said };

    fn read(_alloc: Global, tokens: &[Token], at: &mut usize) -> Result<ColumnMark, Failing> {
        mark(tokens, at)
    }

    ghost is_something = { mark_something };
}

impl Repeating for ColumnMark {
    #[tactic(auto, unfolding(sql_grammar::specs::Grammar::mark))]
    fn begins(class: Class) -> bool {
        same(class, Class::Not)
            || same(class, Class::Key(Key::Primary))
            || same(class, Class::Key(Key::Unique))
    }
}

/// A column's name, type and marks.
#[tactic(auto, using(sql_tokens::proofs::Orders::sequences), unfolding(sql_grammar::specs::Grammar::column))]
pub fn column(alloc: Global, tokens: &[Token], at: &mut usize) -> Result<ColumnText, Failing>
    ensures { Reads g.column column_said tokens.now at.old at.new result }
{
    let name = name(alloc, tokens, at)?;
    let ty = type_text(tokens, at)?;
    let marks = repeated::<ColumnMark>(alloc, tokens, at)?;
    Ok(ColumnText { name, ty, marks })
}

/// The columns of the primary key.
#[tactic(auto, using(sql_tokens::proofs::Orders::sequences))]
fn primary_key(alloc: Global, tokens: &[Token], at: &mut usize) -> Result<Names, Failing>
    ensures { Reads (skip (reserved Key.Primary) (skip (worded Word.Key) g.names)) names_said tokens.now at.old at.new result }
{
    token(tokens, at, Class::Key(Key::Primary))?;
    token(tokens, at, Class::Name(Word::Key))?;
    let columns = names(alloc, tokens, at)?;
    Ok(columns)
}

/// The columns of a unique key.
#[tactic(auto, using(sql_tokens::proofs::Orders::sequences))]
fn unique(alloc: Global, tokens: &[Token], at: &mut usize) -> Result<Names, Failing>
    ensures { Reads (skip (reserved Key.Unique) g.names) names_said tokens.now at.old at.new result }
{
    token(tokens, at, Class::Key(Key::Unique))?;
    let columns = names(alloc, tokens, at)?;
    Ok(columns)
}

/// A column, or a rule of the table's keys.
#[tactic(auto, using(sql_tokens::proofs::Orders::choices), unfolding(sql_grammar::specs::Grammar::table_part, sql_grammar::specs::Grammar::column))]
fn table_part(alloc: Global, tokens: &[Token], at: &mut usize) -> Result<TablePart, Failing>
    ensures { Reads g.table_part part_said tokens.now at.old at.new result }
{
    if is_name_next(tokens, *at) {
        let column = column(alloc, tokens, at)?;
        return Ok(TablePart::Column(column));
    }
    if is_next(tokens, *at, Class::Key(Key::Primary)) {
        let columns = primary_key(alloc, tokens, at)?;
        return Ok(TablePart::PrimaryKey(columns));
    }
    let columns = unique(alloc, tokens, at)?;
    Ok(TablePart::Unique(columns))
}

impl Part for TablePart {
    ghost rule = { g.table_part };

    ghost says = { part_said };

    fn read(alloc: Global, tokens: &[Token], at: &mut usize) -> Result<TablePart, Failing> {
        table_part(alloc, tokens, at)
    }

    ghost is_something = { part_something };
}

/// The first column, alone in a list.
fn first(alloc: Global, column: ColumnText) -> Result<Vec<TablePart>, Failing>
    ensures ok { IfOk result (λ parts. parts.items ≡ TablePart.Column column ∷ []) }
    ensures err { MatchResult result (λ u. Unit {0}) (λ e. e ≡ Failing.Memory) }
{
    let mut parts = Vec::new(alloc);
    put(&mut parts, TablePart::Column(column))?;
    Ok(parts)
}

/// What stands in the brackets of CREATE TABLE: a column, and further parts.
#[tactic(auto, using(sql_tokens::proofs::Orders::failed, sql_tokens::proofs::Orders::order_first, crate::proofs::Firsts::parts_told))]
pub fn table_parts(
    alloc: Global,
    tokens: &[Token],
    at: &mut usize,
) -> Result<Seq<TablePart>, Failing>
    ensures { Reads (and_then g.column (many (skip comma g.table_part))) parts_said tokens.now at.old at.new result }
{
    let column = column(alloc, tokens, at)?;
    let parts = first(alloc, column)?;
    more(alloc, tokens, at, parts)
}
