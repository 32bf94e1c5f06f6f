//! The parts of SELECT.

ghost use Rattle.std.specs.Prelude.{◌≡◌, [], ◌∷◌, drop};
ghost use Rattle.sql_grammar.specs.Grammar as g;
ghost use Rattle.sql_grammar.specs.Grammar.{listed, reserved};
ghost use Rattle.sql_grammar.specs.Rules.{a_name, a_number, an_expr, and_then, descent, either, maybe, skip, this};
ghost use Rattle.sql_grammar.specs.Reading.{starts};
ghost use Rattle.sql_grammar.specs.Tokens.{seen};
ghost use Rattle.sql_tokens.specs.Reading.{Reads};
ghost use Rattle.sql_parts.specs.Items.{expression_said};
ghost use Rattle.sql_parts.specs.Options.{flag, list_said, option_said};
ghost use Rattle.sql_parts.specs.Queries.{alias_said, by_said, clauses_said, from_said, group_said, join_said, order_said, out_said, select_said, shown_said, source_said, table_said, way_said};
ghost use Rattle.sql_parts.specs.Something.{from_something, group_something, join_something, order_something, out_something};

use crate::list::{Part, Repeating, listed, repeated};
use crate::options::{alias, condition, listed_behind, optional};
use dby_types::seq::Seq;
use dby_types::value::Name;
use sql_ast::expression::Expression;
use sql_ast::statement::{
    FromText, GroupText, JoinText, OrderBy, OrderText, OutText, SelectText, Shown, TableText,
};
use sql_grammar::word::{Class, Key, same};
use sql_lexer::token::Token;
use sql_tokens::failing::Failing;
use sql_tokens::token::{is_name_next, is_next, name, next_class, number, token};
use sql_walk::walking::expression;
use std::alloc::Global;

/// An item of SELECT.
#[tactic(auto, using(sql_tokens::proofs::Orders::sequences), unfolding(sql_grammar::specs::Grammar::out_part))]
fn out_part(alloc: Global, tokens: &[Token], at: &mut usize) -> Result<OutText, Failing>
    ensures { Reads g.out_part out_said tokens.now at.old at.new result }
{
    let expression = expression(alloc, tokens, at)?;
    let name = alias(alloc, tokens, at)?;
    Ok(OutText { expression, name })
}

impl Part for OutText {
    ghost rule = { g.out_part };

    ghost says = { out_said };

    fn read(alloc: Global, tokens: &[Token], at: &mut usize) -> Result<OutText, Failing> {
        out_part(alloc, tokens, at)
    }

    ghost is_something = { out_something };
}

/// What SELECT shows.
#[tactic(auto, using(sql_tokens::proofs::Orders::choices), unfolding(sql_grammar::specs::Grammar::shown))]
pub fn shown(alloc: Global, tokens: &[Token], at: &mut usize) -> Result<Shown, Failing>
    ensures { Reads g.shown shown_said tokens.now at.old at.new result }
{
    if is_next(tokens, *at, Class::Star) {
        token(tokens, at, Class::Star)?;
        return Ok(Shown::All);
    }
    let outs = listed::<OutText>(alloc, tokens, at)?;
    Ok(Shown::These(outs))
}

/// A table, with its alias.
#[tactic(auto, using(sql_tokens::proofs::Orders::sequences), unfolding(sql_grammar::specs::Grammar::tab))]
fn table(alloc: Global, tokens: &[Token], at: &mut usize) -> Result<TableText, Failing>
    ensures { Reads g.tab table_said tokens.now at.old at.new result }
{
    let name = name(alloc, tokens, at)?;
    let alias = alias(alloc, tokens, at)?;
    Ok(TableText { name, alias })
}

/// The condition of a join.
#[tactic(auto, using(sql_tokens::proofs::Orders::sequences))]
fn join_condition(alloc: Global, tokens: &[Token], at: &mut usize) -> Result<Expression, Failing>
    ensures { Reads (skip (reserved Key.On) an_expr) expression_said tokens.now at.old at.new result }
{
    token(tokens, at, Class::Key(Key::On))?;
    let condition = expression(alloc, tokens, at)?;
    Ok(condition)
}

/// A table that is joined, with its condition.
#[tactic(auto, using(sql_tokens::proofs::Orders::sequences), unfolding(sql_grammar::specs::Grammar::join))]
fn join(alloc: Global, tokens: &[Token], at: &mut usize) -> Result<JoinText, Failing>
    ensures { Reads g.join join_said tokens.now at.old at.new result }
{
    let _stands = optional(tokens, at, Class::Key(Key::Inner));
    token(tokens, at, Class::Key(Key::Join))?;
    let table = table(alloc, tokens, at)?;
    let condition = join_condition(alloc, tokens, at)?;
    Ok(JoinText { table, condition })
}

impl Part for JoinText {
    ghost rule = { g.join };

    ghost says = { join_said };

    fn read(alloc: Global, tokens: &[Token], at: &mut usize) -> Result<JoinText, Failing> {
        join(alloc, tokens, at)
    }

    ghost is_something = { join_something };
}

impl Repeating for JoinText {
    #[tactic(auto, unfolding(sql_grammar::specs::Grammar::join))]
    fn begins(class: Class) -> bool {
        same(class, Class::Key(Key::Inner)) || same(class, Class::Key(Key::Join))
    }
}

/// A table of FROM, and what is joined to it.
#[tactic(auto, using(sql_tokens::proofs::Orders::sequences), unfolding(sql_grammar::specs::Grammar::from_part))]
fn from_part(alloc: Global, tokens: &[Token], at: &mut usize) -> Result<FromText, Failing>
    ensures { Reads g.from_part from_said tokens.now at.old at.new result }
{
    let table = table(alloc, tokens, at)?;
    let joins = repeated::<JoinText>(alloc, tokens, at)?;
    Ok(FromText { table, joins })
}

impl Part for FromText {
    ghost rule = { g.from_part };

    ghost says = { from_said };

    fn read(alloc: Global, tokens: &[Token], at: &mut usize) -> Result<FromText, Failing> {
        from_part(alloc, tokens, at)
    }

    ghost is_something = { from_something };
}

/// The column behind a table's name and a dot.
#[tactic(auto, using(sql_tokens::proofs::Orders::sequences, sql_tokens::proofs::Orders::options))]
fn column_behind(alloc: Global, tokens: &[Token], at: &mut usize) -> Result<Option<Name>, Failing>
    ensures { Reads (maybe (skip (this Class.Dot) a_name)) alias_said tokens.now at.old at.new result }
{
    if !is_next(tokens, *at, Class::Dot) {
        return Ok(None);
    }
    token(tokens, at, Class::Dot)?;
    let column = name(alloc, tokens, at)?;
    Ok(Some(column))
}

/// A column of GROUP BY.
#[tactic(auto, using(sql_tokens::proofs::Orders::sequences), unfolding(sql_grammar::specs::Grammar::group_part))]
fn group_part(alloc: Global, tokens: &[Token], at: &mut usize) -> Result<GroupText, Failing>
    ensures { Reads g.group_part group_said tokens.now at.old at.new result }
{
    let name = name(alloc, tokens, at)?;
    match column_behind(alloc, tokens, at)? {
        None => Ok(GroupText {
            table: None,
            column: name,
        }),
        Some(column) => Ok(GroupText {
            table: Some(name),
            column,
        }),
    }
}

impl Part for GroupText {
    ghost rule = { g.group_part };

    ghost says = { group_said };

    fn read(alloc: Global, tokens: &[Token], at: &mut usize) -> Result<GroupText, Failing> {
        group_part(alloc, tokens, at)
    }

    ghost is_something = { group_something };
}

/// What a key of ORDER BY names.
#[tactic(auto, using(sql_tokens::proofs::Orders::choices))]
fn order_by(alloc: Global, tokens: &[Token], at: &mut usize) -> Result<OrderBy, Failing>
    ensures { Reads (either a_name a_number) by_said tokens.now at.old at.new result }
{
    if is_name_next(tokens, *at) {
        let column = name(alloc, tokens, at)?;
        return Ok(OrderBy::Name(column));
    }
    let n = number(tokens, at)?;
    Ok(OrderBy::Position(n))
}

/// ASC or DESC: whether it is DESC.
#[tactic(auto, using(sql_tokens::proofs::Orders::choices))]
fn way(tokens: &[Token], at: &mut usize) -> Result<bool, Failing>
    ensures { Reads (either (reserved Key.Asc) (reserved Key.Desc)) way_said tokens.now at.old at.new result }
{
    if is_next(tokens, *at, Class::Key(Key::Asc)) {
        token(tokens, at, Class::Key(Key::Asc))?;
        return Ok(false);
    }
    token(tokens, at, Class::Key(Key::Desc))?;
    Ok(true)
}

/// Whether ASC or DESC stands next.
fn is_way_next(tokens: &[Token], at: usize) -> bool
    ensures { result ≡ starts (Class.Key Key.Asc ∷ Class.Key Key.Desc ∷ []) (drop at (seen tokens.now)) }
{
    match next_class(tokens, at) {
        None => false,
        Some(class) => same(class, Class::Key(Key::Asc)) || same(class, Class::Key(Key::Desc)),
    }
}

/// ASC or DESC, if one of them stands next.
#[tactic(auto, using(sql_tokens::proofs::Orders::options))]
fn ways(tokens: &[Token], at: &mut usize) -> Result<Option<bool>, Failing>
    ensures { Reads (maybe (either (reserved Key.Asc) (reserved Key.Desc))) (λ w. option_said way_said w) tokens.now at.old at.new result }
{
    if !is_way_next(tokens, *at) {
        return Ok(None);
    }
    let descends = way(tokens, at)?;
    Ok(Some(descends))
}

/// Whether the order descends: without a word it ascends.
fn descends(way: Option<bool>) -> bool
    ensures { descent (option_said way_said way) ≡ flag result }
{
    match way {
        None => false,
        Some(descends) => descends,
    }
}

/// A key of ORDER BY.
#[tactic(auto, using(sql_tokens::proofs::Orders::failed, crate::proofs::Ordered::directed_ok, sql_tokens::proofs::Orders::order_first, sql_tokens::proofs::Orders::order_second), unfolding(sql_grammar::specs::Grammar::order_part))]
fn order_part(alloc: Global, tokens: &[Token], at: &mut usize) -> Result<OrderText, Failing>
    ensures { Reads g.order_part order_said tokens.now at.old at.new result }
{
    let by = order_by(alloc, tokens, at)?;
    let way = ways(tokens, at)?;
    Ok(OrderText {
        by,
        descends: descends(way),
    })
}

impl Part for OrderText {
    ghost rule = { g.order_part };

    ghost says = { order_said };

    fn read(alloc: Global, tokens: &[Token], at: &mut usize) -> Result<OrderText, Failing> {
        order_part(alloc, tokens, at)
    }

    ghost is_something = { order_something };
}

/// The columns of GROUP BY, or none.
#[tactic(auto, unfolding(sql_grammar::specs::Grammar::grouping))]
fn grouping(alloc: Global, tokens: &[Token], at: &mut usize) -> Result<Seq<GroupText>, Failing>
    ensures { Reads g.grouping (λ gs. list_said group_said gs) tokens.now at.old at.new result }
{
    listed_behind::<GroupText>(alloc, tokens, at, Class::Key(Key::Group))
}

/// The keys of ORDER BY, or none.
#[tactic(auto, unfolding(sql_grammar::specs::Grammar::ordering))]
fn ordering(alloc: Global, tokens: &[Token], at: &mut usize) -> Result<Seq<OrderText>, Failing>
    ensures { Reads g.ordering (λ ks. list_said order_said ks) tokens.now at.old at.new result }
{
    listed_behind::<OrderText>(alloc, tokens, at, Class::Key(Key::Order))
}

/// What follows the tables of a query.
#[derive(Drop)]
struct Clauses {
    condition: Option<Expression>,
    group: Seq<GroupText>,
    order: Seq<OrderText>,
}

/// WHERE, GROUP BY and ORDER BY.
#[tactic(auto, using(sql_tokens::proofs::Orders::sequences))]
fn behind_from(alloc: Global, tokens: &[Token], at: &mut usize) -> Result<Clauses, Failing>
    ensures { Reads (and_then g.condition (and_then g.grouping g.ordering)) (λ c. clauses_said c.condition c.group c.order) tokens.now at.old at.new result }
{
    let condition = condition(alloc, tokens, at)?;
    let group = grouping(alloc, tokens, at)?;
    let order = ordering(alloc, tokens, at)?;
    Ok(Clauses {
        condition,
        group,
        order,
    })
}

/// FROM and what follows it.
#[derive(Drop)]
struct Source {
    from: Seq<FromText>,
    clauses: Clauses,
}

/// The tables behind FROM, and what follows them.
#[tactic(auto, using(sql_tokens::proofs::Orders::sequences))]
fn sources(alloc: Global, tokens: &[Token], at: &mut usize) -> Result<Source, Failing>
    ensures { Reads (skip (reserved Key.From) (and_then (listed g.from_part) (and_then g.condition (and_then g.grouping g.ordering)))) (λ s. source_said s.from s.clauses.condition s.clauses.group s.clauses.order) tokens.now at.old at.new result }
{
    token(tokens, at, Class::Key(Key::From))?;
    let from = listed::<FromText>(alloc, tokens, at)?;
    let clauses = behind_from(alloc, tokens, at)?;
    Ok(Source { from, clauses })
}

/// A query.
#[tactic(auto, using(sql_tokens::proofs::Orders::sequences), unfolding(sql_grammar::specs::Grammar::select))]
pub fn select(alloc: Global, tokens: &[Token], at: &mut usize) -> Result<SelectText, Failing>
    ensures { Reads g.select select_said tokens.now at.old at.new result }
{
    token(tokens, at, Class::Key(Key::Select))?;
    let distinct = optional(tokens, at, Class::Key(Key::Distinct));
    let shown = shown(alloc, tokens, at)?;
    let Source { from, clauses } = sources(alloc, tokens, at)?;
    let Clauses {
        condition,
        group,
        order,
    } = clauses;
    Ok(SelectText {
        distinct,
        shown,
        from,
        condition,
        group,
        order,
    })
}
