//! Lists of parts.

ghost use Rattle.std.specs.Prelude.{◌≡◌, ◌++◌, ◌∷◌, [], false, drop, OnOk, MatchResult};
ghost use Rattle.sql_grammar.specs.Grammar.{comma, listed};
ghost use Rattle.sql_grammar.specs.Rules.{Parsed, Rule, many, skip};
ghost use Rattle.sql_grammar.specs.Classes.{has};
ghost use Rattle.sql_grammar.specs.Reading.{begins, is_nullable, starts};
ghost use Rattle.sql_grammar.specs.Tokens.{seen};
ghost use Rattle.sql_tokens.specs.Reading.{Reads, Tells, reading};
ghost use Rattle.sql_parts.specs.Lists.{all_said, led};

use dby_types::seq::Seq;
use sql_grammar::word::Class;
use sql_lexer::token::Token;
use sql_tokens::failing::Failing;
use sql_tokens::token::{next_class, pass};
use std::alloc::Global;

/// A part of a statement that stands in lists.
pub trait Part: Drop {
    /// The rule of the grammar.
    ghost rule: { Rule };

    /// What a part says in the grammar's words.
    ghost says: { Self → Parsed };

    /// The part whose first token has the number `at`, which becomes that of the token behind it.
    fn read(alloc: Global, tokens: &[Token], at: &mut usize) -> Result<Self, Failing>
        ensures { Reads rule says tokens.now at.old at.new result };

    /// No part is without tokens.
    ghost is_something: { is_nullable rule ≡ false };
}

/// A part that may stand any number of times, one behind the other.
pub trait Repeating: Part {
    /// Whether a part begins with a token of this class.
    fn begins(class: Class) -> bool
        ensures { result ≡ has class (begins Self.rule) };
}

/// Puts a part at the end.
pub fn put<T: Drop>(items: &mut Vec<T>, item: T) -> Result<(), Failing>
    ensures ok { OnOk result (items.new.items ≡ items.old.items ++ item ∷ []) }
    ensures err { MatchResult result (λ u. Unit {0}) (λ e. e ≡ Failing.Memory) }
{
    match items.push(item) {
        Ok(()) => Ok(()),
        Err(_) => Err(Failing::Memory),
    }
}

/// The parts with those that follow, each behind a comma.
pub fn more<P: Part>(
    alloc: Global,
    tokens: &[Token],
    at: &mut usize,
    parts: Vec<P>,
) -> Result<Seq<P>, Failing>
    ensures { Tells (λ xs. all_said P.says xs) (led P.says parts.items (reading (many (skip comma P.rule)) (drop at.old (seen tokens.now)))) result (drop at.new (seen tokens.now)) }
{
    let mut parts = parts;
    'each: while pass(tokens, at, Class::Comma) {
        let part = P::read(alloc, tokens, at)?;
        put(&mut parts, part)?;
    }
    Ok(Seq::from_vec(parts))
}

/// A list of parts with commas between them.
pub fn listed<P: Part>(alloc: Global, tokens: &[Token], at: &mut usize) -> Result<Seq<P>, Failing>
    ensures { Reads (listed P.rule) (λ xs. all_said P.says xs) tokens.now at.old at.new result }
{
    let first = P::read(alloc, tokens, at)?;
    let mut parts = Vec::new(alloc);
    put(&mut parts, first)?;
    more(alloc, tokens, at, parts)
}

/// Whether a part stands next.
fn is_repeated<P: Repeating>(tokens: &[Token], at: usize) -> bool
    ensures { result ≡ starts (begins P.rule) (drop at (seen tokens.now)) }
{
    match next_class(tokens, at) {
        None => false,
        Some(class) => P::begins(class),
    }
}

/// The parts that stand one behind the other.
pub fn repeated<P: Repeating>(
    alloc: Global,
    tokens: &[Token],
    at: &mut usize,
) -> Result<Seq<P>, Failing>
    ensures { Reads (many P.rule) (λ xs. all_said P.says xs) tokens.now at.old at.new result }
{
    let mut parts = Vec::new(alloc);
    'each: while is_repeated::<P>(tokens, *at) {
        let part = P::read(alloc, tokens, at)?;
        put(&mut parts, part)?;
    }
    Ok(Seq::from_vec(parts))
}
