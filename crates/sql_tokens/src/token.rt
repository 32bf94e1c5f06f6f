//! Single tokens: each call reads the one whose number is `at`, which becomes that of the next one.

ghost use Rattle.std.specs.Prelude.{◌≡◌, [], ◌∷◌, List, ℕ, drop, if◌then◌else◌};
ghost use Rattle.sql_grammar.specs.Syntax as s;
ghost use Rattle.sql_grammar.specs.Rules.{a_name, a_number, a_size, counted, named, nothing, this};
ghost use Rattle.sql_grammar.specs.Classes.{has};
ghost use Rattle.sql_grammar.specs.Reading.{names_begin, starts};
ghost use Rattle.sql_grammar.specs.Tokens.{seen, token_from};
ghost use Rattle.sql_tokens.specs.Reading.{Passes, Reads, has_next, reading, single};

use crate::failing::Failing;
use dby_types::copies::copy_text;
use dby_types::value::Name;
use sql_grammar::symbol::{Symbol, class_in, symbol_in, text_in};
use sql_grammar::word::{Class, Word, same};
use sql_lexer::token::Token;
use std::alloc::Global;

/// The class of the next token.
#[tactic(auto, using(crate::proofs::Tokens::starts_none))]
pub fn next_class(tokens: &[Token], at: usize) -> Option<Class>
    ensures { (cs : List Class) → starts cs (drop at (seen tokens.now)) ≡ has_next cs result }
{
    if at >= tokens.len() {
        return None;
    }
    Some(class_in(symbol_in(&tokens[at].kind)))
}

/// Whether the next token is of this class.
pub fn is_next(tokens: &[Token], at: usize, class: Class) -> bool
    ensures { result ≡ starts (class ∷ []) (drop at (seen tokens.now)) }
{
    if at >= tokens.len() {
        return false;
    }
    same(class_in(symbol_in(&tokens[at].kind)), class)
}

/// Whether a token of this class is a name.
pub fn is_name_class(class: Class) -> bool
    ensures { result ≡ has class names_begin }
{
    match class {
        Class::Name(Word::Plain) => true,
        Class::Name(Word::Autocommit) => true,
        Class::Name(Word::Cs) => true,
        Class::Name(Word::Current) => true,
        Class::Name(Word::Exclusive) => true,
        Class::Name(Word::Index) => true,
        Class::Name(Word::Isolation) => true,
        Class::Name(Word::Key) => true,
        Class::Name(Word::Lock) => true,
        Class::Name(Word::Mode) => true,
        Class::Name(Word::Off) => true,
        Class::Name(Word::Rr) => true,
        Class::Name(Word::Rs) => true,
        Class::Name(Word::Share) => true,
        Class::Name(Word::Ur) => true,
        Class::Name(Word::Work) => true,
        _ => false,
    }
}

/// Whether the next token is a name.
pub fn is_name_next(tokens: &[Token], at: usize) -> bool
    ensures { result ≡ starts names_begin (drop at (seen tokens.now)) }
{
    match next_class(tokens, at) {
        None => false,
        Some(class) => is_name_class(class),
    }
}

/// A token of this class.
#[tactic(auto, using(crate::proofs::Tokens::this_wrong))]
pub fn token(tokens: &[Token], at: &mut usize, class: Class) -> Result<(), Failing>
    ensures { Reads (this class) (λ x. nothing) tokens.now at.old at.new result }
{
    if pass(tokens, at, class) {
        Ok(())
    } else {
        Err(Failing::Wrong)
    }
}

/// Passes the next token, if it is of this class. Whether it was.
#[tactic(auto, using(crate::proofs::Tokens::passed, crate::proofs::Tokens::within))]
pub fn pass(tokens: &[Token], at: &mut usize, class: Class) -> bool
    ensures { Passes class result (drop at.old (seen tokens.now)) (drop at.new (seen tokens.now)) }
{
    if is_next(tokens, *at, class) {
        *at += 1;
        return true;
    }
    false
}

/// Whether a token is a name.
#[tactic(auto, unfolding(crate::specs::Reading::reading))]
fn is_name(symbol: Symbol) -> bool
    ensures { (n : List ℕ) (rest : List s.Token) → reading a_name (token_from symbol n ∷ rest) ≡ single (λ n. named n) (if result then Some n else None) (token_from symbol n) rest }
{
    match symbol {
        Symbol::Name(_word) => true,
        _ => false,
    }
}

/// The number that a token is.
#[tactic(auto, unfolding(crate::specs::Reading::reading))]
fn number_in(symbol: Symbol) -> Option<u64>
    ensures { (n : List ℕ) (rest : List s.Token) → reading a_number (token_from symbol n ∷ rest) ≡ single (λ n. counted n) result (token_from symbol n) rest }
{
    match symbol {
        Symbol::Number(n) => Some(n),
        _ => None,
    }
}

/// The number from 1 to 1000 that a token is.
#[tactic(auto, unfolding(crate::specs::Reading::reading))]
fn size_in(symbol: Symbol) -> Option<u16>
    ensures { (n : List ℕ) (rest : List s.Token) → reading a_size (token_from symbol n ∷ rest) ≡ single (λ n. counted n) result (token_from symbol n) rest }
{
    match symbol {
        Symbol::Number(n) => {
            if 1 <= n && n <= 1000 {
                Some(n as u16)
            } else {
                None
            }
        }
        _ => None,
    }
}

/// A name.
#[tactic(auto, using(crate::proofs::Tokens::name_end))]
pub fn name(alloc: Global, tokens: &[Token], at: &mut usize) -> Result<Name, Failing>
    ensures { Reads a_name (λ n. named n) tokens.now at.old at.new result }
{
    if *at >= tokens.len() {
        return Err(Failing::Wrong);
    }
    let kind = &tokens[*at].kind;
    if !is_name(symbol_in(kind)) {
        return Err(Failing::Wrong);
    }
    let Ok(name) = copy_text(alloc, text_in(kind)) else {
        return Err(Failing::Memory);
    };
    *at += 1;
    Ok(name)
}

/// A number.
#[tactic(auto, using(crate::proofs::Tokens::number_end))]
pub fn number(tokens: &[Token], at: &mut usize) -> Result<u64, Failing>
    ensures { Reads a_number (λ n. counted n) tokens.now at.old at.new result }
{
    if *at >= tokens.len() {
        return Err(Failing::Wrong);
    }
    match number_in(symbol_in(&tokens[*at].kind)) {
        None => Err(Failing::Wrong),
        Some(n) => {
            *at += 1;
            Ok(n)
        }
    }
}

/// A number from 1 to 1000.
#[tactic(auto, using(crate::proofs::Tokens::size_end))]
pub fn size(tokens: &[Token], at: &mut usize) -> Result<u16, Failing>
    ensures { Reads a_size (λ n. counted n) tokens.now at.old at.new result }
{
    if *at >= tokens.len() {
        return Err(Failing::Wrong);
    }
    match size_in(symbol_in(&tokens[*at].kind)) {
        None => Err(Failing::Wrong),
        Some(n) => {
            *at += 1;
            Ok(n)
        }
    }
}
