//! What a token says, by its spelling.

ghost use Rattle.std.specs.Prelude.{◌≡◌, ◌+◌, ◌*◌, ◌<◌, ◌≤◌, ◌==◌, ℕ, List, [], ◌∷◌, length, IfOk, false};
ghost use Rattle.sql_lexer.specs.Kinds as meaning;

use crate::byte::{fold, is_digit, is_letter};
use crate::token::{Sign, TokenKind};
use dby_types::seq::Seq;
use dby_types::value::Txt;
use std::alloc::{AllocError, Global};

/// The most bytes that a name has.
const NAME_LIMIT: usize = 128;

/// The greatest number that a token spells, which only its negative can be stored.
const NUMBER_LIMIT: u128 = 9_223_372_036_854_775_808;

/// A name, folded.
fn name(alloc: Global, spelling: &[u8]) -> Result<TokenKind, AllocError>
    ensures { IfOk result (λ k. k ≡ meaning.name_of spelling.now) }
{
    if spelling.len() <= NAME_LIMIT {
        let folded = spelling.iter().map(|b| fold(*b)).collect(alloc)?;
        Ok(TokenKind::Name(Seq::from_vec(folded)))
    } else {
        Ok(TokenKind::Bad)
    }
}

/// A number and one digit more.
fn with_digit(n: u128, b: u8) -> u128
    requires { n ≤ NUMBER_LIMIT }
    ensures { result ≡ meaning.with_digit n b }
{
    n * 10 + u128::from(b.saturating_sub(b'0'))
}

/// A number.
fn number(digits: &[u8]) -> TokenKind
    ensures { result ≡ meaning.number_of digits.now }
{
    let mut n = 0;
    for b in digits {
        n = with_digit(n, *b);
        if NUMBER_LIMIT < n {
            return TokenKind::Bad;
        }
    }
    TokenKind::Number(n as u64)
}

/// What stands behind a first quote, up to the last one.
fn unquoted(alloc: Global, quote: u8, behind: &[u8]) -> Result<Option<Txt>, AllocError>
    ensures { IfOk result (λ t. t ≡ meaning.unquoted quote false behind.now) }
{
    let mut within = Vec::new(alloc);
    let mut single = false;
    for b in behind {
        if *b == quote && !single {
            single = true;
        } else {
            within.push(*b)?;
            single = false;
        }
    }
    if single {
        Ok(Some(Seq::from_vec(within)))
    } else {
        Ok(None)
    }
}

/// A name within quotes.
fn quoted(within: Option<Txt>) -> TokenKind
    ensures { result ≡ meaning.quoted_of within }
{
    match within {
        None => TokenKind::Bad,
        Some(name) => {
            if 1 <= name.len() && name.len() <= NAME_LIMIT {
                TokenKind::Quoted(name)
            } else {
                TokenKind::Bad
            }
        }
    }
}

/// A text.
fn text(within: Option<Txt>) -> TokenKind
    ensures { result ≡ meaning.text_of within }
{
    match within {
        None => TokenKind::Bad,
        Some(text) => TokenKind::Text(text),
    }
}

/// A sign of one byte.
fn sign(b: u8) -> TokenKind
    ensures { result ≡ meaning.sign_of b }
{
    match b {
        b'(' => TokenKind::Sign(Sign::Open),
        b')' => TokenKind::Sign(Sign::Close),
        b',' => TokenKind::Sign(Sign::Comma),
        b'.' => TokenKind::Sign(Sign::Dot),
        b'*' => TokenKind::Sign(Sign::Star),
        b'+' => TokenKind::Sign(Sign::Plus),
        b'-' => TokenKind::Sign(Sign::Minus),
        b'/' => TokenKind::Sign(Sign::Slash),
        b'=' => TokenKind::Sign(Sign::Equal),
        b'<' => TokenKind::Sign(Sign::Less),
        b'>' => TokenKind::Sign(Sign::Greater),
        _ => TokenKind::Bad,
    }
}

/// A sign of two bytes.
fn sign_of_two(b: u8, c: u8) -> TokenKind
    ensures { result ≡ meaning.sign_of_two b c }
{
    match (b, c) {
        (b'<', b'>') => TokenKind::Sign(Sign::NotEqual),
        (b'!', b'=') => TokenKind::Sign(Sign::NotEqual),
        (b'<', b'=') => TokenKind::Sign(Sign::LessEqual),
        (b'>', b'=') => TokenKind::Sign(Sign::GreaterEqual),
        _ => TokenKind::Bad,
    }
}

/// A sign.
fn sign_spelled(b: u8, rest: &[u8]) -> TokenKind
    ensures { result ≡ meaning.sign_spelled b rest.now }
{
    if rest.is_empty() {
        sign(b)
    } else {
        sign_of_two(b, rest[0])
    }
}

/// The kind of the token of this spelling.
pub fn kind(alloc: Global, spelling: &[u8]) -> Result<TokenKind, AllocError>
    ensures { IfOk result (λ k. k ≡ meaning.kind_of spelling.now) }
{
    if spelling.is_empty() {
        return Ok(TokenKind::Bad);
    }
    let first = spelling[0];
    let rest = &spelling[1..];
    if is_letter(first) {
        name(alloc, spelling)
    } else if is_digit(first) {
        Ok(number(spelling))
    } else if first == b'\'' {
        Ok(text(unquoted(alloc, b'\'', rest)?))
    } else if first == b'"' {
        Ok(quoted(unquoted(alloc, b'"', rest)?))
    } else {
        Ok(sign_spelled(first, rest))
    }
}
