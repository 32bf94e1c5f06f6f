//! The tokens of a statement's text.

ghost use Rattle.std.specs.Prelude.{◌≡◌, ◌+◌, ◌<◌, ◌≤◌, ◌^◌, length, IfOk};
ghost use Rattle.sql_lexer.specs.Tokens.{token_begin, token_of, tokens_of};

use crate::kind::kind;
use crate::reading::Reading;
use crate::token::{Span, Token, Tokens};
use dby_types::seq::Seq;
use std::alloc::{AllocError, Global};

/// The token that stands at these bytes.
fn token(alloc: Global, text: &[u8], from: usize, to: usize) -> Result<Token, AllocError>
    requires order { from ≤ to }
    requires within { to ≤ length text.now }
    requires room { length text.now < 2 ^ 32 }
    ensures { IfOk result (λ t. t ≡ token_of text.now from to) }
{
    let span = Span {
        from: from as u32,
        to: to as u32,
    };
    Ok(Token {
        span,
        kind: kind(alloc, &text[from..to])?,
    })
}

/// Where the token of the byte at `at` begins.
fn begin(reading: Reading, from: usize, at: usize) -> usize
    ensures { result ≡ token_begin reading from at }
{
    if reading.is_open() { from } else { at }
}

/// The tokens of a statement's bytes, in order.
pub fn tokens_of_bytes(alloc: Global, text: &[u8]) -> Result<Tokens, AllocError>
    requires { length text.now < 2 ^ 32 }
    ensures { IfOk result (λ t. t ≡ tokens_of text.now) }
{
    let mut found = Vec::new(alloc);
    let mut reading = Reading::Between;
    let mut from: usize = 0;
    for (i, b) in text.iter().enumerate() {
        let rest = &text[i + 1..];
        let next = reading.after(*b, rest);
        from = begin(reading, from, i);
        if reading.is_in_token(*b, rest) && next.is_between() {
            found.push(token(alloc, text, from, i + 1)?)?;
        }
        reading = next;
    }
    if reading.is_open() {
        found.push(token(alloc, text, from, text.len())?)?;
    }
    Ok(Seq::from_vec(found))
}

/// The tokens of a statement's text, in order: what stands between them is blanks and comments.
pub fn tokens(alloc: Global, text: &str) -> Result<Tokens, AllocError>
    requires { length text.now < 2 ^ 32 }
    ensures { IfOk result (λ t. t ≡ tokens_of text.now) }
{
    tokens_of_bytes(alloc, text.as_bytes())
}
