//! The tuples of INSERT are read, token by token.

ghost use Rattle.std.specs.Prelude.{◌≡◌, ◌≤◌, ◌++◌, [], ◌∷◌, OnOk, IfOk, pos};
ghost use Rattle.sql_forms.specs.Tuples.{is_number, next_tuple, minus as minus_of, signed, number_value, items_at, tuple_kept, tuple_at, tuples_in};
ghost use Rattle.sql_lexer.specs.declared.token.TokenKind.TheVariants.{Number};

use crate::words::{closes, comma, minus, opens, plus, word};
use dby_types::seq::Seq;
use dby_types::value::{Row, Rows, Value};
use sql_lexer::token::{Token, TokenKind};
use std::alloc::{AllocError, Global};
use std::mem;

/// What is wanted next; behind a sign, whether it was a minus.
#[derive(Clone, Copy, Debug, PartialEq, Eq)]
pub enum TuplesAt {
    Open,
    Item,
    Signed(bool),
    Next,
    Done,
    Failed,
}

fn number(negative: bool, kind: &TokenKind) -> bool
    ensures { result ≡ is_number negative kind.now }
{
    match kind {
        TokenKind::Number(n) => {
            if negative {
                *n <= 9223372036854775808
            } else {
                *n < 9223372036854775808
            }
        }
        _ => false,
    }
}

fn next(at: TuplesAt, kind: &TokenKind) -> TuplesAt
    ensures { result ≡ next_tuple at kind.now }
{
    match at {
        TuplesAt::Open => {
            if opens(kind) {
                TuplesAt::Item
            } else {
                TuplesAt::Failed
            }
        }
        TuplesAt::Item => {
            if word(kind, b"NULL") || number(false, kind) {
                TuplesAt::Next
            } else if minus(kind) {
                TuplesAt::Signed(true)
            } else if plus(kind) {
                TuplesAt::Signed(false)
            } else {
                TuplesAt::Failed
            }
        }
        TuplesAt::Signed(negative) => {
            if number(negative, kind) {
                TuplesAt::Next
            } else {
                TuplesAt::Failed
            }
        }
        TuplesAt::Next => {
            if comma(kind) {
                TuplesAt::Item
            } else if closes(kind) {
                TuplesAt::Done
            } else {
                TuplesAt::Failed
            }
        }
        TuplesAt::Done => {
            if comma(kind) {
                TuplesAt::Open
            } else {
                TuplesAt::Failed
            }
        }
        TuplesAt::Failed => TuplesAt::Failed,
    }
}

/// The number with a minus.
fn negated(n: u64) -> i64
    requires { n ≤ 9223372036854775808 }
    ensures { result ≡ minus_of n }
{
    if n == 0 { 0 } else { -((n - 1) as i64) - 1 }
}

/// The tuple takes the number of a token, where the token is one.
fn push_number(tuple: &mut Row, negative: bool, kind: &TokenKind) -> Result<(), AllocError>
    ensures { OnOk result (tuple.new ≡ tuple.old ++ number_value negative kind.now) }
{
    match kind {
        TokenKind::Number(n) => {
            if negative {
                if *n <= 9223372036854775808 {
                    return tuple.push(Value::Num(negated(*n)));
                }
            } else if *n < 9223372036854775808 {
                return tuple.push(Value::Num(*n as i64));
            }
            Ok(())
        }
        _ => Ok(()),
    }
}

/// The tuple takes the item that a token gives.
fn take_item(tuple: &mut Row, at: TuplesAt, kind: &TokenKind) -> Result<(), AllocError>
    ensures { OnOk result (tuple.new ≡ tuple.old ++ items_at at kind.now) }
{
    match at {
        TuplesAt::Item => {
            if word(kind, b"NULL") {
                return tuple.push(Value::Null);
            }
            push_number(tuple, false, kind)
        }
        TuplesAt::Signed(negative) => push_number(tuple, negative, kind),
        _ => Ok(()),
    }
}

/// The tuple that ends at a token, if one does, is found, and the next one begins.
fn end_tuple(
    alloc: Global,
    found: &mut Vec<Row>,
    tuple: &mut Row,
    at: TuplesAt,
    kind: &TokenKind,
) -> Result<(), AllocError>
    ensures found { OnOk result (found.new.items ≡ found.old.items ++ tuple_at at tuple.old kind.now) }
    ensures kept { OnOk result (tuple.new ≡ tuple_kept at tuple.old kind.now) }
{
    match at {
        TuplesAt::Next => {
            if closes(kind) {
                let ended = mem::replace(tuple, Seq::new(alloc));
                found.push(ended)?;
            }
            Ok(())
        }
        _ => Ok(()),
    }
}

/// The tuples that the tokens spell, if they spell tuples.
pub(crate) fn tuples(alloc: Global, tokens: &[Token]) -> Result<Option<Rows>, AllocError>
    ensures { IfOk result (λ t. t ≡ tuples_in tokens.now) }
{
    let mut found = Vec::new(alloc);
    let mut at = TuplesAt::Open;
    let mut tuple = Seq::new(alloc);
    for token in tokens {
        end_tuple(alloc, &mut found, &mut tuple, at, &token.kind)?;
        take_item(&mut tuple, at, &token.kind)?;
        at = next(at, &token.kind);
    }
    match at {
        TuplesAt::Done => Ok(Some(Seq::from_vec(found))),
        _ => Ok(None),
    }
}
