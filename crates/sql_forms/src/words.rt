//! What a token is to the grammar.

ghost use Rattle.std.specs.Prelude.{◌≡◌, ℕ, List, IfOk};
ghost use Rattle.std.specs.Str.{bytes_eq};
ghost use Rattle.sql_forms.specs.Words.{is_word, is_name, name_in, is_open, is_close, is_comma, is_star, is_plus, is_minus};

use dby_types::copies::copy_text;
use dby_types::value::Name;
use sql_lexer::reserved::is_reserved;
use sql_lexer::token::{Sign, TokenKind};
use std::alloc::{AllocError, Global};

fn same(a: &[u8], b: &[u8]) -> bool
    ensures { result ≡ bytes_eq a.now b.now }
{
    a == b
}

pub(crate) fn word(kind: &TokenKind, word: &[u8]) -> bool
    ensures { result ≡ is_word word.now kind.now }
{
    match kind {
        TokenKind::Name(name) => same(name.as_slice(), word),
        _ => false,
    }
}

/// The name that a token is, owned.
pub(crate) fn name(alloc: Global, kind: &TokenKind) -> Result<Option<Name>, AllocError>
    ensures { IfOk result (λ n. n ≡ name_in kind.now) }
{
    match kind {
        TokenKind::Name(name) => {
            if is_reserved(name.as_slice()) {
                return Ok(None);
            }
            Ok(Some(copy_text(alloc, name.as_slice())?))
        }
        TokenKind::Quoted(name) => Ok(Some(copy_text(alloc, name.as_slice())?)),
        _ => Ok(None),
    }
}

pub(crate) fn names(kind: &TokenKind) -> bool
    ensures { result ≡ is_name kind.now }
{
    match kind {
        TokenKind::Name(name) => !is_reserved(name.as_slice()),
        TokenKind::Quoted(_name) => true,
        _ => false,
    }
}

pub(crate) fn opens(kind: &TokenKind) -> bool
    ensures { result ≡ is_open kind.now }
{
    matches!(kind, TokenKind::Sign(Sign::Open))
}

pub(crate) fn closes(kind: &TokenKind) -> bool
    ensures { result ≡ is_close kind.now }
{
    matches!(kind, TokenKind::Sign(Sign::Close))
}

pub(crate) fn comma(kind: &TokenKind) -> bool
    ensures { result ≡ is_comma kind.now }
{
    matches!(kind, TokenKind::Sign(Sign::Comma))
}

pub(crate) fn star(kind: &TokenKind) -> bool
    ensures { result ≡ is_star kind.now }
{
    matches!(kind, TokenKind::Sign(Sign::Star))
}

pub(crate) fn plus(kind: &TokenKind) -> bool
    ensures { result ≡ is_plus kind.now }
{
    matches!(kind, TokenKind::Sign(Sign::Plus))
}

pub(crate) fn minus(kind: &TokenKind) -> bool
    ensures { result ≡ is_minus kind.now }
{
    matches!(kind, TokenKind::Sign(Sign::Minus))
}
