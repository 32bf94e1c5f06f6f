//! Tokens and where they stand.

use dby_types::seq::Seq;
use dby_types::value::{Name, Txt};

/// The bytes of a text from `from` up to, but not with, `to`.
#[derive(Clone, Copy, Debug, PartialEq, Eq)]
pub struct Span {
    pub from: u32,
    pub to: u32,
}

pub type Spans = Seq<Span>;

/// A sign of the grammar.
#[derive(Clone, Copy, Debug, PartialEq, Eq)]
pub enum Sign {
    Open,
    Close,
    Comma,
    Dot,
    Star,
    Plus,
    Minus,
    Slash,
    Equal,
    /// `<>` and `!=`.
    NotEqual,
    Less,
    LessEqual,
    Greater,
    GreaterEqual,
}

/// What a token says.
#[derive(Debug, Drop)]
pub enum TokenKind {
    /// A name or a keyword, in upper case.
    Name(Name),
    /// A name within quotes, as it stood there.
    Quoted(Name),
    /// A number up to 9223372036854775808.
    Number(u64),
    /// The bytes of a text within quotes.
    Text(Txt),
    Sign(Sign),
    /// What has the form of no token: an unclosed quote, a name or a number past its limit, any other byte.
    Bad,
}

/// A token, and where it stands in its text.
#[derive(Debug, Drop)]
pub struct Token {
    pub span: Span,
    pub kind: TokenKind,
}

pub type Tokens = Seq<Token>;
