//! How a text is read, byte by byte.

ghost use Rattle.std.specs.Prelude.{◌≡◌, ◌==◌};
ghost use Rattle.sql_lexer.specs.Bytes as bytes;
ghost use Rattle.sql_lexer.specs.Reading as meaning;

use crate::byte::{
    begins_byte, begins_digit, begins_foreign, begins_in_name, begins_pair, is_blank,
    is_comment_begin, is_digit, is_foreign, is_letter,
};

/// What the bytes so far leave open.
#[derive(Clone, Copy, Debug, PartialEq, Eq)]
pub enum Reading {
    /// Nothing.
    Between,
    InComment,
    InName,
    InNumber,
    /// A run of bytes that aren't ASCII.
    InForeign,
    /// A text within `'`.
    InText,
    /// Within a text, between two quotes that are one.
    AtTextPair,
    /// A name within `"`.
    InQuoted,
    /// Within a quoted name, between two quotes that are one.
    AtQuotedPair,
    /// Between the two bytes of a sign.
    AtSignPair,
}

/// The reading, if what it is in goes on.
fn while_next(next: bool, reading: Reading) -> Reading
    ensures { result ≡ meaning.if_next next reading }
{
    if next { reading } else { Reading::Between }
}

/// The reading behind the first byte of a token.
fn begun(b: u8, rest: &[u8]) -> Reading
    ensures { result ≡ meaning.reading_begun b rest.now }
{
    if is_letter(b) {
        while_next(begins_in_name(rest), Reading::InName)
    } else if is_digit(b) {
        while_next(begins_digit(rest), Reading::InNumber)
    } else if is_foreign(b) {
        while_next(begins_foreign(rest), Reading::InForeign)
    } else if b == b'\'' {
        Reading::InText
    } else if b == b'"' {
        Reading::InQuoted
    } else {
        while_next(begins_pair(b, rest), Reading::AtSignPair)
    }
}

/// The reading behind a byte outside of tokens and comments.
fn after_between(b: u8, rest: &[u8]) -> Reading
    ensures { result ≡ meaning.reading_after Reading.Between b rest.now }
{
    if is_blank(b) {
        Reading::Between
    } else if is_comment_begin(b, rest) {
        Reading::InComment
    } else {
        begun(b, rest)
    }
}

/// The reading behind a byte within quotes, which is `quote` where it may be the last one.
fn after_quoted(quote: u8, reading: Reading, pair: Reading, b: u8, rest: &[u8]) -> Reading
    ensures { result ≡ meaning.after_quoted quote reading pair b rest.now }
{
    if b == quote {
        while_next(begins_byte(quote, rest), pair)
    } else {
        reading
    }
}

impl Reading {
    /// The reading behind one byte more, which the rest follows.
    pub fn after(self, b: u8, rest: &[u8]) -> Reading
        ensures { result ≡ meaning.reading_after self b rest.now }
    {
        match self {
            Reading::Between => after_between(b, rest),
            Reading::InComment => {
                if b == b'\n' {
                    Reading::Between
                } else {
                    Reading::InComment
                }
            }
            Reading::InName => while_next(begins_in_name(rest), Reading::InName),
            Reading::InNumber => while_next(begins_digit(rest), Reading::InNumber),
            Reading::InForeign => while_next(begins_foreign(rest), Reading::InForeign),
            Reading::InText => after_quoted(b'\'', Reading::InText, Reading::AtTextPair, b, rest),
            Reading::AtTextPair => Reading::InText,
            Reading::InQuoted => after_quoted(
                b'"',
                Reading::InQuoted,
                Reading::AtQuotedPair,
                b,
                rest,
            ),
            Reading::AtQuotedPair => Reading::InQuoted,
            Reading::AtSignPair => Reading::Between,
        }
    }

    /// Whether the next byte belongs to a token.
    pub fn is_in_token(self, b: u8, rest: &[u8]) -> bool
        ensures { result ≡ meaning.is_in_token self b rest.now }
    {
        match self {
            Reading::Between => !(is_blank(b) || is_comment_begin(b, rest)),
            Reading::InComment => false,
            _ => true,
        }
    }

    /// Whether no token and no comment is open.
    pub fn is_between(self) -> bool
        ensures { result ≡ meaning.is_between self }
    {
        match self {
            Reading::Between => true,
            _ => false,
        }
    }

    /// Whether a token is open.
    pub fn is_open(self) -> bool
        ensures { result ≡ meaning.is_open self }
    {
        match self {
            Reading::Between | Reading::InComment => false,
            _ => true,
        }
    }
}
