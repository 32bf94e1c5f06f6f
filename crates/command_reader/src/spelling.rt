//! What a token's spelling says, without its kind being made.

ghost use Rattle.std.specs.Prelude.{◌≡◌, ◌==◌, ◌&&◌, map};
ghost use Rattle.std.specs.Str.{bytes_eq};
ghost use Rattle.sql_lexer.specs.Bytes.{folded};
ghost use Rattle.sql_lexer.specs.Kinds.{kind_of};
ghost use Rattle.sql_forms.specs.Words.{is_word};
ghost use Rattle.sql_commands.specs.Commands.{is_equal_sign};
ghost use Rattle.command_reader.specs.States.{spells_name};

use sql_lexer::byte::{fold, is_letter};

/// The most bytes that a name has.
const NAME_LIMIT: usize = 128;

fn folds_byte(b: u8, c: u8) -> bool
    ensures { result ≡ (folded b == c) }
{
    fold(b) == c
}

/// Whether the bytes, in upper case, are these.
fn folds_to(bytes: &[u8], word: &[u8]) -> bool
    ensures { result ≡ bytes_eq (map folded bytes.now) word.now }
{
    if bytes.len() != word.len() {
        return false;
    }
    for (i, b) in bytes.iter().enumerate() {
        if !folds_byte(*b, word[i]) {
            return false;
        }
    }
    true
}

/// Whether a token of this spelling is an unquoted name.
fn is_name(token: &[u8]) -> bool
    ensures { result ≡ spells_name token.now }
{
    match token {
        [] => false,
        [b, ..] => is_letter(*b) && token.len() <= NAME_LIMIT,
    }
}

fn both(a: bool, b: bool) -> bool
    ensures { result ≡ (a && b) }
{
    a && b
}

/// Whether a token of this spelling is a word, in any case.
pub(crate) fn spells(token: &[u8], word: &[u8]) -> bool
    ensures { result ≡ is_word word.now (kind_of token.now) }
{
    both(is_name(token), folds_to(token, word))
}

/// Whether a token of this spelling is the sign `=`.
pub(crate) fn is_equal(token: &[u8]) -> bool
    ensures { result ≡ is_equal_sign (kind_of token.now) }
{
    match token {
        [b] => *b == b'=',
        _ => false,
    }
}
