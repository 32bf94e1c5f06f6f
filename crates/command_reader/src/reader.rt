//! The command that a text spells, read token by token.

ghost use Rattle.std.specs.Prelude.{◌≡◌, ◌≤◌, length, slice_range};
ghost use Rattle.sql_lexer.specs.Tokens.{token_begin, ends_token};
ghost use Rattle.sql_commands.specs.Commands.{command_of};
ghost use Rattle.command_reader.specs.States.{after_where};

use crate::state::{State, after, told};
use sql_commands::command::Command;
use sql_lexer::reading::Reading;

/// Where the token of the byte at `at` begins.
fn begin(reading: Reading, from: usize, at: usize) -> usize
    ensures { result ≡ token_begin reading from at }
{
    if reading.is_open() { from } else { at }
}

/// Whether a byte is the last one of a token.
fn ends(reading: Reading, b: u8, rest: &[u8]) -> bool
    ensures { result ≡ ends_token reading b rest.now }
{
    reading.is_in_token(b, rest) && reading.after(b, rest).is_between()
}

/// The state behind the bytes from one place to another, if they are a token.
fn after_part(found: bool, state: State, text: &[u8], from: usize, to: usize) -> State
    requires order { from ≤ to }
    requires within { to ≤ length text.now }
    ensures { result ≡ after_where found state (slice_range text.now from to) }
{
    if found {
        after(state, &text[from..to])
    } else {
        state
    }
}

/// The command of a statement's text; None exactly where the text is no command.
pub fn command_of_text(text: &[u8]) -> Option<Command>
    ensures { result ≡ command_of text.now }
{
    let mut state = State::Start;
    let mut reading = Reading::Between;
    let mut from: usize = 0;
    for (i, b) in text.iter().enumerate() {
        let rest = &text[i + 1..];
        from = begin(reading, from, i);
        state = after_part(ends(reading, *b, rest), state, text, from, i + 1);
        reading = reading.after(*b, rest);
    }
    state = after_part(reading.is_open(), state, text, from, text.len());
    told(state)
}
