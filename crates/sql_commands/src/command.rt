//! The command that a text spells.

ghost use Rattle.std.specs.Prelude.{◌≡◌, ◌<◌, ◌^◌, length, IfOk};
ghost use Rattle.std.specs.Str.{bytes_eq};
ghost use Rattle.sql_forms.specs.Words.{is_word};
ghost use Rattle.sql_commands.specs.Commands.{is_equal_sign, ended, switched, level_in, leveled, current_set, level_set, command_in, command_of};

use dby_types::number::Level;
use sql_lexer::token::{Sign, Token, TokenKind};
use sql_lexer::tokens::tokens_of_bytes;
use std::alloc::{AllocError, Global};

/// What a connection says of its transaction or of itself.
#[derive(Clone, Copy, Debug, PartialEq, Eq)]
pub enum Command {
    /// COMMIT.
    Commit,
    /// ROLLBACK.
    Rollback,
    /// AUTOCOMMIT ON or OFF.
    Autocommit(bool),
    /// SET ISOLATION, for the transactions that follow.
    SetIsolation(Level),
}

fn is_same(a: &[u8], b: &[u8]) -> bool
    ensures { result ≡ bytes_eq a.now b.now }
{
    a == b
}

fn word(kind: &TokenKind, word: &[u8]) -> bool
    ensures { result ≡ is_word word.now kind.now }
{
    match kind {
        TokenKind::Name(name) => is_same(name.as_slice(), word),
        _ => false,
    }
}

fn equal(kind: &TokenKind) -> bool
    ensures { result ≡ is_equal_sign kind.now }
{
    matches!(kind, TokenKind::Sign(Sign::Equal))
}

fn end(command: Command, tokens: &[Token]) -> Option<Command>
    ensures { result ≡ ended command tokens.now }
{
    match tokens {
        [] => Some(command),
        [work] => {
            if word(&work.kind, b"WORK") {
                Some(command)
            } else {
                None
            }
        }
        _ => None,
    }
}

fn switch(tokens: &[Token]) -> Option<Command>
    ensures { result ≡ switched tokens.now }
{
    let [on] = tokens else {
        return None;
    };
    if word(&on.kind, b"ON") {
        Some(Command::Autocommit(true))
    } else if word(&on.kind, b"OFF") {
        Some(Command::Autocommit(false))
    } else {
        None
    }
}

fn level(kind: &TokenKind) -> Option<Command>
    ensures { result ≡ level_in kind.now }
{
    if word(kind, b"UR") {
        Some(Command::SetIsolation(Level::Ur))
    } else if word(kind, b"CS") {
        Some(Command::SetIsolation(Level::Cs))
    } else if word(kind, b"RS") {
        Some(Command::SetIsolation(Level::Rs))
    } else if word(kind, b"RR") {
        Some(Command::SetIsolation(Level::Rr))
    } else {
        None
    }
}

fn isolation(tokens: &[Token]) -> Option<Command>
    ensures { result ≡ leveled tokens.now }
{
    match tokens {
        [at] => level(&at.kind),
        [sign, at] => {
            if equal(&sign.kind) {
                level(&at.kind)
            } else {
                None
            }
        }
        _ => None,
    }
}

fn set_current(tokens: &[Token]) -> Option<Command>
    ensures { result ≡ current_set tokens.now }
{
    let [first, rest @ ..] = tokens else {
        return None;
    };
    if word(&first.kind, b"ISOLATION") {
        isolation(rest)
    } else {
        None
    }
}

fn set(tokens: &[Token]) -> Option<Command>
    ensures { result ≡ level_set tokens.now }
{
    let [first, rest @ ..] = tokens else {
        return None;
    };
    if word(&first.kind, b"ISOLATION") {
        isolation(rest)
    } else if word(&first.kind, b"CURRENT") {
        set_current(rest)
    } else {
        None
    }
}

fn spell(tokens: &[Token]) -> Option<Command>
    ensures { result ≡ command_in tokens.now }
{
    let [first, rest @ ..] = tokens else {
        return None;
    };
    if word(&first.kind, b"COMMIT") {
        end(Command::Commit, rest)
    } else if word(&first.kind, b"ROLLBACK") {
        end(Command::Rollback, rest)
    } else if word(&first.kind, b"AUTOCOMMIT") {
        switch(rest)
    } else if word(&first.kind, b"SET") {
        set(rest)
    } else {
        None
    }
}

/// The command of a statement's text; None exactly where the text is no command.
#[tactic(auto, unfolding(crate::specs::Commands::command_of))]
pub fn read_command(alloc: Global, text: &[u8]) -> Result<Option<Command>, AllocError>
    requires { length text.now < 2 ^ 32 }
    ensures { IfOk result (λ c. c ≡ command_of text.now) }
{
    let tokens = tokens_of_bytes(alloc, text)?;
    Ok(spell(tokens.as_slice()))
}
