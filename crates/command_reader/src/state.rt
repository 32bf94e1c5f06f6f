//! What the tokens so far leave of a command.

ghost use Rattle.std.specs.Prelude.{◌≡◌, None, if◌then◌else◌};
ghost use Rattle.sql_lexer.specs.Kinds.{kind_of};
ghost use Rattle.sql_commands.specs.Commands.{level_in};
ghost use Rattle.command_reader.specs.States.{first_of, switch_of, setting_of, after, told};

use crate::spelling::{is_equal, spells};
use dby_types::number::Level;
use sql_commands::command::Command;

/// What the tokens so far leave of a command.
#[derive(Clone, Copy, Debug, PartialEq, Eq)]
pub enum State {
    /// Nothing was read.
    Start,
    /// A command, behind which WORK may stand.
    Ended(Command),
    /// A command, or none, behind which nothing may stand.
    Closed(Option<Command>),
    /// Behind AUTOCOMMIT.
    Switching,
    /// Behind SET.
    Setting,
    /// Behind SET CURRENT.
    Current,
    /// Behind ISOLATION.
    Isolating,
    /// Behind ISOLATION and a token: the level that it is, and whether it is `=`.
    Leveled(Option<Command>, bool),
}

fn first(token: &[u8]) -> State
    ensures { result ≡ first_of (kind_of token.now) }
{
    if spells(token, b"COMMIT") {
        State::Ended(Command::Commit)
    } else if spells(token, b"ROLLBACK") {
        State::Ended(Command::Rollback)
    } else if spells(token, b"AUTOCOMMIT") {
        State::Switching
    } else if spells(token, b"SET") {
        State::Setting
    } else {
        State::Closed(None)
    }
}

fn ended(command: Command, token: &[u8]) -> State
    ensures { result ≡ after (State.Ended command) (kind_of token.now) }
{
    if spells(token, b"WORK") {
        State::Closed(Some(command))
    } else {
        State::Closed(None)
    }
}

fn switched(token: &[u8]) -> Option<Command>
    ensures { result ≡ switch_of (kind_of token.now) }
{
    if spells(token, b"ON") {
        Some(Command::Autocommit(true))
    } else if spells(token, b"OFF") {
        Some(Command::Autocommit(false))
    } else {
        None
    }
}

fn set(token: &[u8]) -> State
    ensures { result ≡ setting_of (kind_of token.now) }
{
    if spells(token, b"ISOLATION") {
        State::Isolating
    } else if spells(token, b"CURRENT") {
        State::Current
    } else {
        State::Closed(None)
    }
}

fn set_current(token: &[u8]) -> State
    ensures { result ≡ after State.Current (kind_of token.now) }
{
    if spells(token, b"ISOLATION") {
        State::Isolating
    } else {
        State::Closed(None)
    }
}

fn level(token: &[u8]) -> Option<Command>
    ensures { result ≡ level_in (kind_of token.now) }
{
    if spells(token, b"UR") {
        Some(Command::SetIsolation(Level::Ur))
    } else if spells(token, b"CS") {
        Some(Command::SetIsolation(Level::Cs))
    } else if spells(token, b"RS") {
        Some(Command::SetIsolation(Level::Rs))
    } else if spells(token, b"RR") {
        Some(Command::SetIsolation(Level::Rr))
    } else {
        None
    }
}

/// Behind a level where `=` stood before it.
fn leveled(equal: bool, token: &[u8]) -> Option<Command>
    ensures { result ≡ if equal then level_in (kind_of token.now) else None }
{
    if equal { level(token) } else { None }
}

/// The state behind a token of this spelling.
pub(crate) fn after(state: State, token: &[u8]) -> State
    ensures { result ≡ after state (kind_of token.now) }
{
    match state {
        State::Start => first(token),
        State::Ended(command) => ended(command, token),
        State::Closed(_command) => State::Closed(None),
        State::Switching => State::Closed(switched(token)),
        State::Setting => set(token),
        State::Current => set_current(token),
        State::Isolating => State::Leveled(level(token), is_equal(token)),
        State::Leveled(_level, equal) => State::Closed(leveled(equal, token)),
    }
}

/// The command, if no token follows.
pub(crate) fn told(state: State) -> Option<Command>
    ensures { result ≡ told state }
{
    match state {
        State::Ended(command) => Some(command),
        State::Closed(command) => command,
        State::Leveled(command, _equal) => command,
        _ => None,
    }
}
