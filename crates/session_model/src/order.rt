//! What a statement asks for.

use sql_commands::command::Command;
use sql_forms::form::Form;

/// A command of its connection, or a statement over tables.
#[derive(Debug, Drop)]
pub enum Order {
    Command(Command),
    Form(Form),
}
