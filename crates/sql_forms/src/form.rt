//! The form that a text spells.

ghost use Rattle.std.specs.Prelude.{◌≡◌, ◌<◌, ◌^◌, length, IfOk};
ghost use Rattle.sql_forms.specs.Forms.{selected, created, inserted, spelled, form_of};

use crate::columns::columns;
use crate::tuples::tuples;
use crate::words::{name, star, word};
use dby_types::definition::Columns;
use dby_types::value::{Name, Rows};
use sql_lexer::token::Token;
use sql_lexer::tokens::tokens_of_bytes;
use std::alloc::{AllocError, Global};

/// A statement of one of the three forms.
#[derive(Debug, Drop)]
pub enum Form {
    /// CREATE TABLE with columns of INTEGER.
    CreateTable { name: Name, columns: Columns },
    /// INSERT of tuples of NULL and numbers.
    Insert { table: Name, tuples: Rows },
    /// SELECT * of a table.
    Select { table: Name },
}

fn select(alloc: Global, tokens: &[Token]) -> Result<Option<Form>, AllocError>
    ensures { IfOk result (λ s. s ≡ selected tokens.now) }
{
    let [from, table] = tokens else {
        return Ok(None);
    };
    if !word(&from.kind, b"FROM") {
        return Ok(None);
    }
    match name(alloc, &table.kind)? {
        None => Ok(None),
        Some(table) => Ok(Some(Form::Select { table })),
    }
}

fn create(alloc: Global, tokens: &[Token]) -> Result<Option<Form>, AllocError>
    ensures { IfOk result (λ s. s ≡ created tokens.now) }
{
    let [table, rest @ ..] = tokens else {
        return Ok(None);
    };
    let Some(name) = name(alloc, &table.kind)? else {
        return Ok(None);
    };
    match columns(alloc, rest)? {
        None => Ok(None),
        Some(columns) => Ok(Some(Form::CreateTable { name, columns })),
    }
}

fn insert(alloc: Global, tokens: &[Token]) -> Result<Option<Form>, AllocError>
    ensures { IfOk result (λ s. s ≡ inserted tokens.now) }
{
    let [table, values, rest @ ..] = tokens else {
        return Ok(None);
    };
    if !word(&values.kind, b"VALUES") {
        return Ok(None);
    }
    let Some(table) = name(alloc, &table.kind)? else {
        return Ok(None);
    };
    match tuples(alloc, rest)? {
        None => Ok(None),
        Some(tuples) => Ok(Some(Form::Insert { table, tuples })),
    }
}

fn spell(alloc: Global, tokens: &[Token]) -> Result<Option<Form>, AllocError>
    ensures { IfOk result (λ s. s ≡ spelled tokens.now) }
{
    let [first, second, rest @ ..] = tokens else {
        return Ok(None);
    };
    if word(&first.kind, b"SELECT") && star(&second.kind) {
        return select(alloc, rest);
    }
    if word(&first.kind, b"CREATE") && word(&second.kind, b"TABLE") {
        return create(alloc, rest);
    }
    if word(&first.kind, b"INSERT") && word(&second.kind, b"INTO") {
        return insert(alloc, rest);
    }
    Ok(None)
}

/// The form of a statement's text; None exactly where the text has none of the three.
#[tactic(auto, unfolding(crate::specs::Forms::form_of))]
pub fn read_form(alloc: Global, text: &[u8]) -> Result<Option<Form>, AllocError>
    requires { length text.now < 2 ^ 32 }
    ensures { IfOk result (λ s. s ≡ form_of text.now) }
{
    let tokens = tokens_of_bytes(alloc, text)?;
    spell(alloc, tokens.as_slice())
}
