//! The columns of CREATE TABLE are read, token by token.

ghost use Rattle.std.specs.Prelude.{◌≡◌, ◌++◌, OnOk, IfOk, ◌||◌};
ghost use Rattle.sql_forms.specs.Words.{is_comma, is_close};
ghost use Rattle.sql_forms.specs.Columns.{after_column, next_column, column_name, column_flag, column_at, columns_in};

use crate::words::{closes, comma, name, names, opens, word};
use dby_types::copies::copy_text;
use dby_types::definition::{ColumnDef, Columns};
use dby_types::seq::Seq;
use dby_types::value::{Name, Ty};
use sql_lexer::token::{Token, TokenKind};
use std::alloc::{AllocError, Global};

/// What is wanted next.
#[derive(Clone, Copy, Debug, PartialEq, Eq)]
pub enum ColumnsAt {
    Open,
    Name,
    AtType,
    Flag,
    Null,
    Next,
    Done,
    Failed,
}

fn ends(kind: &TokenKind) -> bool
    ensures { result ≡ (is_comma kind.now || is_close kind.now) }
{
    comma(kind) || closes(kind)
}

fn after(kind: &TokenKind) -> ColumnsAt
    ensures { result ≡ after_column kind.now }
{
    if comma(kind) {
        ColumnsAt::Name
    } else if closes(kind) {
        ColumnsAt::Done
    } else {
        ColumnsAt::Failed
    }
}

fn next(at: ColumnsAt, kind: &TokenKind) -> ColumnsAt
    ensures { result ≡ next_column at kind.now }
{
    match at {
        ColumnsAt::Open => {
            if opens(kind) {
                ColumnsAt::Name
            } else {
                ColumnsAt::Failed
            }
        }
        ColumnsAt::Name => {
            if names(kind) {
                ColumnsAt::AtType
            } else {
                ColumnsAt::Failed
            }
        }
        ColumnsAt::AtType => {
            if word(kind, b"INT") || word(kind, b"INTEGER") {
                ColumnsAt::Flag
            } else {
                ColumnsAt::Failed
            }
        }
        ColumnsAt::Flag => {
            if word(kind, b"NOT") {
                ColumnsAt::Null
            } else {
                after(kind)
            }
        }
        ColumnsAt::Null => {
            if word(kind, b"NULL") {
                ColumnsAt::Next
            } else {
                ColumnsAt::Failed
            }
        }
        ColumnsAt::Next => after(kind),
        ColumnsAt::Done => ColumnsAt::Failed,
        ColumnsAt::Failed => ColumnsAt::Failed,
    }
}

fn flag_after(at: ColumnsAt, flag: bool) -> bool
    ensures { result ≡ column_flag at flag }
{
    match at {
        ColumnsAt::Name => false,
        ColumnsAt::Null => true,
        _ => flag,
    }
}

/// The column's name is kept from its token on.
fn keep_name(
    alloc: Global,
    at: ColumnsAt,
    kept: &mut Name,
    kind: &TokenKind,
) -> Result<(), AllocError>
    ensures { OnOk result (kept.new ≡ column_name at kept.old kind.now) }
{
    match at {
        ColumnsAt::Name => {
            let found = name(alloc, kind)?;
            if let Some(found) = found {
                *kept = found;
            }
        }
        _ => {}
    }
    Ok(())
}

/// The column that ends at a token, if one does.
fn end_column(
    alloc: Global,
    columns: &mut Vec<ColumnDef>,
    at: ColumnsAt,
    kept: &[u8],
    flag: bool,
    kind: &TokenKind,
) -> Result<(), AllocError>
    ensures { OnOk result (columns.new.items ≡ columns.old.items ++ column_at at kept.now flag kind.now) }
{
    match at {
        ColumnsAt::Flag | ColumnsAt::Next => {
            if ends(kind) {
                columns.push(ColumnDef {
                    name: copy_text(alloc, kept)?,
                    ty: Ty::Int,
                    not_null: flag,
                })?;
            }
        }
        _ => {}
    }
    Ok(())
}

/// The columns that the tokens spell, if they spell columns.
pub(crate) fn columns(alloc: Global, tokens: &[Token]) -> Result<Option<Columns>, AllocError>
    ensures { IfOk result (λ c. c ≡ columns_in tokens.now) }
{
    let mut found = Vec::new(alloc);
    let mut at = ColumnsAt::Open;
    let mut kept = Seq::new(alloc);
    let mut flag = false;
    for token in tokens {
        end_column(alloc, &mut found, at, kept.as_slice(), flag, &token.kind)?;
        keep_name(alloc, at, &mut kept, &token.kind)?;
        flag = flag_after(at, flag);
        at = next(at, &token.kind);
    }
    match at {
        ColumnsAt::Done => Ok(Some(Seq::from_vec(found))),
        _ => Ok(None),
    }
}
