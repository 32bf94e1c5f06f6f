//! A script is split into its statements.

ghost use Rattle.std.specs.Prelude.{◌≡◌, ◌+◌, ◌<◌, ◌≤◌, ◌^◌, ◌++◌, Option, Some, length, IfOk, IfSome, OnOk};
ghost use Rattle.sql_lexer.specs.Splitting.{ends_statement, span_begun, spans_of, statement_begin};

use crate::reading::Reading;
use crate::token::{Span, Spans};
use dby_types::seq::Seq;
use std::alloc::{AllocError, Global};

/// Whether a byte is a `;` outside of quotes and comments.
fn is_end(reading: Reading, b: u8) -> bool
    ensures { result ≡ ends_statement reading b }
{
    match reading {
        Reading::Between => b == b';',
        _ => false,
    }
}

/// Where the statement begins, once the byte at `at` is read.
fn begin(begun: Option<u32>, in_token: bool, at: u32) -> Option<u32>
    ensures { result ≡ statement_begin begun in_token at }
{
    match begun {
        Some(from) => Some(from),
        None => if in_token { Some(at) } else { None },
    }
}

/// The statement that began, if one did, ends at `to`.
fn finish(spans: &mut Vec<Span>, begun: Option<u32>, to: u32) -> Result<(), AllocError>
    ensures { OnOk result (spans.new.items ≡ spans.old.items ++ span_begun begun to) }
{
    if let Some(from) = begun {
        spans.push(Span { from, to })?;
    }
    Ok(())
}

/// The spans of the statements of a script's bytes, in order.
pub fn split_bytes(alloc: Global, script: &[u8]) -> Result<Spans, AllocError>
    requires { length script.now < 2 ^ 32 }
    ensures { IfOk result (λ s. s ≡ spans_of script.now) }
{
    let mut spans = Vec::new(alloc);
    let mut reading = Reading::Between;
    let mut begun: Option<u32> = None;
    for (i, b) in script.iter().enumerate() {
        let rest = &script[i + 1..];
        if is_end(reading, *b) {
            finish(&mut spans, begun, i as u32)?;
            begun = None;
            reading = Reading::Between;
        } else {
            begun = begin(begun, reading.is_in_token(*b, rest), i as u32);
            reading = reading.after(*b, rest);
        }
    }
    finish(&mut spans, begun, script.len() as u32)?;
    Ok(Seq::from_vec(spans))
}

/// The spans of a script's statements, in order: each from its first token up to its `;` or the script's end.
pub fn split(alloc: Global, script: &str) -> Result<Spans, AllocError>
    requires { length script.now < 2 ^ 32 }
    ensures { IfOk result (λ s. s ≡ spans_of script.now) }
{
    split_bytes(alloc, script.as_bytes())
}
