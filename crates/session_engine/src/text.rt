//! The text of a statement, and what it asks for.

ghost use Rattle.std.specs.Prelude.{◌≡◌, ◌+◌, ◌<◌, ◌≤◌, ◌^◌, length, IfNone, IfOk, IfSome, slice_get};
ghost use Rattle.sql_lexer.specs.Splitting.{bytes_of, spans_of, statements_of};
ghost use Rattle.session_model.specs.Orders.{order_of};

use dby_types::copies::copy_text;
use dby_types::value::Txt;
use session_model::order::Order;
use sql_commands::command::read_command;
use sql_forms::form::read_form;
use sql_lexer::laws::spans_in_order;
use sql_lexer::token::{Span, Spans};
use std::alloc::{AllocError, Global};

fn text_of(alloc: Global, script: &[u8], span: &Span) -> Result<Txt, AllocError>
    requires { (span.now.from ≤ span.now.to) × (span.now.to ≤ length script.now) }
    ensures { IfOk result (λ t. t ≡ bytes_of script.now span.now) }
{
    copy_text(alloc, &script[span.from as usize..span.to as usize])
}

/// A statement of a script by its number, or none behind the last.
pub(crate) fn statement(
    alloc: Global,
    script: &Txt,
    spans: &Spans,
    n: usize,
) -> Result<Option<Txt>, AllocError>
    requires { spans.now ≡ spans_of script.now }
    ensures text { IfOk result (λ t. t ≡ slice_get (statements_of script.now) n) }
    ensures past { IfOk result (λ t. IfNone t (length spans.now ≤ n)) }
    ensures small { IfOk result (λ t. IfSome t (λ x. n + 1 < 2 ^ 64)) }
{
    spans_in_order(script.as_slice());
    match spans.as_slice().get(n) {
        Some(span) => {
            let text = text_of(alloc, script.as_slice(), span)?;
            Ok(Some(text))
        }
        None => Ok(None),
    }
}

/// What a text asks for: a command, or a statement over tables.
pub(crate) fn order(alloc: Global, text: &[u8]) -> Result<Option<Order>, AllocError>
    requires { length text.now < 2 ^ 32 }
    ensures { IfOk result (λ o. o ≡ order_of text.now) }
{
    if let Some(command) = read_command(alloc, text)? {
        return Ok(Some(Order::Command(command)));
    }
    match read_form(alloc, text)? {
        Some(form) => Ok(Some(Order::Form(form))),
        None => Ok(None),
    }
}
