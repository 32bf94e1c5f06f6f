//! A text read again and again.

use crate::text::{Shape, text};
use sql_parser::parse::{ParseAnswer, parse};
use std::alloc::{AllocError, Global};

/// Whether a text of this shape is a statement; else it is too deep.
fn is_statement(shape: Shape) -> bool {
    match shape {
        Shape::Insert => true,
        Shape::Short => true,
        Shape::Open => false,
        Shape::Not => false,
        Shape::Minus => false,
        Shape::Chain => false,
    }
}

/// Whether a text is read as it has to be.
fn reads(alloc: Global, text: &str, shape: Shape) -> bool {
    if text.len() > 1000000 {
        return false;
    }
    match parse(alloc, text) {
        Ok(_statement) => is_statement(shape),
        Err(ParseAnswer::Deep) => !is_statement(shape),
        Err(ParseAnswer::Syntax { at: _ }) => false,
        Err(ParseAnswer::Memory) => false,
    }
}

/// How often of so many times a text of this shape and length is read as it has to be.
pub fn count(alloc: Global, shape: Shape, bytes: u32, times: u32) -> Result<u64, AllocError> {
    let text = text(alloc, shape, bytes)?;
    let mut found = 0_u64;
    for _ in 0..times {
        if reads(alloc, text.as_str(), shape) {
            found = found.wrapping_add(1);
        }
    }
    Ok(found)
}
