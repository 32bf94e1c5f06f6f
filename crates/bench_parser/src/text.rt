//! The texts that are read.

use std::alloc::{AllocError, Global};

/// What a text is made of.
#[derive(Clone, Copy)]
pub enum Shape {
    /// An INSERT of tuples.
    Insert,
    /// A short DELETE.
    Short,
    /// Opening brackets.
    Open,
    Not,
    Minus,
    /// A chain of sums.
    Chain,
}

/// What a text begins with, and what follows again and again.
fn pieces(shape: Shape) -> (&'static str, &'static str) {
    match shape {
        Shape::Insert => ("INSERT INTO T VALUES (1,'abc')", ",(1,'abc')"),
        Shape::Short => ("DELETE FROM T WHERE A = 1", ""),
        Shape::Open => ("DELETE FROM T WHERE ", "("),
        Shape::Not => ("DELETE FROM T WHERE ", "NOT "),
        Shape::Minus => ("DELETE FROM T WHERE ", "- "),
        Shape::Chain => ("DELETE FROM T WHERE 1", "+1"),
    }
}

/// How often a piece stands in so many bytes.
fn often(bytes: u32, piece: &str) -> usize {
    if piece.is_empty() {
        0
    } else {
        bytes as usize / piece.len()
    }
}

/// A text of about so many bytes.
pub fn text(alloc: Global, shape: Shape, bytes: u32) -> Result<String, AllocError> {
    let (head, piece) = pieces(shape);
    let mut text = String::new(alloc);
    text.push_str(head)?;
    for _ in 0..often(bytes, piece) {
        text.push_str(piece)?;
    }
    Ok(text)
}
