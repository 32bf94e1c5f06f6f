//! Statements' texts read again and again, for a clock outside.
//!
//! A line of standard input names a text, its length in bytes and how often it is read, as in `insert 30000 5`; its answer is how often
//! the reading ended as it has to.
#![tactic(auto)]

mod reading;
mod text;

use std::alloc::{AllocError, Global};
use std::io;
use text::Shape;

fn main(rt: HostRuntime) -> io::Result<()> {
    for line in rt.lines(rt.alloc()) {
        let answer = answer(rt.alloc(), line?.as_str())?;
        println!(rt; "{answer}")?;
    }
    Ok(())
}

/// The answer to a line; 0 where it names no text.
fn answer(alloc: Global, line: &str) -> Result<u64, AllocError> {
    let Some((name, numbers)) = line.split_once(' ') else {
        return Ok(0);
    };
    let Some((bytes, times)) = numbers.split_once(' ') else {
        return Ok(0);
    };
    let (Ok(bytes), Ok(times)) = (bytes.trim().parse::<u32>(), times.trim().parse::<u32>()) else {
        return Ok(0);
    };
    match name {
        "insert" => reading::count(alloc, Shape::Insert, bytes, times),
        "short" => reading::count(alloc, Shape::Short, bytes, times),
        "open" => reading::count(alloc, Shape::Open, bytes, times),
        "not" => reading::count(alloc, Shape::Not, bytes, times),
        "minus" => reading::count(alloc, Shape::Minus, bytes, times),
        "chain" => reading::count(alloc, Shape::Chain, bytes, times),
        _ => Ok(0),
    }
}
