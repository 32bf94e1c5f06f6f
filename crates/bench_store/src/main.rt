//! Rows put, read, scanned, set and taken back, for a clock outside.
//!
//! A line of standard input names a work, how many rows there are and how often the work is done with each, as in `read 1000 5`; its
//! answer is how often it was done.
#![tactic(auto)]

mod work;

use std::alloc::{AllocError, Global};
use std::io;
use work::{Work, done};

fn main(rt: HostRuntime) -> io::Result<()> {
    for line in rt.lines(rt.alloc()) {
        let answer = answer(rt.alloc(), line?.as_str())?;
        println!(rt; "{answer}")?;
    }
    Ok(())
}

/// The answer to a line; 0 where it names no work.
fn answer(alloc: Global, line: &str) -> Result<u64, AllocError> {
    let Some((name, numbers)) = line.split_once(' ') else {
        return Ok(0);
    };
    let Some((many, often)) = numbers.split_once(' ') else {
        return Ok(0);
    };
    let (Ok(rows), Ok(times)) = (many.trim().parse::<u32>(), often.trim().parse::<u32>()) else {
        return Ok(0);
    };
    match name {
        "put" => done(alloc, Work::Put, rows, times),
        "read" => done(alloc, Work::Read, rows, times),
        "scan" => done(alloc, Work::Scan, rows, times),
        "set" => done(alloc, Work::Set, rows, times),
        "undo" => done(alloc, Work::Undo, rows, times),
        _ => Ok(0),
    }
}
