//! A condition evaluated again and again, for a clock outside.
//!
//! A line of standard input says over how many rows, as in `1000`; its answer is how many of them the condition lets through.
#![tactic(auto)]

mod condition;

use std::alloc::{AllocError, Global};
use std::io;

fn main(rt: HostRuntime) -> io::Result<()> {
    for line in rt.lines(rt.alloc()) {
        let found = answer(rt.alloc(), line?.as_str())?;
        println!(rt; "{found}")?;
    }
    Ok(())
}

/// The answer to a line; 0 where it is no number.
fn answer(alloc: Global, line: &str) -> Result<u64, AllocError> {
    match line.trim().parse::<u32>() {
        Ok(rows) => condition::count_rows(alloc, rows),
        Err(_) => Ok(0),
    }
}
