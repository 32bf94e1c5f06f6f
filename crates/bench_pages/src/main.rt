//! Pages and rows worked on again and again, for a clock outside.
//!
//! A line of standard input names a work and how often, as in `seal 1000`; its answer is a number that stands on all that was done.
#![tactic(auto)]

mod pages;
mod rows;

use std::alloc::{AllocError, Global};
use std::io;

fn main(rt: HostRuntime) -> io::Result<()> {
    for line in rt.lines(rt.alloc()) {
        let answer = answer(rt.alloc(), line?.as_str())?;
        println!(rt; "{answer}")?;
    }
    Ok(())
}

/// The answer to a line; 0 where it names no work.
fn answer(alloc: Global, line: &str) -> Result<u64, AllocError> {
    let Some((work, number)) = line.split_once(' ') else {
        return Ok(0);
    };
    let Ok(times) = number.trim().parse::<u32>() else {
        return Ok(0);
    };
    match work {
        "fill" => Ok(pages::fill_again(times)),
        "seal" => Ok(pages::seal_again(times)),
        "read" => Ok(pages::read_again(times)),
        "write_row" => rows::write_again(alloc, times),
        "read_row" => rows::read_again(alloc, times),
        _ => Ok(0),
    }
}
