//! Log records appended, forced, read and summed again and again, for a clock outside.
//!
//! A line of standard input names a work, how often it is done and the bytes of a row's text, as in `appends 1000 40`; its answer is a number
//! that stands on all that was done.
#![tactic(auto)]

mod work;

use std::alloc::{AllocError, Global};
use std::io;

fn main(rt: HostRuntime) -> io::Result<()> {
    for line in rt.lines(rt.alloc()) {
        let answer = answer(rt.alloc(), line?.as_str())?;
        println!(rt; "{answer}")?;
    }
    Ok(())
}

/// The answer to a line; 0 where it names no work.
fn answer(alloc: Global, line: &str) -> Result<u64, AllocError> {
    let Some((work, numbers)) = line.split_once(' ') else {
        return Ok(0);
    };
    let Some((often, long)) = numbers.split_once(' ') else {
        return Ok(0);
    };
    let (Ok(times), Ok(bytes)) = (often.trim().parse::<u32>(), long.trim().parse::<u32>()) else {
        return Ok(0);
    };
    match work {
        "appends" => work::appends(alloc, times, bytes, false),
        "forced" => work::forced(alloc, times, bytes),
        "reads" => work::reads(alloc, times, bytes),
        "sums" => work::sums(alloc, times),
        _ => Ok(0),
    }
}
