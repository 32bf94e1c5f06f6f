//! Locks taken and given back again and again, for a clock outside.
//!
//! A line of standard input names a work, how often it is done, how many names 64 other transactions hold meanwhile, and how many
//! others wait meanwhile, each for a name of its own, as in `rows 1000 0 63`; its answer is a number that stands on all that was
//! done.
#![tactic(auto)]

mod work;

use std::alloc::{AllocError, Global};
use std::io;

fn main(rt: HostRuntime) -> io::Result<()> {
    for line in rt.lines(rt.alloc()) {
        let answer = answer(rt.alloc(), line?.as_str())?;
        println!(rt; "{answer}")?;
    }
    Ok(())
}

/// The answer to a line; 0 where it names no work.
fn answer(alloc: Global, line: &str) -> Result<u64, AllocError> {
    let Some((work, numbers)) = line.split_once(' ') else {
        return Ok(0);
    };
    let Some((often, meanwhile)) = numbers.split_once(' ') else {
        return Ok(0);
    };
    let Some((held, asked)) = meanwhile.split_once(' ') else {
        return Ok(0);
    };
    let (Ok(times), Ok(others), Ok(waiters)) = (
        often.parse::<u32>(),
        held.parse::<u32>(),
        asked.trim().parse::<u32>(),
    ) else {
        return Ok(0);
    };
    let mut l = work::beside(alloc, others, waiters)?;
    match work {
        "rows" => work::rows(&mut l, times),
        "rows_all" => work::rows_all(&mut l, times),
        "asks" => work::asks(&mut l, times),
        "shared" => work::shared(&mut l, times),
        "hands" => work::hands(&mut l, times),
        "chain" => work::chain(&mut l, times),
        "ring" => work::ring(&mut l, times),
        _ => Ok(0),
    }
}
