//! The program: words, a plan, scripts, their run, the printed text, the status.
#![tactic(auto)]

mod ending;
mod inputs;
mod printing;
mod real;
mod running;
mod step;
#[cfg(test)]
mod tests;

use real::{FileHost, StreamSink};
use std::process::ExitCode;
use std::{env, io};
use step::derby_step;

fn main(rt: HostRuntime) -> io::Result<ExitCode> {
    let mut words = Vec::new(rt.alloc());
    for word in env::args(&rt)?.skip(1) {
        words.push(word)?;
    }
    let mut host = FileHost::new(&rt);
    let mut sink = StreamSink::new(io::writer(&rt));
    let run = derby_step(rt.alloc(), words.as_slice(), &mut host, &mut sink);
    Ok(ExitCode::from(run.status))
}
