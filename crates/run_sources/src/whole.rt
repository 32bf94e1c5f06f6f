//! A source is read to its end.

ghost use Rattle.std.specs.Prelude.{◌≡◌, ◌+◌, ◌<◌, ◌≤◌, ◌^◌, ◌-◌, ℕ, List, [], ◌∷◌, ◌++◌, length, vec_len};
ghost use Rattle.run_sources.specs.Whole.{WholeRead, FailsByCount, IsShort};

use device::{Failed, Source};
use std::alloc::Global;

/// The most bytes that a file may have.
pub const MOST: usize = 1_048_576;

/// What reading a file whole gives.
#[derive(Debug, Drop)]
pub enum FileRead {
    Whole(Vec<u8>),
    TooLong,
    Failed,
    Memory,
}

/// Reads a file to its end.
pub(crate) fn read_whole<S: Source>(alloc: Global, source: &mut S) -> FileRead
    ensures read { WholeRead (S.seen source.old).content (S.seen source.new).content result }
    ensures short { IsShort result }
    ensures cause { FailsByCount (S.seen source.old).faults (S.seen source.new).faults result }
{
    let mut bytes = Vec::new(alloc);
    let mut buffer = [0u8; 4096];
    for _ in 0..MOST + 2 {
        match source.read(&mut buffer) {
            Err(Failed) => return FileRead::Failed,
            Ok(0) => return FileRead::Whole(bytes),
            Ok(n) => {
                if bytes.extend_from_slice(&buffer[..n]).is_err() {
                    return FileRead::Memory;
                }
                if bytes.len() > MOST {
                    return FileRead::TooLong;
                }
            }
        }
    }
    FileRead::TooLong
}
