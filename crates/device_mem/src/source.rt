//! A script in memory.

ghost use Rattle.std.specs.Prelude.{◌≡◌, ◌≤◌, ◌++◌, ◌+◌, ℕ, List, Some, take, drop, length};
ghost use Rattle.device.specs.Streams.{SourceSeen, Content};

use crate::failing::Failing;
use device::{Failed, Source};

/// A script that is read from its bytes. Only a `MemHost` makes one.
#[derive(Debug, Drop)]
pub struct MemSource {
    bytes: Vec<u8>,
    read: usize,
    faults: u64,
    failing: Failing,
    ghost within: { read ≤ length bytes.items },
}

impl Source for MemSource {
    ghost seen = { λ s. record { content = Some (record { given = take s.read s.bytes.items; left = drop s.read s.bytes.items }); faults = s.faults } };

    fn read(&mut self, into: &mut [u8]) -> Result<usize, Failed> {
        if self.failing.is_next() {
            self.faults = self.faults.saturating_add(1);
            return Err(Failed);
        }
        let n = into.len().min(self.bytes.len() - self.read);
        into[..n].copy_from_slice(&self.bytes[self.read..self.read + n]);
        self.read += n;
        Ok(n)
    }

    fn faults(&self) -> u64 {
        self.faults
    }
}

impl MemSource {
    /// A source of these bytes, none of them read, which fails at the calls that `failing` lists.
    pub(crate) fn new(bytes: Vec<u8>, failing: Failing) -> MemSource
        ensures bytes { result.bytes.items ≡ bytes.items }
        ensures unread { result.read ≡ 0 }
        ensures well { result.faults ≡ 0 }
    {
        MemSource {
            bytes,
            read: 0,
            faults: 0,
            failing,
        }
    }
}
