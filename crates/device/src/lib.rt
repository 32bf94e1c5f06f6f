//! The outside: files that are read, the sink of the printed text, and the host that opens them.
//!
//! What a real file holds between two calls is not promised: clauses on content hold where content is told.
#![tactic(auto)]

mod storage;

ghost use Rattle.std.specs.Prelude.{◌≡◌, ◌≤◌, ℕ, List, length, IfOk};
ghost use Rattle.device.specs.Counts.{HasCause};
ghost use Rattle.device.specs.Streams.{SourceSeen, SinkSeen, HostSeen, Reads, Writes, unread};

pub use storage::Disk;

/// A call of the outside failed, and its object's count of faults rose.
#[derive(Clone, Copy, Debug, PartialEq, Eq)]
pub struct Failed;

/// A file that is read from its start to its end.
pub trait Source {
    /// Its content where it tells it, and its count of faults.
    ghost seen: { Self → SourceSeen };

    /// Moves bytes to the front of the buffer, and answers how many; 0 for a buffer that isn't empty is the end.
    fn read(&mut self, into: &mut [u8]) -> Result<usize, Failed>
        ensures within { IfOk result (λ n. n ≤ length into.old) }
        ensures reads { Reads (seen self.old).content (seen self.new).content result into.old into.new }
        ensures cause { HasCause (seen self.old).faults (seen self.new).faults result };

    /// How often it failed, up to the greatest count.
    fn faults(&self) -> u64
        ensures { result ≡ (seen self.now).faults };
}

/// What the text is printed to.
pub trait Sink {
    /// The bytes that it took where it tells them, and its counts.
    ghost seen: { Self → SinkSeen };

    /// Takes bytes of the front of the piece, and answers how many.
    fn write(&mut self, from: &[u8]) -> Result<usize, Failed>
        ensures { Writes (seen self.old) (seen self.new) from.now result };

    /// How often it failed, up to the greatest count.
    fn faults(&self) -> u64
        ensures { result ≡ (seen self.now).faults };
}

/// What opens databases and scripts by their names.
pub trait Host {
    type Disk: Drop;

    type Script: Source + Drop;

    /// The scripts where it tells them, and its count of faults.
    ghost seen: { Self → HostSeen };

    /// Opens the database of this name.
    fn open(&mut self, name: &str) -> Result<Self::Disk, Failed>
        ensures cause { HasCause (seen self.old).faults (seen self.new).faults result }
        ensures same { (seen self.new).scripts ≡ (seen self.old).scripts };

    /// Opens the script of this name, whose source has failed never yet.
    fn script(&mut self, name: &str) -> Result<Self::Script, Failed>
        ensures unread { IfOk result (λ s. (Self.Script.seen s).content ≡ unread ((seen self.old).scripts name.now)) }
        ensures well { IfOk result (λ s. (Self.Script.seen s).faults ≡ 0) }
        ensures cause { HasCause (seen self.old).faults (seen self.new).faults result }
        ensures same { (seen self.new).scripts ≡ (seen self.old).scripts };

    /// How often it failed, up to the greatest count.
    fn faults(&self) -> u64
        ensures { result ≡ (seen self.now).faults };
}
