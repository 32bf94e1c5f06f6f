//! Bytes on their way to a sink.

ghost use Rattle.std.specs.Prelude.{ℕ, List, ◌≡◌, ◌<◌, ◌≤◌, ◌++◌, ◌∷◌, [], length, true, false, IsTrue, ◌↔◌};
ghost use Rattle.std.specs.Bool.{OnTrue, OnFalse};
ghost use Rattle.device.specs.Streams.{SinkSeen};
ghost use Rattle.std.specs.Fmt.{decimal, signed_decimal};
ghost use Rattle.journal_text.specs.Printing.{TookAll, TookFront, Sends, Prints, Printed, Leaves};

use device::{Failed, Sink};
use itoa::Buffer;
use std::marker::Model;

/// The most bytes that wait.
pub const ROOM: usize = 4096;

/// Bytes that wait to be sent in one piece. Once the sink failed, or took none of a piece, nothing is sent any more.
#[derive(Drop)]
pub struct Outbox {
    buffer: [u8; ROOM],
    used: usize,
    failed: bool,
}

impl Model for Outbox {
    ghost use Rattle.std.specs.Prelude.{◌≤◌, take};
    ghost use Rattle.journal_text.specs.Printing.{Waits};

    ghost Value = { Waits };

    ghost view = { λ o. record { pending = take o.used o.buffer; failed = o.failed } };

    ghost invariant = { λ o. o.used ≤ 4096 };
}

/// Sends all of a piece; false where the sink failed, or took none of what was left.
fn send_all<K: Sink>(sink: &mut K, piece: &[u8]) -> bool
    ensures all { OnTrue result (TookAll (K.seen sink.old) (K.seen sink.new) piece.now) }
    ensures front { OnFalse result (TookFront (K.seen sink.old) (K.seen sink.new) piece.now) }
{
    let mut at = 0;
    while at < piece.len() {
        match sink.write(&piece[at..]) {
            Err(Failed) => return false,
            Ok(0) => return false,
            Ok(n) => at += n,
        }
    }
    true
}

/// Sends a piece, where the sink hasn't failed yet; whether it has failed by now.
fn send<K: Sink>(sink: &mut K, failed: bool, piece: &[u8]) -> bool
    ensures { Sends failed (K.seen sink.old) result (K.seen sink.new) piece.now }
{
    if failed {
        return true;
    }
    !send_all(sink, piece)
}

impl Outbox {
    /// Nothing waits.
    pub fn new() -> Outbox
        ensures empty { result.pending ≡ [] }
        ensures well { result.failed ≡ false }
    {
        Outbox {
            buffer: [0; ROOM],
            used: 0,
            failed: false,
        }
    }

    /// Sends what waits, where no byte more may wait.
    fn make_room<K: Sink>(&mut self, sink: &mut K)
        ensures prints { Prints (K.seen sink.old) self.old (K.seen sink.new) self.new [] }
        ensures room { length self.new.pending < 4096 }
    {
        if self.used == ROOM {
            self.flush(sink);
        }
    }

    fn take(&mut self, byte: u8)
        requires { length self.old.pending < 4096 }
        ensures pending { self.new.pending ≡ self.old.pending ++ byte ∷ [] }
        ensures same { self.new.failed ≡ self.old.failed }
    {
        self.buffer[self.used] = byte;
        self.used += 1;
    }

    /// Sends what waits.
    fn flush<K: Sink>(&mut self, sink: &mut K)
        ensures prints { Prints (K.seen sink.old) self.old (K.seen sink.new) self.new [] }
        ensures empty { self.new.pending ≡ [] }
    {
        self.failed = send(sink, self.failed, &self.buffer[..self.used]);
        self.used = 0;
    }

    /// Prints a piece.
    pub fn put<K: Sink>(&mut self, sink: &mut K, piece: &[u8])
        ensures { Prints (K.seen sink.old) self.old (K.seen sink.new) self.new piece.now }
    {
        for byte in piece {
            self.make_room(sink);
            self.take(*byte);
        }
    }

    /// Prints a number.
    pub fn put_number<K: Sink>(&mut self, sink: &mut K, number: i64)
        ensures { Prints (K.seen sink.old) self.old (K.seen sink.new) self.new (signed_decimal number) }
    {
        let mut digits = Buffer::new();
        self.put(sink, digits.format(number).as_bytes());
    }

    /// Prints a count.
    pub fn put_count<K: Sink>(&mut self, sink: &mut K, count: u64)
        ensures { Prints (K.seen sink.old) self.old (K.seen sink.new) self.new (decimal count) }
    {
        let mut digits = Buffer::new();
        self.put(sink, digits.format(count).as_bytes());
    }

    /// Sends what waits, and tells whether all that was printed went to the sink.
    pub fn finish<K: Sink>(mut self, sink: &mut K) -> bool
        ensures { (start : SinkSeen) (text : List ℕ) → Printed start (K.seen sink.old) self text → Leaves result start (K.seen sink.new) text }
    {
        self.flush(sink);
        !self.failed
    }
}
