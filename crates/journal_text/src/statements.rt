//! The text of a journal: its connections, one after the other, and what each was told.

ghost use Rattle.std.specs.Prelude.{◌≡◌, ◌==◌, ◌<◌, ◌^◌, ◌-◌};
ghost use Rattle.journal_model.specs.Text.{idle, is_asked, left_text, when_acknowledged, when_rolled_back, waiting_after, acknowledged_text, rolled_back_text, printed_at, statements_text, connection_text, text_of};
ghost use Rattle.journal_text.specs.Printing.{Prints};
ghost use Rattle.journal_text.specs.Hearing.{waiting_of};

use crate::answers::{put_answer, put_counted, put_refusal};
use crate::outbox::Outbox;
use dby_types::answer::Answer;
use dby_types::number::TxnNo;
use device::Sink;
use journal_model::journal::{Entry, Refusal};

/// What a connection waits for.
#[derive(Clone, Copy)]
pub enum Hearing<'a> {
    Idle,
    Asked(TxnNo),
    Answered(TxnNo, &'a Answer),
    Refused(TxnNo, &'a Refusal),
}

fn is_same(a: TxnNo, b: TxnNo) -> bool
    ensures { result ≡ (a.0 == b.0) }
{
    a.0 == b.0
}

/// Whether the connection's statement was asked in this transaction.
fn asked_in(hearing: Hearing, txn: TxnNo) -> bool
    ensures { result ≡ is_asked txn.0 (waiting_of hearing.entry) }
{
    match hearing {
        Hearing::Asked(t) => is_same(t, txn),
        _ => false,
    }
}

/// Behind the acknowledgement of a transaction.
fn acknowledged(hearing: Hearing, txn: TxnNo) -> Hearing
    ensures { waiting_of result ≡ when_acknowledged txn.0 (waiting_of hearing.entry) }
{
    match hearing {
        Hearing::Answered(t, _) => if is_same(t, txn) {
            Hearing::Idle
        } else {
            hearing
        },
        _ => hearing,
    }
}

/// Behind the rollback of a transaction.
fn rolled_back(hearing: Hearing, txn: TxnNo) -> Hearing
    ensures { waiting_of result ≡ when_rolled_back txn.0 (waiting_of hearing.entry) }
{
    match hearing {
        Hearing::Refused(t, _) => if is_same(t, txn) {
            Hearing::Idle
        } else {
            hearing
        },
        _ => hearing,
    }
}

/// What the connection waits for behind an entry.
fn after<'a>(conn: u32, hearing: Hearing<'a>, entry: &'a Entry) -> Hearing<'a>
    ensures { waiting_of result ≡ waiting_after conn (waiting_of hearing.entry) entry.now }
{
    match entry {
        Entry::Started { txn, conn: of, .. } => {
            if of.0 == conn {
                Hearing::Asked(*txn)
            } else {
                hearing
            }
        }
        Entry::Answered { txn, answer, .. } => {
            if asked_in(hearing, *txn) {
                Hearing::Answered(*txn, answer)
            } else {
                hearing
            }
        }
        Entry::Refused { txn, why } => {
            if asked_in(hearing, *txn) {
                Hearing::Refused(*txn, why)
            } else {
                hearing
            }
        }
        Entry::Acknowledged(txn) => acknowledged(hearing, *txn),
        Entry::RolledBack(txn) => rolled_back(hearing, *txn),
        _ => hearing,
    }
}

/// Prints what a statement that is not told leaves.
fn put_left<K: Sink>(out: &mut Outbox, sink: &mut K, hearing: Hearing)
    ensures { Prints (K.seen sink.old) out.old (K.seen sink.new) out.new (left_text (waiting_of hearing.entry)) }
{
    match hearing {
        Hearing::Idle => {}
        _ => out.put(sink, b"NOT ANSWERED\n"),
    }
}

/// Prints the answer that waited for this transaction's acknowledgement.
fn put_acknowledged<K: Sink>(out: &mut Outbox, sink: &mut K, hearing: Hearing, txn: TxnNo)
    ensures { Prints (K.seen sink.old) out.old (K.seen sink.new) out.new (acknowledged_text txn.0 (waiting_of hearing.entry)) }
{
    if let Hearing::Answered(t, answer) = hearing {
        if is_same(t, txn) {
            put_answer(out, sink, answer);
        }
    }
}

/// Prints the refusal that waited for this transaction's rollback.
fn put_rolled_back<K: Sink>(out: &mut Outbox, sink: &mut K, hearing: Hearing, txn: TxnNo)
    ensures { Prints (K.seen sink.old) out.old (K.seen sink.new) out.new (rolled_back_text txn.0 (waiting_of hearing.entry)) }
{
    if let Hearing::Refused(t, why) = hearing {
        if is_same(t, txn) {
            put_refusal(out, sink, why);
        }
    }
}

/// Prints what a connection is told at an entry.
fn put_entry<K: Sink>(out: &mut Outbox, sink: &mut K, conn: u32, hearing: Hearing, entry: &Entry)
    ensures { Prints (K.seen sink.old) out.old (K.seen sink.new) out.new (printed_at conn (waiting_of hearing.entry) entry.now) }
{
    match entry {
        Entry::Started { conn: of, .. } => {
            if of.0 == conn {
                put_left(out, sink, hearing);
            }
        }
        Entry::Acknowledged(txn) => put_acknowledged(out, sink, hearing, *txn),
        Entry::RolledBack(txn) => put_rolled_back(out, sink, hearing, *txn),
        _ => {}
    }
}

/// Prints the statements of a connection.
fn put_statements<K: Sink>(out: &mut Outbox, sink: &mut K, conn: u32, entries: &[Entry])
    ensures { Prints (K.seen sink.old) out.old (K.seen sink.new) out.new (statements_text conn idle entries.now) }
{
    let mut hearing = Hearing::Idle;
    for entry in entries {
        put_entry(out, sink, conn, hearing, entry);
        hearing = after(conn, hearing, entry);
    }
    put_left(out, sink, hearing);
}

/// Prints the heading of a connection, and its statements.
fn put_connection<K: Sink>(out: &mut Outbox, sink: &mut K, conn: u32, entries: &[Entry])
    ensures { Prints (K.seen sink.old) out.old (K.seen sink.new) out.new (connection_text entries.now conn) }
{
    put_counted(out, sink, b"## connection ", u64::from(conn));
    put_statements(out, sink, conn, entries);
}

/// Prints the text of a journal of so many connections.
pub fn put_journal<K: Sink>(out: &mut Outbox, sink: &mut K, conns: u32, entries: &[Entry])
    requires { conns < 2 ^ 32 - 1 }
    ensures { Prints (K.seen sink.old) out.old (K.seen sink.new) out.new (text_of conns entries.now) }
{
    for conn in 0..conns {
        put_connection(out, sink, conn + 1, entries);
    }
}
