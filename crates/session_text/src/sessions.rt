//! The text of a journal: its connections, one after the other, and what each was told.

ghost use Rattle.std.specs.Prelude.{◌≡◌, ◌<◌, ◌^◌, ◌-◌};
ghost use Rattle.journal_model.specs.Text.{told_text};
ghost use Rattle.journal_text.specs.Printing.{Prints};
ghost use Rattle.session_text.specs.Hearing.{stage_of, told_of, waiting_of, hearing_of};
ghost use Rattle.session_text.specs.Text.{silence, left_text, told_here, answered_text, refused_text, acknowledged_text, rolled_back_text, own_text, printed_at, statements_text, connection_text, text_of};

use crate::hearing::{End, Hearing, Told, Waiting, after, end_of, end_of_refusal, is_own};
use dby_types::answer::Answer;
use device::Sink;
use journal_model::journal::{Entry, Refusal};
use journal_text::answers::{put_answer, put_counted, put_refusal};
use journal_text::outbox::Outbox;

/// Prints what a statement that is not told leaves.
fn put_left<K: Sink>(out: &mut Outbox, sink: &mut K, waiting: Waiting)
    ensures { Prints (K.seen sink.old) out.old (K.seen sink.new) out.new (left_text (waiting_of waiting.entry)) }
{
    match waiting {
        Waiting::Idle => {}
        _ => out.put(sink, b"NOT ANSWERED\n"),
    }
}

/// Prints what a statement is told.
fn put_told<K: Sink>(out: &mut Outbox, sink: &mut K, told: Told)
    ensures { Prints (K.seen sink.old) out.old (K.seen sink.new) out.new (told_text (told_of told.entry)) }
{
    match told {
        Told::Answer(answer) => put_answer(out, sink, answer),
        Told::Refusal(why) => put_refusal(out, sink, why),
    }
}

/// Prints it where it is told here.
fn put_here<K: Sink>(out: &mut Outbox, sink: &mut K, end: End, told: Told)
    ensures { Prints (K.seen sink.old) out.old (K.seen sink.new) out.new (told_here (stage_of end) (told_of told.entry)) }
{
    match end {
        End::Here => put_told(out, sink, told),
        _ => {}
    }
}

fn put_answered<K: Sink>(out: &mut Outbox, sink: &mut K, hearing: Hearing, answer: &Answer)
    ensures { Prints (K.seen sink.old) out.old (K.seen sink.new) out.new (answered_text hearing.entry.automatic (waiting_of hearing.entry.waiting) answer.now) }
{
    if let Waiting::Asked(text, first) = hearing.waiting {
        put_here(
            out,
            sink,
            end_of(text, hearing.automatic, first),
            Told::Answer(answer),
        );
    }
}

fn put_refused<K: Sink>(out: &mut Outbox, sink: &mut K, hearing: Hearing, why: &Refusal)
    ensures { Prints (K.seen sink.old) out.old (K.seen sink.new) out.new (refused_text hearing.entry.automatic (waiting_of hearing.entry.waiting) why.now) }
{
    if let Waiting::Asked(_text, first) = hearing.waiting {
        put_here(
            out,
            sink,
            end_of_refusal(why, hearing.automatic, first),
            Told::Refusal(why),
        );
    }
}

fn put_acknowledged<K: Sink>(out: &mut Outbox, sink: &mut K, waiting: Waiting)
    ensures { Prints (K.seen sink.old) out.old (K.seen sink.new) out.new (acknowledged_text (waiting_of waiting.entry)) }
{
    if let Waiting::Due(End::Commit, told) = waiting {
        put_told(out, sink, told);
    }
}

fn put_rolled_back<K: Sink>(out: &mut Outbox, sink: &mut K, waiting: Waiting)
    ensures { Prints (K.seen sink.old) out.old (K.seen sink.new) out.new (rolled_back_text (waiting_of waiting.entry)) }
{
    if let Waiting::Due(End::Rollback, told) = waiting {
        put_told(out, sink, told);
    }
}

/// Prints what is told at an entry of the connection's open transaction.
fn put_own<K: Sink>(out: &mut Outbox, sink: &mut K, hearing: Hearing, entry: &Entry)
    ensures { Prints (K.seen sink.old) out.old (K.seen sink.new) out.new (own_text (hearing_of hearing.entry) entry.now) }
{
    match entry {
        Entry::Answered { answer, .. } => put_answered(out, sink, hearing, answer),
        Entry::Refused { why, .. } => put_refused(out, sink, hearing, why),
        Entry::Acknowledged(_txn) => put_acknowledged(out, sink, hearing.waiting),
        Entry::RolledBack(_txn) => put_rolled_back(out, sink, hearing.waiting),
        _ => {}
    }
}

/// Prints what a connection is told at an entry.
fn put_entry<K: Sink>(out: &mut Outbox, sink: &mut K, conn: u32, hearing: Hearing, entry: &Entry)
    ensures { Prints (K.seen sink.old) out.old (K.seen sink.new) out.new (printed_at conn (hearing_of hearing.entry) entry.now) }
{
    match entry {
        Entry::Started { conn: of, .. } => {
            if of.0 == conn {
                put_left(out, sink, hearing.waiting);
            }
        }
        _ => {
            if is_own(hearing, entry) {
                put_own(out, sink, hearing, entry);
            }
        }
    }
}

/// Prints the statements of a connection.
fn put_statements<K: Sink>(out: &mut Outbox, sink: &mut K, conn: u32, entries: &[Entry])
    ensures { Prints (K.seen sink.old) out.old (K.seen sink.new) out.new (statements_text conn silence entries.now) }
{
    let mut hearing = Hearing {
        automatic: true,
        txn: None,
        waiting: Waiting::Idle,
    };
    for entry in entries {
        put_entry(out, sink, conn, hearing, entry);
        hearing = after(conn, hearing, entry);
    }
    put_left(out, sink, hearing.waiting);
}

/// Prints the heading of a connection, and its statements.
fn put_connection<K: Sink>(out: &mut Outbox, sink: &mut K, conn: u32, entries: &[Entry])
    ensures { Prints (K.seen sink.old) out.old (K.seen sink.new) out.new (connection_text entries.now conn) }
{
    put_counted(out, sink, b"## connection ", u64::from(conn));
    put_statements(out, sink, conn, entries);
}

/// Prints the text of a journal of so many connections.
pub fn put_sessions<K: Sink>(out: &mut Outbox, sink: &mut K, conns: u32, entries: &[Entry])
    requires { conns < 2 ^ 32 - 1 }
    ensures { Prints (K.seen sink.old) out.old (K.seen sink.new) out.new (text_of conns entries.now) }
{
    for conn in 0..conns {
        put_connection(out, sink, conn + 1, entries);
    }
}
