//! What a run owes is printed, piece by piece, and the status is that of its ending.

ghost use Rattle.std.specs.Prelude.{◌≡◌, ◌≤◌, ◌++◌, IfSome, codes, length, map, slice_index_or, [], string_bytes};
ghost use Rattle.std.specs.Fmt.{decimal};
ghost use Rattle.journal_model.specs.Text.{line};
ghost use Rattle.journal_text.specs.Printing.{Prints};
ghost use Rattle.derby.specs.Text.{last_line, input_line, file_line, journal_text, status_of, status_of_input, status_of_file, faulted, Tells};

use crate::ending::{Ending, InputError};
use device::Sink;
use journal_text::answers::put_counted;
use journal_text::outbox::Outbox;
use run_sources::files::ReadError;
use session_model::journal::Journal;
use session_text::sessions::put_sessions;

/// Prints a line of a text and a name.
fn put_named<K: Sink>(out: &mut Outbox, sink: &mut K, text: &[u8], name: &[u8])
    ensures { Prints (K.seen sink.old) out.old (K.seen sink.new) out.new (line (text.now ++ name.now)) }
{
    out.put(sink, text);
    out.put(sink, name);
    out.put(sink, b"\n");
}

/// Prints why a file isn't read.
fn put_file<K: Sink>(out: &mut Outbox, sink: &mut K, why: ReadError, name: &[u8])
    ensures { Prints (K.seen sink.old) out.old (K.seen sink.new) out.new (file_line why name.now) }
{
    match why {
        ReadError::Failed => put_named(out, sink, b"derby: cannot read ", name),
        ReadError::TooLong => put_named(out, sink, b"derby: too long ", name),
        ReadError::NotText => put_named(out, sink, b"derby: not UTF-8 ", name),
        ReadError::Memory => out.put(sink, b"derby: out of memory\n"),
    }
}

/// Prints the number of scripts, and how many there may be.
fn put_crowded<K: Sink>(out: &mut Outbox, sink: &mut K, scripts: u64)
    ensures { Prints (K.seen sink.old) out.old (K.seen sink.new) out.new (line (codes "derby: " ++ decimal scripts ++ codes " connections, limit 64")) }
{
    out.put(sink, b"derby: ");
    out.put_count(sink, scripts);
    out.put(sink, b" connections, limit 64\n");
}

/// The bytes of a name; none where there is no such name.
fn name_at(names: &[String], at: usize) -> &[u8]
    ensures { result.now ≡ slice_index_or (map string_bytes names.now) at [] }
{
    match names.get(at) {
        Some(name) => name.as_bytes(),
        None => &[],
    }
}

/// Prints why a run didn't begin.
fn put_input<K: Sink>(
    out: &mut Outbox,
    sink: &mut K,
    error: InputError,
    plan: &str,
    scripts: &[String],
)
    ensures { Prints (K.seen sink.old) out.old (K.seen sink.new) out.new (input_line error plan.now (map string_bytes scripts.now)) }
{
    match error {
        InputError::Plan(why) => put_file(out, sink, why, plan.as_bytes()),
        InputError::Malformed(number) => put_counted(out, sink, b"derby: plan line ", number),
        InputError::Script(error) => put_file(out, sink, error.why, name_at(scripts, error.file)),
        InputError::Crowded(scripts) => put_crowded(out, sink, scripts as u64),
        InputError::Starved => out.put(sink, b"derby: out of memory\n"),
    }
}

/// Prints the last line of a run.
fn put_last<K: Sink>(out: &mut Outbox, sink: &mut K, ending: Ending, plan: &str, scripts: &[String])
    ensures { Prints (K.seen sink.old) out.old (K.seen sink.new) out.new (last_line ending plan.now (map string_bytes scripts.now)) }
{
    match ending {
        Ending::Usage => out.put(sink, b"derby: usage\n"),
        Ending::Unready(error) => put_input(out, sink, error, plan, scripts),
        Ending::Cut => out.put(sink, b"derby: out of memory\n"),
        Ending::Ran => {}
    }
}

/// Prints the text of the journal, where there is one, of so many connections.
fn put_text<K: Sink>(out: &mut Outbox, sink: &mut K, conns: usize, journal: &Option<Journal>)
    requires { IfSome journal.now (λ j. conns ≤ 64) }
    ensures { Prints (K.seen sink.old) out.old (K.seen sink.new) out.new (journal_text conns journal.now) }
{
    if let Some(journal) = journal {
        put_sessions(out, sink, conns as u32, journal.entries.as_slice());
    }
}

fn file_status(why: ReadError) -> u8
    ensures { result ≡ status_of_file why }
{
    match why {
        ReadError::Failed => 2,
        ReadError::TooLong => 7,
        ReadError::NotText => 7,
        ReadError::Memory => 6,
    }
}

fn input_status(error: InputError) -> u8
    ensures { result ≡ status_of_input error }
{
    match error {
        InputError::Plan(why) => file_status(why),
        InputError::Malformed(_line) => 7,
        InputError::Script(error) => file_status(error.why),
        InputError::Crowded(_scripts) => 8,
        InputError::Starved => 6,
    }
}

/// The status where all was printed.
fn status(ending: Ending) -> u8
    ensures { result ≡ status_of ending }
{
    match ending {
        Ending::Usage => 1,
        Ending::Unready(error) => input_status(error),
        Ending::Cut => 6,
        Ending::Ran => 0,
    }
}

/// The status where the sink failed, or took none of a piece.
fn status_at_fault(ending: Ending) -> u8
    ensures { result ≡ faulted ending }
{
    match ending {
        Ending::Usage => 1,
        Ending::Unready(error) => input_status(error),
        Ending::Cut => 6,
        Ending::Ran => 4,
    }
}

/// Prints the journal's text and the last line, and answers the status.
pub(crate) fn print_run<K: Sink>(
    sink: &mut K,
    ending: Ending,
    journal: &Option<Journal>,
    plan: &str,
    scripts: &[String],
) -> u8
    requires { IfSome journal.now (λ j. length scripts.now ≤ 64) }
    ensures { Tells ending result (K.seen sink.old) (K.seen sink.new) (journal_text (length scripts.now) journal.now ++ last_line ending plan.now (map string_bytes scripts.now)) }
{
    let mut out = Outbox::new();
    put_text(&mut out, sink, scripts.len(), journal);
    put_last(&mut out, sink, ending, plan, scripts);
    if out.finish(sink) {
        status(ending)
    } else {
        status_at_fault(ending)
    }
}
