//! The text of an answer and of a refusal.

ghost use Rattle.std.specs.Prelude.{◌≡◌, ◌++◌, ◌∷◌, ℕ, length, flat_map};
ghost use Rattle.journal_model.specs.Text.{line, value_text, row_line, column_line, counted, answer_text, code_of, refusal_text};
ghost use Rattle.journal_text.specs.Printing.{Prints};

use crate::outbox::Outbox;
use dby_types::answer::Answer;
use dby_types::state::SqlState;
use dby_types::value::{Name, Row, Value};
use device::Sink;
use journal_model::journal::Refusal;

fn put_value<K: Sink>(out: &mut Outbox, sink: &mut K, value: &Value)
    ensures { Prints (K.seen sink.old) out.old (K.seen sink.new) out.new (value_text value.now) }
{
    match value {
        Value::Null => out.put(sink, b"NULL"),
        Value::Num(n) => out.put_number(sink, *n),
        Value::Bool(true) => out.put(sink, b"true"),
        Value::Bool(false) => out.put(sink, b"false"),
        Value::Text(text) => out.put(sink, text.as_slice()),
    }
}

fn put_more_values<K: Sink>(out: &mut Outbox, sink: &mut K, values: &[Value])
    ensures { Prints (K.seen sink.old) out.old (K.seen sink.new) out.new (flat_map (λ y. 124 ∷ value_text y) values.now) }
{
    for value in values {
        out.put(sink, b"|");
        put_value(out, sink, value);
    }
}

fn put_row<K: Sink>(out: &mut Outbox, sink: &mut K, row: &[Value])
    ensures { Prints (K.seen sink.old) out.old (K.seen sink.new) out.new (row_line row.now) }
{
    if let Some((first, rest)) = row.split_first() {
        put_value(out, sink, first);
        put_more_values(out, sink, rest);
    }
    out.put(sink, b"\n");
}

fn put_rows<K: Sink>(out: &mut Outbox, sink: &mut K, rows: &[Row])
    ensures { Prints (K.seen sink.old) out.old (K.seen sink.new) out.new (flat_map row_line rows.now) }
{
    for row in rows {
        put_row(out, sink, row.as_slice());
    }
}

fn put_more_names<K: Sink>(out: &mut Outbox, sink: &mut K, names: &[Name])
    ensures { Prints (K.seen sink.old) out.old (K.seen sink.new) out.new (flat_map (λ y. 124 ∷ y) names.now) }
{
    for name in names {
        out.put(sink, b"|");
        out.put(sink, name.as_slice());
    }
}

fn put_columns<K: Sink>(out: &mut Outbox, sink: &mut K, columns: &[Name])
    ensures { Prints (K.seen sink.old) out.old (K.seen sink.new) out.new (column_line columns.now) }
{
    if let Some((first, rest)) = columns.split_first() {
        out.put(sink, first.as_slice());
        put_more_names(out, sink, rest);
    }
    out.put(sink, b"\n");
}

/// Prints a line of a word and a number.
pub fn put_counted<K: Sink>(out: &mut Outbox, sink: &mut K, word: &[u8], count: u64)
    ensures { Prints (K.seen sink.old) out.old (K.seen sink.new) out.new (counted word.now count) }
{
    out.put(sink, word);
    out.put_count(sink, count);
    out.put(sink, b"\n");
}

/// Prints an answer.
pub fn put_answer<K: Sink>(out: &mut Outbox, sink: &mut K, answer: &Answer)
    ensures { Prints (K.seen sink.old) out.old (K.seen sink.new) out.new (answer_text answer.now) }
{
    match answer {
        Answer::Rows { columns, rows } => {
            put_columns(out, sink, columns.as_slice());
            put_rows(out, sink, rows.as_slice());
            put_counted(out, sink, b"ROWS ", rows.len() as u64);
        }
        Answer::Changed(n) => put_counted(out, sink, b"CHANGED ", *n),
        Answer::Done => out.put(sink, b"DONE\n"),
        Answer::Committed => out.put(sink, b"COMMITTED\n"),
        Answer::RolledBack => out.put(sink, b"ROLLED BACK\n"),
    }
}

/// The printed code of a refusal.
fn code(state: SqlState) -> &'static [u8]
    ensures { result.now ≡ code_of state }
{
    match state {
        SqlState::Deadlock => b"40001",
        SqlState::DuplicateKey => b"23505",
        SqlState::NullNotAllowed => b"23502",
        SqlState::TextTooLong => b"22001",
        SqlState::OutOfRange => b"22003",
        SqlState::DivisionByZero => b"22012",
        SqlState::Syntax { at: _ } => b"42X01",
        SqlState::NoTable => b"42X05",
        SqlState::NoColumn => b"42X04",
        SqlState::AmbiguousColumn => b"42X03",
        SqlState::NotInTarget => b"42X14",
        SqlState::ValueCount => b"42802",
        SqlState::NotComparable => b"42818",
        SqlState::NotStorable => b"42821",
        SqlState::NameExists => b"X0Y32",
        SqlState::NothingToDrop => b"42Y55",
        SqlState::NoParent => b"23503",
        SqlState::CheckFails => b"23513",
        SqlState::NotBuilt => b"PRL00",
        SqlState::PagesSpent => b"PRL01",
        SqlState::LogSpent => b"PRL02",
        SqlState::TooLarge => b"PRL03",
        SqlState::StatementTooLong => b"PRL04",
        SqlState::NameTwice => b"PRL05",
        SqlState::Grouping => b"PRL06",
        SqlState::WrongOperand => b"PRL07",
        SqlState::SecondPrimaryKey => b"PRL08",
        SqlState::CursorState => b"PRL09",
        SqlState::CursorQuery => b"PRL10",
        SqlState::CursorsSpent => b"PRL11",
        SqlState::CursorOpen => b"PRL12",
        SqlState::NoParentKey => b"PRL13",
        SqlState::IsParent => b"PRL14",
        SqlState::CheckTooLong => b"PRL15",
    }
}

/// Prints a refusal.
pub fn put_refusal<K: Sink>(out: &mut Outbox, sink: &mut K, why: &Refusal)
    ensures { Prints (K.seen sink.old) out.old (K.seen sink.new) out.new (refusal_text why.now) }
{
    match why {
        Refusal::Memory => out.put(sink, b"ERROR MEMORY\n"),
        Refusal::Sql { state, rows: _ } => {
            out.put(sink, b"ERROR ");
            out.put(sink, code(*state));
            out.put(sink, b"\n");
        }
    }
}
