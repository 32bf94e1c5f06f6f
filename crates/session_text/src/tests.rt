//! Two connections, as journals: the second is answered, or is not when the plan ends; and each write failing in turn.

use crate::sessions::put_sessions;
use dby_types::answer::Answer;
use dby_types::number::{ConnNo, Level, TxnNo};
use dby_types::seq::Seq;
use dby_types::state::SqlState;
use dby_types::value::Value;
use device_mem::sink::MemSink;
use journal_model::journal::{Entry, Refusal};
use journal_text::outbox::Outbox;
use sql_ast::statement::Statement;
use std::alloc::{AllocError, Global};
use std::test::Fail;

/// What a statement asks for.
#[derive(Clone, Copy)]
enum Asks {
    Table,
    Off,
    Row,
    Rows,
    Commit,
    NoTable,
    Rollback,
}

fn text_of(asks: Asks) -> &'static str {
    match asks {
        Asks::Table => "CREATE TABLE T(A INT)",
        Asks::Off => "autocommit off",
        Asks::Row => "INSERT INTO T VALUES (1)",
        Asks::Rows => "SELECT * FROM T",
        Asks::Commit => "commit",
        Asks::NoTable => "SELECT * FROM U",
        Asks::Rollback => "rollback",
    }
}

/// What a transaction of the journal does.
#[derive(Clone, Copy)]
enum Deed {
    Begins(u32, Asks),
    Done,
    Changes,
    Reads,
    TellsCommit,
    TellsRollback,
    Refuses,
    Commits,
    Acknowledges,
    RollsBack,
}

use Deed::{
    Acknowledges, Begins, Changes, Commits, Done, Reads, Refuses, RollsBack, TellsCommit,
    TellsRollback,
};

fn answered(alloc: Global, txn: TxnNo, answer: Answer) -> Entry {
    Entry::Answered {
        txn,
        answer,
        joined: Seq::new(alloc),
        from: 0,
        to: 0,
    }
}

/// One column A, and one row 1.
fn rows(alloc: Global) -> Result<Answer, AllocError> {
    let mut name = Seq::new(alloc);
    name.push(b'A')?;
    let mut columns = Seq::new(alloc);
    columns.push(name)?;
    let mut row = Seq::new(alloc);
    row.push(Value::Num(1))?;
    let mut rows = Seq::new(alloc);
    rows.push(row)?;
    Ok(Answer::Rows { columns, rows })
}

fn entry(alloc: Global, number: u64, deed: Deed) -> Result<Entry, AllocError> {
    let txn = TxnNo(number);
    Ok(match deed {
        Begins(conn, asks) => {
            let mut bytes = Vec::new(alloc);
            bytes.extend_from_slice(text_of(asks).as_bytes())?;
            Entry::Started {
                txn,
                conn: ConnNo(conn),
                level: Level::Cs,
                statement: Statement::Unread(Seq::from_vec(bytes)),
            }
        }
        Done => answered(alloc, txn, Answer::Done),
        Changes => answered(alloc, txn, Answer::Changed(1)),
        Reads => answered(alloc, txn, rows(alloc)?),
        TellsCommit => answered(alloc, txn, Answer::Committed),
        TellsRollback => answered(alloc, txn, Answer::RolledBack),
        Refuses => Entry::Refused {
            txn,
            why: Refusal::Sql {
                state: SqlState::NoTable,
                rows: Seq::new(alloc),
            },
        },
        Commits => Entry::Committed(txn),
        Acknowledges => Entry::Acknowledged(txn),
        RollsBack => Entry::RolledBack(txn),
    })
}

fn entries(alloc: Global, deeds: &[(u64, Deed)]) -> Result<Vec<Entry>, AllocError> {
    let mut found = Vec::new(alloc);
    for (number, deed) in deeds {
        found.push(entry(alloc, *number, *deed)?)?;
    }
    Ok(found)
}

/// A table is made, and a row is put with autocommit off; the second connection begins to read.
const BEGUN: [(u64, Deed); 11] = [
    (1, Begins(1, Asks::Table)),
    (1, Done),
    (1, Commits),
    (1, Acknowledges),
    (2, Begins(1, Asks::Off)),
    (2, Done),
    (2, Commits),
    (2, Acknowledges),
    (3, Begins(1, Asks::Row)),
    (3, Changes),
    (4, Begins(2, Asks::Rows)),
];

/// The first commits, and the second reads the row.
const READ: [(u64, Deed); 7] = [
    (3, Begins(1, Asks::Commit)),
    (3, TellsCommit),
    (3, Commits),
    (3, Acknowledges),
    (4, Reads),
    (4, Commits),
    (4, Acknowledges),
];

/// The plan ends there.
const CLOSED: [(u64, Deed); 2] = [(3, RollsBack), (4, RollsBack)];

/// A refusal that leaves its transaction open, and a rollback.
const BACK: [(u64, Deed); 7] = [
    (3, Begins(1, Asks::NoTable)),
    (3, Refuses),
    (3, Begins(1, Asks::Rollback)),
    (3, TellsRollback),
    (3, RollsBack),
    (4, Refuses),
    (4, RollsBack),
];

/// What is printed of the journal that begins so and goes on with these deeds; None where the sink failed.
fn printed(alloc: Global, rest: &[(u64, Deed)]) -> Result<Option<MemSink>, AllocError> {
    let mut journal = entries(alloc, BEGUN.as_slice())?;
    for (number, deed) in rest {
        journal.push(entry(alloc, *number, *deed)?)?;
    }
    let mut sink = MemSink::new(alloc);
    let mut out = Outbox::new();
    put_sessions(&mut out, &mut sink, 2, journal.as_slice());
    if out.finish(&mut sink) {
        Ok(Some(sink))
    } else {
        Ok(None)
    }
}

#[test]
fn prints_a_reader(rt: HostRuntime) -> Result<(), Fail> {
    let sink = printed(rt.alloc(), READ.as_slice())?;
    assert!(rt; sink.is_some());
    if let Some(sink) = sink {
        assert_eq!(rt;
            sink.bytes(),
            b"## connection 1\nDONE\nDONE\nCHANGED 1\nCOMMITTED\n## connection 2\nA\n1\nROWS 1\n".as_slice()
        );
    }
    Ok(())
}

#[test]
fn prints_what_is_not_answered(rt: HostRuntime) -> Result<(), Fail> {
    let sink = printed(rt.alloc(), CLOSED.as_slice())?;
    assert!(rt; sink.is_some());
    if let Some(sink) = sink {
        assert_eq!(rt;
            sink.bytes(),
            b"## connection 1\nDONE\nDONE\nCHANGED 1\n## connection 2\nNOT ANSWERED\n".as_slice()
        );
    }
    Ok(())
}

#[test]
fn prints_a_rollback(rt: HostRuntime) -> Result<(), Fail> {
    let sink = printed(rt.alloc(), BACK.as_slice())?;
    assert!(rt; sink.is_some());
    if let Some(sink) = sink {
        assert_eq!(rt;
            sink.bytes(),
            b"## connection 1\nDONE\nDONE\nCHANGED 1\nERROR 42X05\nROLLED BACK\n## connection 2\nERROR 42X05\n".as_slice()
        );
    }
    Ok(())
}

#[test]
fn tells_sink_faults(rt: HostRuntime) -> Result<(), Fail> {
    // 300 connections have 4,992 bytes of headings: the text goes out in two pieces, of which either fails or is not taken.
    for (call, taken) in [(0u64, 0usize), (1, 4096)] {
        for fails in [true, false] {
            let mut sink = MemSink::new(rt.alloc());
            if fails {
                sink.fail_at(&[call])?;
            } else {
                sink.take_none_at(&[call])?;
            }
            let mut out = Outbox::new();
            put_sessions(&mut out, &mut sink, 300, &[]);
            assert!(rt; !out.finish(&mut sink));
            assert_eq!(rt; sink.bytes().len(), taken);
        }
    }
    Ok(())
}
