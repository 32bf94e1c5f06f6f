//! Runs over files and a sink in memory: scripts by a plan, each refusal of the inputs, and each failing call in turn.

use crate::step::derby_step;
use device_mem::host::MemHost;
use device_mem::sink::MemSink;
use std::alloc::{AllocError, Global};
use std::test::Fail;

/// Commands and refusals, in a transaction and out of it. No table stands.
const FIRST: &[u8] =
    b"autocommit off; SELECT * FROM T; commit; SET ISOLATION RR; INSERT INTO T VALUES (1); rollback; NONE";

const SECOND: &[u8] = b"SET ISOLATION UR; SELECT * FROM T; SELECT * FROM T";

const PLAN: &[u8] =
    b"1 999999\n2 999999\n1 999999\n1 999999\n2 999999\n1 999999\n1 999999\n1 999999\n1 999999\n1 999999\n2 1\n0 5\n";

const PRINTED: &[u8] =
    b"## connection 1\nDONE\nERROR 42X05\nCOMMITTED\nDONE\nERROR 42X05\nROLLED BACK\nERROR 42X01\n## connection 2\nERROR PRL00\nERROR 42X05\nNOT ANSWERED\n";

/// A script that makes a table and commits, and one that reads it.
const MAKES: &[u8] = b"CREATE TABLE T(A INT); autocommit off; INSERT INTO T VALUES (1); commit;";

const READS: &[u8] = b"SELECT * FROM T;";

const WORDS: [&str; 5] = ["step", "demo", "plan", "s1.sql", "s2.sql"];

/// A host with a plan and two scripts.
fn host_of(alloc: Global, plan: &[u8], first: &[u8], second: &[u8]) -> Result<MemHost, AllocError> {
    let mut host = MemHost::new(alloc);
    host.put_script("plan", plan)?;
    host.put_script("s1.sql", first)?;
    host.put_script("s2.sql", second)?;
    Ok(host)
}

/// Runs the program over these words, and answers its status.
fn run(
    alloc: Global,
    words: &[&str],
    host: &mut MemHost,
    sink: &mut MemSink,
) -> Result<u8, AllocError> {
    let mut owned = Vec::new(alloc);
    for word in words {
        owned.push(String::from_str(alloc, word)?)?;
    }
    let run = derby_step(alloc, owned.as_slice(), host, sink);
    Ok(run.status)
}

#[test]
fn runs_scripts(rt: HostRuntime) -> Result<(), Fail> {
    let cases: [(&[u8], &[u8], &[u8], &[u8]); 2] = [
        (
            b"\n\n",
            b"-- nothing",
            b"",
            b"## connection 1\n## connection 2\n",
        ),
        (PLAN, FIRST, SECOND, PRINTED),
    ];
    for (plan, first, second, printed) in cases {
        let mut host = host_of(rt.alloc(), plan, first, second)?;
        let mut sink = MemSink::new(rt.alloc());
        let status = run(rt.alloc(), WORDS.as_slice(), &mut host, &mut sink)?;
        assert_eq!(rt; status, 0);
        assert_eq!(rt; sink.bytes(), printed);
    }
    Ok(())
}

#[test]
fn reads_behind_a_commit(rt: HostRuntime) -> Result<(), Fail> {
    // The reader waits for the writer; the second plan ends before the writer has committed.
    let cases: [(&[u8], &[u8]); 2] = [
        (
            b"1 999999\n1 999999\n1 999999\n2 999999\n1 999999\n2 999999",
            b"## connection 1\nDONE\nDONE\nCHANGED 1\nCOMMITTED\n## connection 2\nA\n1\nROWS 1\n",
        ),
        (
            b"1 999999\n1 999999\n1 999999\n2 999999",
            b"## connection 1\nDONE\nDONE\nCHANGED 1\n## connection 2\nNOT ANSWERED\n",
        ),
    ];
    for (plan, printed) in cases {
        let mut host = host_of(rt.alloc(), plan, MAKES, READS)?;
        let mut sink = MemSink::new(rt.alloc());
        let status = run(rt.alloc(), WORDS.as_slice(), &mut host, &mut sink)?;
        assert_eq!(rt; status, 0);
        assert_eq!(rt; sink.bytes(), printed);
    }
    Ok(())
}

#[test]
fn refuses_words(rt: HostRuntime) -> Result<(), Fail> {
    let cases: [&[&str]; 4] = [
        &[],
        &["run", "demo", "plan", "s1.sql"],
        &["step", "", "plan", "s1.sql"],
        &["step", "demo", "plan"],
    ];
    for words in cases {
        let mut host = host_of(rt.alloc(), PLAN, FIRST, SECOND)?;
        let mut sink = MemSink::new(rt.alloc());
        let status = run(rt.alloc(), words, &mut host, &mut sink)?;
        assert_eq!(rt; status, 1);
        assert_eq!(rt; sink.bytes(), b"derby: usage\n".as_slice());
    }
    Ok(())
}

#[test]
fn cannot_read(rt: HostRuntime) -> Result<(), Fail> {
    let files: [(&str, &[u8]); 3] = [
        ("plan", b"derby: cannot read plan\n"),
        ("s1.sql", b"derby: cannot read s1.sql\n"),
        ("s2.sql", b"derby: cannot read s2.sql\n"),
    ];
    // Of each file the opening fails; its first read; its last one, which would tell the end.
    for (file, (name, printed)) in files.iter().enumerate() {
        for failing in 0..3u64 {
            let mut host = host_of(rt.alloc(), PLAN, FIRST, SECOND)?;
            if failing == 0 {
                host.fail_at(&[file as u64])?;
            } else {
                host.fail_reads(name, &[failing - 1])?;
            }
            let mut sink = MemSink::new(rt.alloc());
            let status = run(rt.alloc(), WORDS.as_slice(), &mut host, &mut sink)?;
            assert_eq!(rt; status, 2);
            assert_eq!(rt; sink.bytes(), *printed);
        }
    }
    Ok(())
}

#[test]
fn refuses_inputs(rt: HostRuntime) -> Result<(), Fail> {
    let mut long = Vec::new(rt.alloc());
    long.resize(1_048_577, b' ')?;
    let cases: [(&[u8], &[u8], &[u8]); 6] = [
        (long.as_slice(), FIRST, b"derby: too long plan\n"),
        (b"1 1\n\xff", FIRST, b"derby: not UTF-8 plan\n"),
        (b"1 1\n\n2 1\n3 1", FIRST, b"derby: plan line 4\n"),
        (b"1 1\n1 x", b"SELECT\xff", b"derby: plan line 2\n"),
        (PLAN, long.as_slice(), b"derby: too long s1.sql\n"),
        (PLAN, b"SELECT\xff", b"derby: not UTF-8 s1.sql\n"),
    ];
    for (plan, first, printed) in cases {
        let mut host = host_of(rt.alloc(), plan, first, SECOND)?;
        let mut sink = MemSink::new(rt.alloc());
        let status = run(rt.alloc(), WORDS.as_slice(), &mut host, &mut sink)?;
        assert_eq!(rt; status, 7);
        assert_eq!(rt; sink.bytes(), printed);
    }
    Ok(())
}

#[test]
fn refuses_too_many_scripts(rt: HostRuntime) -> Result<(), Fail> {
    for (scripts, wanted) in [(64, 0), (65, 8)] {
        let mut words = Vec::new(rt.alloc());
        for word in ["step", "demo", "plan"] {
            words.push(word)?;
        }
        for _ in 0..scripts {
            words.push("s1.sql")?;
        }
        let mut host = host_of(rt.alloc(), b"", FIRST, SECOND)?;
        let mut sink = MemSink::new(rt.alloc());
        let status = run(rt.alloc(), words.as_slice(), &mut host, &mut sink)?;
        assert_eq!(rt; status, wanted);
        if wanted == 8 {
            assert_eq!(rt;
                sink.bytes(),
                b"derby: 65 connections, limit 64\n".as_slice()
            );
        }
    }
    Ok(())
}

#[test]
fn tells_sink_faults(rt: HostRuntime) -> Result<(), Fail> {
    // A sink that fails, or takes no byte, makes status 4 of 0 alone.
    for fails in [true, false] {
        for (words, wanted) in [(WORDS.as_slice(), 4), (&WORDS.as_slice()[..3], 1)] {
            let mut host = host_of(rt.alloc(), PLAN, FIRST, SECOND)?;
            let mut sink = MemSink::new(rt.alloc());
            if fails {
                sink.fail_at(&[0])?;
            } else {
                sink.take_none_at(&[0])?;
            }
            let status = run(rt.alloc(), words, &mut host, &mut sink)?;
            assert_eq!(rt; status, wanted);
            assert!(rt; sink.bytes().is_empty());
        }
    }
    Ok(())
}

#[test]
fn prints_a_front(rt: HostRuntime) -> Result<(), Fail> {
    // The text goes out in pieces of 4,096 bytes. The second one fails.
    let mut script = Vec::new(rt.alloc());
    let mut plan = Vec::new(rt.alloc());
    for _ in 0..400 {
        script.extend_from_slice(b"SELECT * FROM U;")?;
        plan.extend_from_slice(b"1 999999\n")?;
    }
    let mut host = host_of(rt.alloc(), plan.as_slice(), script.as_slice(), b"")?;
    let mut sink = MemSink::new(rt.alloc());
    sink.fail_at(&[1])?;
    let status = run(rt.alloc(), WORDS.as_slice(), &mut host, &mut sink)?;
    assert_eq!(rt; status, 4);
    assert_eq!(rt; sink.bytes().len(), 4096);
    Ok(())
}
