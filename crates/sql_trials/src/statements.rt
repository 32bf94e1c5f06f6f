//! Statements read by hand: their trees as they are printed, where names are the numbers of their bytes, and the places of faults.

use sql_parser::parse::{ParseAnswer, parse};
use std::alloc::Global;
use std::test::Fail;

/// The tree of a text, or why it is none.
fn read(alloc: Global, text: &str) -> Result<String, Fail> {
    if text.len() > 100000 {
        return Ok(format!(in alloc; "long")?);
    }
    match parse(alloc, text) {
        Ok(statement) => Ok(format!(in alloc; "{statement:?}")?),
        Err(ParseAnswer::Syntax { at }) => Ok(format!(in alloc; "wrong at {at}")?),
        Err(ParseAnswer::Deep) => Ok(format!(in alloc; "deep")?),
        Err(ParseAnswer::Memory) => Ok(format!(in alloc; "no memory")?),
    }
}

#[test]
fn reads_statements(rt: HostRuntime) -> Result<(), Fail> {
    let cases = [
        ("commit work", "Commit"),
        ("ROLLBACK", "Rollback"),
        ("AUTOCOMMIT OFF", "Autocommit(false)"),
        ("SET CURRENT ISOLATION = RS", "SetIsolation(Rs)"),
        (
            "LOCK TABLE T IN EXCLUSIVE MODE",
            "LockTable { table: Seq { items: [84] }, mode: Exclusive }",
        ),
        (
            "DROP INDEX \"i\"",
            "Drop { what: Index, name: Seq { items: [105] } }",
        ),
        (
            "DELETE FROM T WHERE TRUE OR FALSE AND FALSE",
            "Delete { table: Seq { items: [84] }, condition: Some(Or(Truth(true), And(Truth(false), Truth(false)))) }",
        ),
        (
            "UPDATE T SET A = NULL, B = 1",
            "Update { table: Seq { items: [84] }, sets: Seq { items: [SetText { column: Seq { items: [65] }, item: Null }, SetText { column: Seq { items: [66] }, item: Value(Number(Plus, 1)) }] }, condition: None }",
        ),
        (
            "INSERT INTO T(A) VALUES (1), (NULL)",
            "Insert { table: Seq { items: [84] }, columns: Some(Seq { items: [Seq { items: [65] }] }), tuples: Seq { items: [Seq { items: [Value(Number(Plus, 1))] }, Seq { items: [Null] }] } }",
        ),
        (
            "CREATE TABLE T(A INT NOT NULL, UNIQUE(A))",
            "CreateTable { name: Seq { items: [84] }, parts: Seq { items: [Column(ColumnText { name: Seq { items: [65] }, ty: Int, marks: Seq { items: [NotNull] } }), Unique(Seq { items: [Seq { items: [65] }] })] } }",
        ),
        (
            "CREATE UNIQUE INDEX I ON T(A)",
            "CreateIndex { unique: true, name: Seq { items: [73] }, table: Seq { items: [84] }, columns: Seq { items: [Seq { items: [65] }] } }",
        ),
        (
            "SELECT * FROM T ORDER BY 1 ASC, A DESC",
            "Select(SelectText { distinct: false, shown: All, from: Seq { items: [FromText { table: TableText { name: Seq { items: [84] }, alias: None }, joins: Seq { items: [] } }] }, condition: None, group: Seq { items: [] }, order: Seq { items: [OrderText { by: Position(1), descends: false }, OrderText { by: Name(Seq { items: [65] }), descends: true }] } })",
        ),
    ];
    for (text, tree) in cases {
        let found = read(rt.alloc(), text)?;
        assert_eq!(rt; found.as_str(), tree, "of {text}");
    }
    Ok(())
}

#[test]
fn names_the_place_of_a_fault(rt: HostRuntime) -> Result<(), Fail> {
    let cases = [
        ("SELECT A FORM T", "wrong at 14"),
        ("SELECT 9223372036854775808 FROM T", "wrong at 7"),
        ("SELECT FROM T", "wrong at 7"),
        ("", "wrong at 0"),
        ("-- nothing", "wrong at 10"),
        ("COMMIT -- done", "Commit"),
        ("COMMIT COMMIT", "wrong at 7"),
        ("DELETE FROM TABLE", "wrong at 12"),
        ("DELETE FROM T WHERE  ", "wrong at 21"),
        ("DELETE FROM T WHERE 'a", "wrong at 20"),
        (
            "INSERT INTO T VALUES ('')",
            "Insert { table: Seq { items: [84] }, columns: None, tuples: Seq { items: [Seq { items: [Value(Text(Seq { items: [] }))] }] } }",
        ),
        ("INSERT INTO T VALUES (NULL + 1)", "wrong at 27"),
        ("INSERT INTO T VALUES ()", "wrong at 22"),
        ("CREATE TABLE T(A VARCHAR(1001))", "wrong at 25"),
        ("CREATE TABLE T(PRIMARY KEY(A))", "wrong at 15"),
        ("CREATE UNIQUE TABLE T(A INT)", "wrong at 14"),
        ("SELECT A FROM T ORDER BY A ASC DESC", "wrong at 31"),
        ("SELECT A FROM T GROUP BY 1", "wrong at 25"),
        ("SET ISOLATION = = RR", "wrong at 16"),
    ];
    for (text, told) in cases {
        let found = read(rt.alloc(), text)?;
        assert_eq!(rt; found.as_str(), told, "of {text}");
    }
    Ok(())
}

/// A text of as many pieces, and what stands around them.
fn chained(alloc: Global, head: &str, piece: &str, n: usize, last: &str) -> Result<String, Fail> {
    let mut text = String::new(alloc);
    text.push_str(head)?;
    for _ in 0..n {
        text.push_str(piece)?;
    }
    text.push_str(last)?;
    Ok(text)
}

#[test]
fn tells_what_is_too_deep(rt: HostRuntime) -> Result<(), Fail> {
    let cases = [
        ("(", 65000, "", "deep"),
        ("(", 199, "", "wrong at 219"),
        ("NOT ", 200, "TRUE", "deep"),
        ("NOT ", 201, ")", "deep"),
        ("NOT ", 199, ")", "wrong at 816"),
        ("- ", 200, "A", "deep"),
        ("1 + ", 200, "1", "deep"),
    ];
    for (piece, n, last, told) in cases {
        let text = chained(rt.alloc(), "DELETE FROM T WHERE ", piece, n, last)?;
        let found = read(rt.alloc(), text.as_str())?;
        assert_eq!(rt; found.as_str(), told, "of {piece}");
    }
    Ok(())
}
