//! Each form of statement, cut behind each of its words, and with a stray token put in.

use sql_parser::parse::{ParseAnswer, parse};
use std::alloc::Global;
use std::test::Fail;

/// How a text is read: `1` for a statement, `0` for a fault at this byte.
fn mark(alloc: Global, text: &str, at: usize) -> &'static str {
    if text.len() > 1000 {
        return "?";
    }
    match parse(alloc, text) {
        Ok(_statement) => "1",
        Err(ParseAnswer::Syntax { at: found }) => { if found as usize == at { "0" } else { "?" } }
        Err(ParseAnswer::Deep) => "?",
        Err(ParseAnswer::Memory) => "?",
    }
}

/// A mark for each word: of the text up to it, whose fault is its end.
fn cuts(alloc: Global, text: &str) -> Result<String, Fail> {
    let mut marks = String::new(alloc);
    let mut front = String::new(alloc);
    for word in text.split(' ') {
        front.push_str(word)?;
        marks.push_str(mark(alloc, front.as_str(), front.len()))?;
        front.push_str(" ")?;
    }
    Ok(marks)
}

/// A mark for each word: of the text up to it and a token that is none, whose fault is that token.
fn strays(alloc: Global, text: &str) -> Result<String, Fail> {
    let mut marks = String::new(alloc);
    let mut front = String::new(alloc);
    for word in text.split(' ') {
        let stray = format!(in alloc; "{front}@ {text}")?;
        marks.push_str(mark(alloc, stray.as_str(), front.len()))?;
        front.push_str(word)?;
        front.push_str(" ")?;
    }
    Ok(marks)
}

#[test]
fn is_cut_behind_each_word(rt: HostRuntime) -> Result<(), Fail> {
    let cases = [
        (
            "CREATE TABLE T ( A INT NOT NULL PRIMARY KEY , B VARCHAR ( 3 ) UNIQUE , PRIMARY KEY ( A , B ) , UNIQUE ( B ) )",
            "0000000000000000000000000000001",
        ),
        ("CREATE UNIQUE INDEX I ON T ( A , B )", "00000000001"),
        ("DROP INDEX I", "001"),
        (
            "INSERT INTO T ( A , B ) VALUES ( 1 , NULL ) , ( - 2 , 'x' )",
            "000000000000010000001",
        ),
        (
            "UPDATE T SET A = A + 1 , B = NULL WHERE NOT A IN ( 1 , 2 )",
            "000001010001001000001",
        ),
        (
            "DELETE FROM T WHERE A IS NOT NULL OR B = 'x' AND A < 3",
            "0010100101010101",
        ),
        (
            "SELECT DISTINCT A X , COUNT ( * ) AS N FROM T U INNER JOIN V ON TRUE , W GROUP BY U . A , B ORDER BY A DESC , 2",
            "0000000000001100001010010101001101",
        ),
        ("LOCK TABLE T IN SHARE MODE", "000001"),
        ("SET CURRENT ISOLATION = RR", "00001"),
        ("AUTOCOMMIT ON", "01"),
        ("COMMIT WORK", "11"),
        ("ROLLBACK WORK", "11"),
    ];
    for (text, marks) in cases {
        let found = cuts(rt.alloc(), text)?;
        assert_eq!(rt; found.as_str(), marks, "of {text}");
        let strayed = strays(rt.alloc(), text)?;
        assert!(rt; !strayed.contains('1') && !strayed.contains('?'));
    }
    Ok(())
}
