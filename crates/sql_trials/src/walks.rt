//! Where expressions end in a text, or where their first fault stands.

use sql_lexer::tokens::tokens;
use sql_tokens::failing::Failing;
use sql_walk::walking::expression;
use std::alloc::Global;
use std::test::Fail;

/// How an expression is read from a text, and the number of the token where its reading ends.
fn read(alloc: Global, text: &str) -> Result<String, Fail> {
    if text.len() > 100000 {
        return Ok(format!(in alloc; "long")?);
    }
    let found = tokens(alloc, text)?;
    let mut at: usize = 0;
    match expression(alloc, found.as_slice(), &mut at) {
        Ok(_e) => Ok(format!(in alloc; "read to {at}")?),
        Err(Failing::Wrong) => Ok(format!(in alloc; "wrong at {at}")?),
        Err(Failing::Deep) => Ok(format!(in alloc; "deep at {at}")?),
        Err(Failing::Memory) => Ok(format!(in alloc; "no memory")?),
    }
}

#[test]
fn ends_where_a_token_stops_it(rt: HostRuntime) -> Result<(), Fail> {
    let cases = [
        ("1 + 2, 3", "read to 3"),
        ("A B", "read to 1"),
        ("A = 1 WHERE", "read to 3"),
        ("(A) )", "read to 3"),
        ("1 2", "wrong at 1"),
        ("1 BETWEEN 2 WHERE", "wrong at 3"),
        ("1 IN (2 WHERE", "wrong at 4"),
        ("", "wrong at 0"),
    ];
    for (text, end) in cases {
        let found = read(rt.alloc(), text)?;
        assert_eq!(rt; found.as_str(), end, "of {text}");
    }
    Ok(())
}

/// A text of as many pieces, and what follows them.
fn chained(alloc: Global, piece: &str, n: usize, last: &str) -> Result<String, Fail> {
    let mut text = String::new(alloc);
    for _ in 0..n {
        text.push_str(piece)?;
    }
    text.push_str(last)?;
    Ok(text)
}

#[test]
fn goes_at_most_200_deep(rt: HostRuntime) -> Result<(), Fail> {
    let cases = [
        ("- ", 200, "1", "read to 201"),
        ("- ", 200, "A", "deep at 200"),
        ("- ", 201, "1", "deep at 200"),
        ("1 + ", 199, "1", "read to 399"),
        ("1 + ", 200, "1", "deep at 399"),
        ("NOT ", 199, "TRUE", "read to 200"),
        ("NOT ", 200, "TRUE", "deep at 199"),
        ("(", 65536, "", "deep at 199"),
        ("1 IN (1", 1, ")", "read to 5"),
    ];
    for (piece, n, last, end) in cases {
        let text = chained(rt.alloc(), piece, n, last)?;
        let found = read(rt.alloc(), text.as_str())?;
        assert_eq!(rt; found.as_str(), end, "of {piece}");
    }
    Ok(())
}
