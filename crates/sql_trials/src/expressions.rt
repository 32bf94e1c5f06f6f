//! Expressions read by hand: the expected trees and places are the grammar's.

use sql_expressions::machine::Machine;
use sql_grammar::symbol::{symbol_in, text_in};
use sql_lexer::tokens::tokens;
use std::alloc::Global;
use std::test::Fail;

/// The tree of an expression as it is printed; else the number of the first token with which none goes on, or of the end.
fn read(alloc: Global, text: &str) -> Result<String, Fail> {
    if text.len() > 1000 {
        return Ok(format!(in alloc; "long")?);
    }
    let found = tokens(alloc, text)?;
    let mut machine = Machine::new(alloc);
    for (at, token) in found.as_slice().iter().enumerate() {
        if !machine.step(alloc, symbol_in(&token.kind), text_in(&token.kind))? {
            return Ok(format!(in alloc; "wrong at {at}")?);
        }
    }
    match machine.finish(alloc)? {
        None => Ok(format!(in alloc; "wrong at {}", found.len())?),
        Some(e) => Ok(format!(in alloc; "{e:?}")?),
    }
}

#[test]
fn reads_trees(rt: HostRuntime) -> Result<(), Fail> {
    let cases = [
        (
            "1 + 2 * 3",
            "Add(Plus, Number(Plus, 1), Multiply(Times, Number(Plus, 2), Number(Plus, 3)))",
        ),
        (
            "1 - 2 - 3",
            "Add(Minus, Add(Minus, Number(Plus, 1), Number(Plus, 2)), Number(Plus, 3))",
        ),
        (
            "- - 1 / + TRUE",
            "Multiply(Over, Sign(Minus, Number(Minus, 1)), Sign(Plus, Truth(true)))",
        ),
        (
            "FALSE OR NOT 1 = 2 AND NOT NOT TRUE",
            "Or(Truth(false), And(Not(Compare(Equal, Number(Plus, 1), Number(Plus, 2))), Not(Not(Truth(true)))))",
        ),
        (
            "1 BETWEEN 2 AND 3 AND TRUE",
            "And(Between(false, Number(Plus, 1), Number(Plus, 2), Number(Plus, 3)), Truth(true))",
        ),
        (
            "- 9223372036854775808",
            "Number(Minus, 9223372036854775808)",
        ),
        (
            "1 NOT IN (2, - 3)",
            "In(true, Number(Plus, 1), [Number(Plus, 2), Number(Minus, 3)])",
        ),
        (
            "COUNT(*) + SUM((1))",
            "Add(Plus, CountAll, Call(Sum, Brackets(Number(Plus, 1))))",
        ),
        ("1 IS NOT NULL", "IsNull(true, Number(Plus, 1))"),
    ];
    for (text, tree) in cases {
        let found = read(rt.alloc(), text)?;
        assert_eq!(rt; found.as_str(), tree, "of {text}");
    }
    Ok(())
}

#[test]
fn names_the_first_wrong_token(rt: HostRuntime) -> Result<(), Fail> {
    let cases = [
        ("9223372036854775808", "wrong at 0"),
        ("1 - - + 9223372036854775808", "wrong at 4"),
        ("1 = 2 = 3", "wrong at 3"),
        ("(1 OR 2", "wrong at 4"),
        ("1 + NOT 2", "wrong at 2"),
        ("A.WHERE", "wrong at 2"),
        ("SUM(*)", "wrong at 2"),
        ("COUNT(* + 1)", "wrong at 3"),
        ("1 BETWEEN 2 OR 3", "wrong at 3"),
        ("1 IN ()", "wrong at 3"),
        ("1 IS 2", "wrong at 2"),
        ("", "wrong at 0"),
    ];
    for (text, place) in cases {
        let found = read(rt.alloc(), text)?;
        assert_eq!(rt; found.as_str(), place, "of {text}");
    }
    Ok(())
}
