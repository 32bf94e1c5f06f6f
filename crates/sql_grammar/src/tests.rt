//! Tokens with their symbols, read by hand.

use crate::symbol::{Symbol, class_in, symbol_in, text_in, word_symbol};
use crate::word::{Class, Key, Word, same};
use sql_ast::expression::{Aggregate, Comparison, Product, Sum};
use sql_lexer::reserved::is_reserved;
use sql_lexer::tokens::tokens;
use std::test::Fail;

#[test]
fn reads_symbols(rt: HostRuntime) -> Result<(), Fail> {
    let text =
        "select Index \"INDEX\" 'a''b' 9223372036854775807 9223372036854775808 <> * - count true @";
    let want = [
        Symbol::Key(Key::Select),
        Symbol::Name(Word::Index),
        Symbol::Name(Word::Plain),
        Symbol::Text,
        Symbol::Number(9223372036854775807),
        Symbol::Huge,
        Symbol::Compare(Comparison::NotEqual),
        Symbol::Product(Product::Times),
        Symbol::Sum(Sum::Minus),
        Symbol::Call(Aggregate::Count),
        Symbol::Truth(true),
        Symbol::Bad,
    ];
    let found = tokens(rt.alloc(), text)?;
    assert_eq!(rt; found.len(), want.len());
    for (token, symbol) in found.as_slice().iter().zip(want.as_slice()) {
        assert!(rt; symbol_in(&token.kind) == *symbol);
    }
    assert_eq!(rt; text_in(&found.as_slice()[2].kind).len(), 5);
    assert!(rt; same(class_in(Symbol::Compare(Comparison::Equal)), Class::Equal));
    assert!(rt; !same(Class::Key(Key::Select), Class::Key(Key::Set)));
    Ok(())
}

/// A word is reserved exactly where its symbol is no name.
#[test]
fn names_are_not_reserved(rt: HostRuntime) -> Result<(), Fail> {
    let words = [
        "ALL",
        "AND",
        "AS",
        "ASC",
        "AUTOCOMMIT",
        "BETWEEN",
        "BIGINT",
        "BOOLEAN",
        "BY",
        "COMMIT",
        "COUNT",
        "CREATE",
        "CS",
        "CURRENT",
        "DELETE",
        "DESC",
        "DISTINCT",
        "DROP",
        "EXCLUSIVE",
        "FALSE",
        "FROM",
        "GROUP",
        "IN",
        "INDEX",
        "INNER",
        "INSERT",
        "INT",
        "INTEGER",
        "INTO",
        "IS",
        "ISOLATION",
        "JOIN",
        "KEY",
        "LOCK",
        "MAX",
        "MIN",
        "MODE",
        "NOT",
        "NULL",
        "OFF",
        "ON",
        "OR",
        "ORDER",
        "PRIMARY",
        "ROLLBACK",
        "RR",
        "RS",
        "SELECT",
        "SET",
        "SHARE",
        "SMALLINT",
        "SUM",
        "TABLE",
        "TRUE",
        "UNIQUE",
        "UPDATE",
        "UR",
        "VALUES",
        "VARCHAR",
        "WHERE",
        "WORK",
        "T",
        "ACCOUNT",
    ];
    for word in words {
        let named = matches!(word_symbol(word.as_bytes()), Symbol::Name(_));
        assert_eq!(rt; named, !is_reserved(word.as_bytes()), "of {word}");
    }
    Ok(())
}
