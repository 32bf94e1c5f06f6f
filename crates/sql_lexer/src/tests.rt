//! Scripts and texts with their spans and tokens, read by hand.

use crate::reserved::is_reserved;
use crate::splitting::split;
use crate::token::TokenKind;
use crate::tokens::tokens;
use std::test::Fail;

/// A kind as a letter, and its number or its length.
fn code(kind: &TokenKind) -> (char, u64) {
    match kind {
        TokenKind::Name(name) => ('N', name.len() as u64),
        TokenKind::Quoted(name) => ('Q', name.len() as u64),
        TokenKind::Number(n) => ('#', *n),
        TokenKind::Text(text) => ('T', text.len() as u64),
        TokenKind::Sign(_) => ('S', 0),
        TokenKind::Bad => ('!', 0),
    }
}

#[test]
fn splits_scripts(rt: HostRuntime) -> Result<(), Fail> {
    let cases: [(&str, &[(u32, u32)]); 8] = [
        ("a;;b", &[(0, 1), (3, 4)]),
        (" a ; b ", &[(1, 3), (5, 7)]),
        ("a';'b;c", &[(0, 5), (6, 7)]),
        ("a--;\n;b", &[(0, 5), (6, 7)]),
        ("a;b --x", &[(0, 1), (2, 7)]),
        ("--x", &[]),
        ("x;'", &[(0, 1), (2, 3)]),
        ("\"a;\"\";\";'''';", &[(0, 7), (8, 12)]),
    ];
    for (script, spans) in cases {
        let found = split(rt.alloc(), script)?;
        assert_eq!(rt; found.len(), spans.len(), "of {script}");
        for (span, want) in found.as_slice().iter().zip(spans) {
            assert_eq!(rt; (span.from, span.to), *want, "of {script}");
        }
    }
    Ok(())
}

#[test]
fn reads_tokens(rt: HostRuntime) -> Result<(), Fail> {
    let cases: [(&str, &[(u32, u32, char, u64)]); 9] = [
        (
            "sel_1 12a",
            &[(0, 5, 'N', 5), (6, 8, '#', 12), (8, 9, 'N', 1)],
        ),
        (
            "<>!=<=>=<!",
            &[
                (0, 2, 'S', 0),
                (2, 4, 'S', 0),
                (4, 6, 'S', 0),
                (6, 8, 'S', 0),
                (8, 9, 'S', 0),
                (9, 10, '!', 0),
            ],
        ),
        ("a--b\n-", &[(0, 1, 'N', 1), (5, 6, 'S', 0)]),
        ("'it''s' ''", &[(0, 7, 'T', 4), (8, 10, 'T', 0)]),
        ("\"a\"\"b\" \"\"\"\"", &[(0, 6, 'Q', 3), (7, 11, 'Q', 1)]),
        ("\"\" 'a", &[(0, 2, '!', 0), (3, 5, '!', 0)]),
        ("9223372036854775808", &[(0, 19, '#', 9223372036854775808)]),
        ("9223372036854775809", &[(0, 19, '!', 0)]),
        ("é+é", &[(0, 2, '!', 0), (2, 3, 'S', 0), (3, 5, '!', 0)]),
    ];
    for (text, want) in cases {
        let found = tokens(rt.alloc(), text)?;
        assert_eq!(rt; found.len(), want.len(), "of {text}");
        for (token, (from, to, letter, number)) in found.as_slice().iter().zip(want) {
            assert_eq!(rt; (token.span.from, token.span.to), (*from, *to), "of {text}");
            assert_eq!(rt; code(&token.kind), (*letter, *number), "of {text}");
        }
    }
    Ok(())
}

#[test]
fn knows_reserved_words(rt: HostRuntime) {
    for word in [
        "OR", "ALL", "TRUE", "WHERE", "SELECT", "BETWEEN", "SMALLINT",
    ] {
        assert!(rt; is_reserved(word.as_bytes()), "{word}");
    }
    for word in ["", "or", "INDEX", "SELECTS", "WORK"] {
        assert!(rt; !is_reserved(word.as_bytes()), "{word}");
    }
}
