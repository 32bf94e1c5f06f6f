//! Single tokens, read by hand.

use crate::failing::Failing;
use crate::token::{is_next, name, number, pass, size, token};
use sql_grammar::word::{Class, Key};
use sql_lexer::tokens::tokens;
use std::test::Fail;

#[test]
fn reads_single_tokens(rt: HostRuntime) -> Result<(), Fail> {
    let found = tokens(rt.alloc(), "from T 1000 1001 9223372036854775807")?;
    let tokens = found.as_slice();
    let mut at: usize = 0;
    assert!(rt; name(rt.alloc(), tokens, &mut at).is_err());
    assert!(rt; is_next(tokens, at, Class::Key(Key::From)));
    assert!(rt; !pass(tokens, &mut at, Class::Comma));
    assert!(rt; token(tokens, &mut at, Class::Key(Key::From)).is_ok());
    assert!(rt; name(rt.alloc(), tokens, &mut at).is_ok());
    assert_eq!(rt; size(tokens, &mut at), Ok(1000));
    assert_eq!(rt; size(tokens, &mut at), Err(Failing::Wrong));
    assert_eq!(rt; number(tokens, &mut at), Ok(1001));
    assert_eq!(rt; number(tokens, &mut at), Ok(9223372036854775807));
    assert_eq!(rt; number(tokens, &mut at), Err(Failing::Wrong));
    assert_eq!(rt; at, 5);
    Ok(())
}
