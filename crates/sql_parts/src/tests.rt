//! Lists, read by hand.

use crate::list::listed;
use crate::names::names;
use dby_types::value::Name;
use sql_lexer::tokens::tokens;
use std::test::Fail;

#[test]
fn reads_lists(rt: HostRuntime) -> Result<(), Fail> {
    let found = tokens(rt.alloc(), "(A, key, \"b\") C, D, 1")?;
    let tokens = found.as_slice();
    let mut at: usize = 0;
    let Ok(columns) = names(rt.alloc(), tokens, &mut at) else {
        return Ok(());
    };
    assert_eq!(rt; columns.len(), 3);
    assert_eq!(rt; columns.as_slice()[2].as_slice(), [98].as_slice());
    assert!(rt; listed::<Name>(rt.alloc(), tokens, &mut at).is_err());
    assert_eq!(rt; at, 11);
    Ok(())
}
