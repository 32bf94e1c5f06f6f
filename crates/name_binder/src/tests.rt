//! Lists of names, worked by hand.

use crate::twice::has_twice;
use std::test::Fail;

#[test]
fn tells_whether_a_name_stands_twice(rt: HostRuntime) -> Result<(), Fail> {
    let alloc = rt.alloc();
    let once = ["A".as_bytes(), "AB".as_bytes(), "B".as_bytes()];
    let twice = [
        "A".as_bytes(),
        "B".as_bytes(),
        "AB".as_bytes(),
        "B".as_bytes(),
    ];
    assert_eq!(rt; has_twice(alloc, once.as_slice())?, false);
    assert_eq!(rt; has_twice(alloc, twice.as_slice())?, true);
    assert_eq!(rt; has_twice(alloc, &twice.as_slice()[..0])?, false);
    Ok(())
}
