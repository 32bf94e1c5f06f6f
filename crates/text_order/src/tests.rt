//! Texts whose bytes might be thought to stand otherwise than their code points.

use crate::order::compare;
use std::cmp::Ordering;

#[test]
fn texts_stand_by_code_points(rt: HostRuntime) {
    for (a, b, order) in [
        ("a", "a  ", Ordering::Equal),
        ("a\t", "a", Ordering::Less),
        ("a", "aé", Ordering::Less),
        ("é", "z", Ordering::Greater),
        ("é", "e\u{301}", Ordering::Greater),
        ("\u{7ff}", "\u{800}", Ordering::Less),
        ("\u{ffff}", "\u{10000}", Ordering::Less),
    ] {
        assert_eq!(rt; compare(a, b), order);
    }
}
