//! Both tables, row by row, as they are given on paper, and a cycle.

use crate::cycle::{Cycle, Edge};
use crate::mode::{Mode, compatible, covers, is_row_mode};
use crate::modes::{ALL, Modes};
use crate::name::{LockName, is_row_name, is_same_name, is_same_txn};
use Mode::{Ip, S2, S3, TIs, TIx, TS, TX, U2, U3, X2, X3};
use dby_types::number::{RowId, TxnNo};

/// Each mode, those with which it is compatible, and those that it covers.
#[test]
fn compares_each_pair(rt: HostRuntime) {
    let rows: [(Mode, &[Mode], &[Mode]); 11] = [
        (S2, &[S2, S3, U2, U3, Ip], &[S2]),
        (S3, &[S2, S3, U2, U3], &[S2, S3]),
        (U2, &[S2, S3, Ip], &[S2, U2]),
        (U3, &[S2, S3], &[S2, S3, U2, U3]),
        (Ip, &[S2, U2, Ip, X2], &[Ip]),
        (X2, &[Ip], &[S2, U2, Ip, X2]),
        (X3, &[], &[S2, S3, U2, U3, Ip, X2, X3]),
        (TIs, &[TIs, TIx, TS], &[TIs]),
        (TIx, &[TIs, TIx], &[TIs, TIx]),
        (TS, &[TIs, TS], &[TIs, TS]),
        (TX, &[], &[TIs, TIx, TS, TX]),
    ];
    for (a, partners, covered) in &rows {
        for b in &ALL {
            assert_eq!(rt; compatible(*a, *b), partners.contains(b), "{a:?} {b:?}");
            assert_eq!(rt; compatible(*b, *a), partners.contains(b), "{b:?} {a:?}");
            assert_eq!(rt; covers(*a, *b), covered.contains(b), "{a:?} {b:?}");
            let set = Modes::none().with(*a);
            assert_eq!(rt; set.has(*b), a == b, "{a:?} {b:?}");
            assert_eq!(rt; set.hinders(*b), !partners.contains(b), "{a:?} {b:?}");
            assert_eq!(rt; set.covers(*b), covered.contains(b), "{a:?} {b:?}");
        }
    }
}

#[test]
fn tells_names_apart(rt: HostRuntime) {
    let rid = RowId { page: 1, slot: 2 };
    let row = LockName::Row { table: 16, rid };
    let first = LockName::First {
        table: 16,
        index: 17,
    };
    let names = [LockName::Dictionary, LockName::Table(16), row, first];
    for (i, a) in names.iter().enumerate() {
        assert_eq!(rt; is_row_name(16, *a), i >= 2, "{i}");
        assert!(rt; !is_row_name(17, *a), "{i}");
        for (j, b) in names.iter().enumerate() {
            assert_eq!(rt; is_same_name(*a, *b), i == j, "{i} {j}");
        }
    }
    assert!(rt; is_same_txn(TxnNo(1), TxnNo(1)) && !is_same_txn(TxnNo(1), TxnNo(2)));
}

#[test]
fn keeps_edges(rt: HostRuntime) {
    let edge = Edge {
        waiter: TxnNo(1),
        holder: TxnNo(2),
        name: LockName::Table(16),
        asked: TX,
        locks: 3,
    };
    let mut cycle = Cycle::new();
    assert!(rt; cycle.is_empty());
    cycle.push(edge);
    assert_eq!(rt; cycle.len(), 1);
    assert_eq!(rt; cycle.as_slice()[0], edge);
    assert_eq!(rt; cycle.pop(), edge);
    assert!(rt; cycle.is_empty());
}

#[test]
fn tells_of_sets(rt: HostRuntime) {
    for mode in &ALL {
        let set = Modes::none().with(*mode);
        assert!(rt; set.is_held(), "{mode:?}");
        assert_eq!(rt; is_row_mode(*mode), ALL[..7].contains(mode), "{mode:?}");
        assert_eq!(rt; set.writes(), [U2, U3, X2, X3].contains(mode), "{mode:?}");
        assert_eq!(rt; set.is_ranged(), [S3, U3, X3].contains(mode), "{mode:?}");
    }
    assert!(rt; !Modes::none().is_held());
}
