//! Cycles of transactions that wait for one another, worked by hand.

use crate::choice::victim;
use crate::search::after_wait;
use dby_types::number::{RowId, TxnNo};
use lock_manager::table::LockTable;
use lock_manager::tried::Tried;
use lock_modes::cycle::Cycle;
use lock_modes::mode::Mode;
use lock_modes::name::LockName;
use std::alloc::AllocError;
use std::test::Fail;

const TABLE: LockName = LockName::Table(16);

const ONE: TxnNo = TxnNo(1);

const TWO: TxnNo = TxnNo(2);

fn row(slot: u16) -> LockName {
    LockName::Row {
        table: 16,
        rid: RowId { page: 1, slot },
    }
}

/// Asks for a mode, and queues the request where it can't be granted. Says whether it was granted.
fn has(l: &mut LockTable, t: TxnNo, name: LockName, mode: Mode) -> bool {
    if !l.granted(t) || l.spare(t) == 0 {
        return false;
    }
    if l.try_lock(t, name, mode) == Tried::Granted {
        return true;
    }
    if l.spare(t) > 0 {
        l.enqueue(t, name, mode);
    }
    false
}

/// A cycle through a transaction, where few enough wait.
fn cycle(l: &LockTable, t: TxnNo) -> Option<Cycle> {
    if l.waiters() > 64 {
        return None;
    }
    after_wait(l, t)
}

/// The victim of a cycle.
fn chosen(c: &Cycle) -> Option<TxnNo> {
    if c.is_empty() {
        return None;
    }
    Some(victim(c))
}

/// The victim of a cycle between two, and the waiters of its edges.
fn told(c: Option<Cycle>) -> Option<(TxnNo, TxnNo, Option<TxnNo>)> {
    let c = c?;
    match c.as_slice() {
        [a, b] => Some((a.waiter, b.waiter, chosen(&c))),
        _ => None,
    }
}

/// Each transaction has the dictionary and the table.
fn begins(l: &mut LockTable, table: Mode) -> Result<bool, AllocError> {
    let mut all = true;
    for t in [ONE, TWO] {
        l.reserve(t, 8)?;
        all = all && has(l, t, LockName::Dictionary, Mode::TIs) && has(l, t, TABLE, table);
    }
    Ok(all)
}

/// Each changed a row of its own, one of them two, and asks for the other's: who has fewer locks is the victim.
#[test]
fn two_writers(rt: HostRuntime) -> Result<(), AllocError> {
    let mut l = LockTable::new(rt.alloc());
    assert!(rt; begins(&mut l, Mode::TIx)?);
    assert!(rt; has(&mut l, ONE, row(3), Mode::X2));
    assert!(rt; has(&mut l, ONE, row(1), Mode::X2));
    assert!(rt; has(&mut l, TWO, row(2), Mode::X2));
    assert!(rt; !has(&mut l, ONE, row(2), Mode::U2));
    assert!(rt; cycle(&l, ONE).is_none());
    assert!(rt; !has(&mut l, TWO, row(1), Mode::U2));
    assert_eq!(rt; told(cycle(&l, TWO)), Some((TWO, ONE, Some(TWO))));
    l.release_all(TWO);
    assert!(rt; cycle(&l, ONE).is_none());
    Ok(())
}

/// Both read a row and want to change it, at serializable and below: with as many locks the greater number is the victim.
#[test]
fn two_readers(rt: HostRuntime) -> Result<(), AllocError> {
    for (reads, looks, changes) in [
        (Mode::S3, Mode::U3, Mode::X3),
        (Mode::S2, Mode::U2, Mode::X2),
    ] {
        let mut l = LockTable::new(rt.alloc());
        assert!(rt; begins(&mut l, Mode::TIs)?);
        for t in [ONE, TWO] {
            assert!(rt; has(&mut l, t, row(1), reads));
            assert!(rt; has(&mut l, t, TABLE, Mode::TIx));
        }
        assert!(rt; has(&mut l, ONE, row(1), looks));
        assert!(rt; !has(&mut l, ONE, row(1), changes));
        assert!(rt; cycle(&l, ONE).is_none());
        assert!(rt; !has(&mut l, TWO, row(1), looks));
        assert_eq!(rt; told(cycle(&l, TWO)), Some((TWO, ONE, Some(TWO))));
    }
    Ok(())
}

/// The waiters of a cycle, 0 behind the last of them.
fn waiters(c: Option<Cycle>) -> [u64; 4] {
    let mut out = [0; 4];
    if let Some(c) = c {
        for (place, e) in out.iter_mut().zip(c.as_slice()) {
            *place = e.waiter.0;
        }
    }
    out
}

/// One waits for two and for three, two for three, and three for one: the way over two comes first, though it is longer.
#[test]
fn first_of_two(rt: HostRuntime) -> Result<(), AllocError> {
    let mut l = LockTable::new(rt.alloc());
    let three = TxnNo(3);
    for t in [ONE, TWO, three] {
        l.reserve(t, 4)?;
    }
    assert!(rt; has(&mut l, ONE, row(1), Mode::X2));
    assert!(rt; has(&mut l, TWO, row(2), Mode::S2));
    assert!(rt; has(&mut l, three, row(2), Mode::S2));
    assert!(rt; has(&mut l, three, row(3), Mode::X2));
    assert!(rt; !has(&mut l, TWO, row(3), Mode::U2));
    assert!(rt; !has(&mut l, three, row(1), Mode::U2));
    assert!(rt; cycle(&l, three).is_none());
    assert!(rt; !has(&mut l, ONE, row(2), Mode::X2));
    assert_eq!(rt; waiters(cycle(&l, ONE)), [1, 2, 3, 0]);
    assert_eq!(rt; waiters(cycle(&l, three)), [3, 1, 2, 0]);
    l.choose(TWO);
    assert_eq!(rt; waiters(cycle(&l, ONE)), [1, 3, 0, 0]);
    assert_eq!(rt; waiters(cycle(&l, TWO)), [0; 4]);
    l.choose(three);
    assert_eq!(rt; waiters(cycle(&l, ONE)), [0; 4]);
    Ok(())
}

/// Each of 64 transactions waits for the next, and the last for the first.
#[test]
fn ring(rt: HostRuntime) -> Result<(), AllocError> {
    let mut l = LockTable::new(rt.alloc());
    for i in 0..64u16 {
        let t = TxnNo(u64::from(i));
        l.reserve(t, 2)?;
        assert!(rt; has(&mut l, t, row(i), Mode::X2), "{i}");
    }
    for i in 0..64u16 {
        let t = TxnNo(u64::from(i));
        assert!(rt; cycle(&l, t).is_none(), "{i}");
        assert!(rt; !has(&mut l, t, row((i + 1) % 64), Mode::X2), "{i}");
    }
    if let Some(c) = cycle(&l, TxnNo(63)) {
        assert_eq!(rt; c.len(), 64);
        assert_eq!(rt; chosen(&c), Some(TxnNo(63)));
        return Ok(());
    }
    assert!(rt; false);
    Ok(())
}
