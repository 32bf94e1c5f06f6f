//! Calls of the lock table as transactions make them, worked by hand.

use crate::table::LockTable;
use crate::tried::Tried;
use dby_types::number::{RowId, TxnNo};
use lock_modes::mode::Mode;
use lock_modes::name::LockName;
use std::alloc::{AllocError, Global};
use std::test::Fail;

const DICTIONARY: LockName = LockName::Dictionary;

const TABLE: LockName = LockName::Table(16);

const FIRST: LockName = LockName::First {
    table: 16,
    index: 17,
};

const ROW_1: LockName = LockName::Row {
    table: 16,
    rid: RowId { page: 1, slot: 1 },
};

const ROW_2: LockName = LockName::Row {
    table: 16,
    rid: RowId { page: 1, slot: 2 },
};

const ROW_3: LockName = LockName::Row {
    table: 16,
    rid: RowId { page: 1, slot: 3 },
};

const ONE: TxnNo = TxnNo(1);

const TWO: TxnNo = TxnNo(2);

const THREE: TxnNo = TxnNo(3);

/// A transaction asks for a mode on a name, and is granted it, or told who is in the way and queued.
type Step = (TxnNo, LockName, Mode, Tried);

/// Asks for a mode, and queues the request where it can't be granted. None where it may not ask.
fn asks(l: &mut LockTable, t: TxnNo, name: LockName, mode: Mode) -> Option<Tried> {
    if !l.granted(t) || l.spare(t) == 0 {
        return None;
    }
    let tried = l.try_lock(t, name, mode);
    if let Tried::Conflict(_) = tried {
        if l.spare(t) > 0 {
            l.enqueue(t, name, mode);
        }
    }
    Some(tried)
}

/// The place of the first step that goes otherwise.
fn first_wrong(l: &mut LockTable, steps: &[Step]) -> Option<usize> {
    for (i, (t, name, mode, want)) in steps.iter().enumerate() {
        if asks(l, *t, *name, *mode) != Some(*want) {
            return Some(i);
        }
    }
    None
}

/// Whether exactly these have something on a name, in any order.
fn are_holders(l: &LockTable, name: LockName, want: &[(TxnNo, Mode)]) -> Result<bool, AllocError> {
    let holders = l.holders(name)?;
    for pair in want {
        if !holders.as_slice().contains(pair) {
            return Ok(false);
        }
    }
    Ok(holders.len() == want.len())
}

/// A table in which three transactions may ask for eight names each.
fn table(alloc: Global) -> Result<LockTable, AllocError> {
    let mut l = LockTable::new(alloc);
    for t in [ONE, TWO, THREE] {
        l.reserve(t, 8)?;
    }
    Ok(l)
}

/// Has its rows of the table taken for one lock on it. None where it may not ask.
fn escalates(l: &mut LockTable, t: TxnNo, mode: Mode) -> Option<Tried> {
    if !l.granted(t) || l.spare(t) == 0 {
        return None;
    }
    match l.try_lock(t, TABLE, Mode::TIs) {
        Tried::Conflict(_) => None,
        Tried::Granted => {
            if !l.granted(t) {
                return None;
            }
            Some(l.escalate(t, 16, mode))
        }
    }
}

/// Two transactions each change a row, and then each asks for the other's.
#[test]
fn two_writers(rt: HostRuntime) -> Result<(), AllocError> {
    let mut l = table(rt.alloc())?;
    let steps = [
        (ONE, DICTIONARY, Mode::TIs, Tried::Granted),
        (ONE, TABLE, Mode::TIx, Tried::Granted),
        (ONE, ROW_3, Mode::X2, Tried::Granted),
        (ONE, ROW_1, Mode::X2, Tried::Granted),
        (TWO, DICTIONARY, Mode::TIs, Tried::Granted),
        (TWO, TABLE, Mode::TIx, Tried::Granted),
        (TWO, ROW_2, Mode::X2, Tried::Granted),
    ];
    assert_eq!(rt; first_wrong(&mut l, &steps), None);
    assert_eq!(rt; [l.count(ONE), l.count(TWO)], [4, 3]);
    assert_eq!(rt; [l.row_count(ONE, 16), l.row_count(TWO, 16)], [2, 1]);
    assert_eq!(rt;
        [l.writes(ONE, 16), l.writes(ONE, 17), l.ranged(ONE)],
        [true, false, false]
    );
    let waits = [
        (ONE, ROW_2, Mode::U2, Tried::Conflict(TWO)),
        (TWO, ROW_1, Mode::U2, Tried::Conflict(ONE)),
    ];
    assert_eq!(rt; first_wrong(&mut l, &waits), None);
    assert_eq!(rt; l.waiters(), 2);
    assert!(rt; are_holders(&l, ROW_1, &[(ONE, Mode::X2)])?);
    assert!(rt; are_holders(&l, ROW_2, &[(TWO, Mode::X2)])?);
    l.release_all(TWO);
    assert!(rt; are_holders(&l, ROW_2, &[(ONE, Mode::U2)])?);
    assert_eq!(rt; l.woken(), Some((ONE, ROW_2, Mode::U2)));
    assert_eq!(rt; l.woken(), None);
    assert_eq!(rt; [l.count(ONE), l.count(TWO)], [5, 0]);
    Ok(())
}

/// Two transactions read a row at serializable, and then both want to change it.
#[test]
fn two_readers(rt: HostRuntime) -> Result<(), AllocError> {
    let mut l = table(rt.alloc())?;
    for t in [ONE, TWO] {
        let steps = [
            (t, DICTIONARY, Mode::TIs, Tried::Granted),
            (t, TABLE, Mode::TIs, Tried::Granted),
            (t, FIRST, Mode::S3, Tried::Granted),
            (t, ROW_1, Mode::S3, Tried::Granted),
            (t, TABLE, Mode::TIx, Tried::Granted),
        ];
        assert_eq!(rt; first_wrong(&mut l, &steps), None);
        assert_eq!(rt; l.count(t), 4);
    }
    let steps = [
        (ONE, ROW_1, Mode::U3, Tried::Granted),
        (ONE, ROW_1, Mode::X3, Tried::Conflict(TWO)),
        (TWO, ROW_1, Mode::U3, Tried::Conflict(ONE)),
    ];
    assert_eq!(rt; first_wrong(&mut l, &steps), None);
    let have = [(ONE, Mode::S3), (ONE, Mode::U3), (TWO, Mode::S3)];
    assert!(rt; are_holders(&l, ROW_1, &have)?);
    Ok(())
}

/// Two transactions read a row and keep it, and then both want to change it.
#[test]
fn two_keepers(rt: HostRuntime) -> Result<(), AllocError> {
    let mut l = table(rt.alloc())?;
    for t in [ONE, TWO] {
        let steps = [
            (t, DICTIONARY, Mode::TIs, Tried::Granted),
            (t, TABLE, Mode::TIs, Tried::Granted),
            (t, ROW_1, Mode::S2, Tried::Granted),
            (t, TABLE, Mode::TIx, Tried::Granted),
        ];
        assert_eq!(rt; first_wrong(&mut l, &steps), None);
        assert_eq!(rt; l.count(t), 3);
    }
    let steps = [
        (ONE, ROW_1, Mode::U2, Tried::Granted),
        (ONE, ROW_1, Mode::X2, Tried::Conflict(TWO)),
        (TWO, ROW_1, Mode::U2, Tried::Conflict(ONE)),
    ];
    assert_eq!(rt; first_wrong(&mut l, &steps), None);
    let have = [(ONE, Mode::S2), (ONE, Mode::U2), (TWO, Mode::S2)];
    assert!(rt; are_holders(&l, ROW_1, &have)?);
    l.release_all(TWO);
    let last = [(ONE, Mode::S2), (ONE, Mode::U2), (ONE, Mode::X2)];
    assert!(rt; are_holders(&l, ROW_1, &last)?);
    Ok(())
}

/// A reader of three rows asks for the table. A writer comes after it.
#[test]
fn reader_before_writer(rt: HostRuntime) -> Result<(), AllocError> {
    let mut l = table(rt.alloc())?;
    let steps = [
        (ONE, TABLE, Mode::TIs, Tried::Granted),
        (ONE, ROW_1, Mode::S2, Tried::Granted),
        (ONE, ROW_2, Mode::S2, Tried::Granted),
        (ONE, ROW_3, Mode::S2, Tried::Granted),
    ];
    assert_eq!(rt; first_wrong(&mut l, &steps), None);
    assert_eq!(rt; escalates(&mut l, ONE, Mode::TS), Some(Tried::Granted));
    assert_eq!(rt; l.row_count(ONE, 16), 0);
    assert!(rt; are_holders(&l, ROW_2, &[])?);
    assert!(rt; are_holders(&l, TABLE, &[(ONE, Mode::TIs), (ONE, Mode::TS)])?);
    let after = [(TWO, TABLE, Mode::TIx, Tried::Conflict(ONE))];
    assert_eq!(rt; first_wrong(&mut l, &after), None);
    Ok(())
}

/// A reader of three rows asks for the table, on which a writer is already. Another writer comes after it.
#[test]
fn reader_after_writer(rt: HostRuntime) -> Result<(), AllocError> {
    let mut l = table(rt.alloc())?;
    let steps = [
        (THREE, TABLE, Mode::TIx, Tried::Granted),
        (ONE, TABLE, Mode::TIs, Tried::Granted),
        (ONE, ROW_1, Mode::S2, Tried::Granted),
        (ONE, ROW_2, Mode::S2, Tried::Granted),
        (ONE, ROW_3, Mode::S2, Tried::Granted),
    ];
    assert_eq!(rt; first_wrong(&mut l, &steps), None);
    let refused = Some(Tried::Conflict(THREE));
    assert_eq!(rt; escalates(&mut l, ONE, Mode::TS), refused);
    assert_eq!(rt; l.row_count(ONE, 16), 3);
    assert!(rt; are_holders(&l, ROW_2, &[(ONE, Mode::S2)])?);
    let after = [(TWO, TABLE, Mode::TIx, Tried::Granted)];
    assert_eq!(rt; first_wrong(&mut l, &after), None);
    let have = [(THREE, Mode::TIx), (ONE, Mode::TIs), (TWO, Mode::TIx)];
    assert!(rt; are_holders(&l, TABLE, &have)?);
    Ok(())
}

/// A request waits behind one that was queued before it, and is granted after it.
#[test]
fn queue(rt: HostRuntime) -> Result<(), AllocError> {
    let mut l = table(rt.alloc())?;
    let steps = [
        (ONE, ROW_1, Mode::S2, Tried::Granted),
        (TWO, ROW_1, Mode::X2, Tried::Conflict(ONE)),
        (THREE, ROW_1, Mode::S2, Tried::Conflict(TWO)),
    ];
    assert_eq!(rt; first_wrong(&mut l, &steps), None);
    assert_eq!(rt;
        [
            l.would_grant(ROW_1, Mode::S2),
            l.would_grant(ROW_2, Mode::X3)
        ],
        [false, true]
    );
    assert_eq!(rt; l.blocker(THREE, None).map(|e| e.holder), Some(TWO));
    if l.granted(ONE) {
        l.release(ONE, ROW_1);
    }
    assert_eq!(rt; l.woken(), Some((TWO, ROW_1, Mode::X2)));
    assert_eq!(rt; [l.granted(TWO), l.granted(THREE)], [true, false]);
    Ok(())
}

/// Who waits can be chosen, and is no victim any more once all is given back. So can who holds something, but not a stranger.
#[test]
fn victim(rt: HostRuntime) -> Result<(), AllocError> {
    let mut l = table(rt.alloc())?;
    let steps = [
        (ONE, ROW_1, Mode::X2, Tried::Granted),
        (TWO, ROW_1, Mode::S2, Tried::Conflict(ONE)),
    ];
    assert_eq!(rt; first_wrong(&mut l, &steps), None);
    let stranger = TxnNo(9);
    l.choose(TWO);
    l.choose(stranger);
    assert_eq!(rt;
        [ONE, TWO, stranger].map(|t| l.is_victim(t)),
        [false, true, false]
    );
    l.choose(ONE);
    assert!(rt; l.is_victim(ONE));
    l.release_all(TWO);
    assert_eq!(rt;
        [ONE, TWO, stranger].map(|t| l.is_victim(t)),
        [true, false, false]
    );
    l.laws();
    Ok(())
}
