//! One transaction with many names, 64 with one, two that hand one to each other, and 64 in a row.

ghost use Rattle.std.specs.Prelude.{◌≡◌, ◌≤◌, length};
ghost use Rattle.lock_modes.specs.Lock.{queue};
ghost use Rattle.lock_manager.specs.Table.{lock};

use dby_types::number::{RowId, TxnNo};
use deadlock_cycle::choice::victim;
use deadlock_cycle::search::after_wait;
use lock_manager::table::LockTable;
use lock_manager::tried::Tried;
use lock_modes::mode::Mode;
use lock_modes::name::LockName;
use std::alloc::{AllocError, Global};

const MANY: u64 = 64;

/// The first of 64 transactions that hold names beside the others.
const OTHER: u64 = 1000;

/// Who holds the names for which others wait.
const KEEPER: u64 = 2000;

/// The first of those who wait.
const WAITER: u64 = 3000;

/// A row's name.
fn row(table: u32, number: u32) -> LockName {
    LockName::Row {
        table,
        rid: RowId {
            page: number,
            slot: 0,
        },
    }
}

/// Has a mode on a name at once, or not at all.
fn takes(l: &mut LockTable, t: TxnNo, name: LockName, mode: Mode) -> bool {
    if !l.granted(t) {
        return false;
    }
    if l.spare(t) == 0 {
        return false;
    }
    matches!(l.try_lock(t, name, mode), Tried::Granted)
}

/// Waits for a mode on a name that is refused now.
fn waits(l: &mut LockTable, t: TxnNo, name: LockName, mode: Mode) -> bool {
    if !l.granted(t) {
        return false;
    }
    if l.spare(t) == 0 {
        return false;
    }
    match l.try_lock(t, name, mode) {
        Tried::Granted => false,
        Tried::Conflict(_) => {
            if l.spare(t) == 0 {
                return false;
            }
            l.enqueue(t, name, mode);
            true
        }
    }
}

/// Gives a name back.
fn gives(l: &mut LockTable, t: TxnNo, name: LockName) -> bool {
    if !l.granted(t) {
        return false;
    }
    l.release(t, name);
    true
}

/// Takes so many rows of a table, and counts those that it has.
fn take_each(l: &mut LockTable, t: TxnNo, table: u32, times: u32) -> u64 {
    let mut found = 0_u64;
    for number in 0..times {
        if takes(l, t, row(table, number), Mode::X2) {
            found = found.wrapping_add(1);
        }
    }
    found
}

/// A table of locks in which 64 transactions hold so many rows, each of them as many as the others, and so many others wait, each
/// for a row of its own.
pub fn beside(alloc: Global, others: u32, waiters: u32) -> Result<LockTable, AllocError> {
    let mut l = LockTable::new(alloc);
    if others > 0 {
        for t in 0..MANY {
            let each = others / 64;
            l.reserve(TxnNo(OTHER + t), each)?;
            let _ = take_each(&mut l, TxnNo(OTHER + t), 17 + t as u32, each);
        }
    }
    line_up(&mut l, waiters)?;
    Ok(l)
}

/// Has so many transactions wait, each for a row of its own, which one transaction holds.
fn line_up(l: &mut LockTable, waiters: u32) -> Result<(), AllocError> {
    l.reserve(TxnNo(KEEPER), waiters)?;
    let _ = take_each(l, TxnNo(KEEPER), 15, waiters);
    for number in 0..waiters {
        let t = TxnNo(WAITER + number as u64);
        l.reserve(t, 1)?;
        let _ = waits(l, t, row(15, number), Mode::X2);
    }
    Ok(())
}

/// Takes so many rows and gives each back. The answer is how often both were done.
pub fn rows(l: &mut LockTable, times: u32) -> Result<u64, AllocError> {
    l.reserve(TxnNo(1), times)?;
    let mut found = take_each(l, TxnNo(1), 16, times);
    for number in 0..times {
        if gives(l, TxnNo(1), row(16, number)) {
            found = found.wrapping_add(1);
        }
    }
    Ok(found.wrapping_add(l.count(TxnNo(1))))
}

/// Takes so many rows and gives all back at once. The answer is how many it had, counted twice.
pub fn rows_all(l: &mut LockTable, times: u32) -> Result<u64, AllocError> {
    l.reserve(TxnNo(1), times)?;
    let found = take_each(l, TxnNo(1), 16, times);
    let had = l.row_count(TxnNo(1), 16);
    l.release_all(TxnNo(1));
    Ok(found.wrapping_add(had))
}

/// Asks so often whether a mode would be granted, of 64 rows that are held and 64 that aren't. The answer is how often it would.
pub fn asks(l: &mut LockTable, times: u32) -> Result<u64, AllocError> {
    l.reserve(TxnNo(1), 64)?;
    let _ = take_each(l, TxnNo(1), 16, 64);
    let mut found = 0_u64;
    for number in 0..times {
        if l.would_grant(row(16, number % 128), Mode::S2) {
            found = found.wrapping_add(1);
        }
    }
    Ok(found)
}

/// Has two transactions hand a name to each other so often: each waits for it while the other has it. The answer is how often
/// one was woken.
pub fn hands(l: &mut LockTable, times: u32) -> Result<u64, AllocError> {
    l.reserve(TxnNo(0), 1)?;
    let _ = takes(l, TxnNo(0), row(16, 1), Mode::X2);
    let mut found = 0_u64;
    for turn in 0..times {
        let has = turn % 2;
        let other = TxnNo((1 - has) as u64);
        l.reserve(other, 1)?;
        let _ = waits(l, other, row(16, 1), Mode::X2);
        let _ = gives(l, TxnNo(has as u64), row(16, 1));
        if l.woken().is_some() {
            found = found.wrapping_add(1);
        }
    }
    Ok(found)
}

/// Has 64 transactions take one name, and give all back, so often.
pub fn shared(l: &mut LockTable, times: u32) -> Result<u64, AllocError> {
    let mut found = 0_u64;
    for _ in 0..times {
        for t in 0..MANY {
            l.reserve(TxnNo(t), 1)?;
            if takes(l, TxnNo(t), row(16, 1), Mode::S3) {
                found = found.wrapping_add(1);
            }
        }
        for t in 0..MANY {
            l.release_all(TxnNo(t));
        }
    }
    Ok(found)
}

/// Looks for a cycle, and counts its edges and its victim's number.
fn looks(l: &LockTable, t: TxnNo) -> u64 {
    if l.waiters() > 64 {
        return 0;
    }
    match after_wait(l, t) {
        Some(c) => {
            if c.is_empty() {
                0
            } else {
                victim(&c).0.wrapping_add(c.len() as u64)
            }
        }
        None => 1,
    }
}

/// A row for each of 64 transactions, and each but the last waits for the next one's.
fn in_a_row(l: &mut LockTable) -> Result<(), AllocError> {
    for t in 0..MANY {
        l.reserve(TxnNo(t), 3)?;
        let _ = takes(l, TxnNo(t), row(16, t as u32), Mode::X2);
    }
    for t in 1..MANY {
        let _ = waits(l, TxnNo(t - 1), row(16, t as u32), Mode::X2);
    }
    Ok(())
}

/// Looks for a cycle where 64 stand in a row, so often. The answer is how often there was none.
pub fn chain(l: &mut LockTable, times: u32) -> Result<u64, AllocError> {
    in_a_row(l)?;
    let mut found = 0_u64;
    for _ in 0..times {
        found = found.wrapping_add(looks(l, TxnNo(0)));
    }
    Ok(found)
}

/// Looks for the cycle of 64 that the last one closes, so often. The answer sums its edges and its victim.
pub fn ring(l: &mut LockTable, times: u32) -> Result<u64, AllocError> {
    in_a_row(l)?;
    let _ = waits(l, TxnNo(63), row(16, 0), Mode::X2);
    let mut found = 0_u64;
    for _ in 0..times {
        found = found.wrapping_add(looks(l, TxnNo(63)));
    }
    Ok(found)
}
